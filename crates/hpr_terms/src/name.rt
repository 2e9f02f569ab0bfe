//! Names.
ghost use Rattle.std.specs.Prelude.{◌≡◌, ◌↔◌, IfOk, IsErrOf, IsTrue};
ghost use Rattle.std.proofs.Common.{rules};
ghost use Rattle.std.specs.Bool.{◌==◌};
ghost use Rattle.std.specs.List.{list_all};
ghost use Rattle.std.specs.Cmp.Rules.{comparing};
ghost use Rattle.std.specs.Cmp.Lexicographic.{slice_cmp, pointwise};
ghost use Rattle.std.specs.Ordering.{nat_cmp, as_partial_cmp};
ghost use Rattle.hpr_terms.specs.Names.{IsName, IsVariable, stream, is_stream, array_of, is_array, base_of, is_name, is_name_like, is_name_byte, begins_with_digit};

use crate::keyword::Keyword;
use crate::limits::MAX_NAME;
use crate::memory::NoMemory;
use std::alloc::{AllocError, AllocFailed, Global};
use std::cmp::Ordering;
use std::fmt;
use std::marker::Model;
use std::rc::Rc;

/// Why a text is no name.
#[derive(Clone, Copy, Debug, PartialEq, Eq)]
pub enum NameError {
    /// The text is no name.
    NotAName,
    /// Memory ran out.
    Memory,
}

impl From<AllocError> for NameError {
    ghost use Rattle.std.specs.Prelude.{◌≡◌};
    ghost use Rattle.hpr_terms.specs.declared.name.NameError.TheVariants.{Memory};

    ghost from_gives = { λ _ e. e ≡ Memory };

    fn from(_error: AllocError) -> NameError {
        NameError::Memory
    }
}

impl<T: Drop> From<AllocFailed<T>> for NameError {
    ghost use Rattle.std.specs.Prelude.{◌≡◌};
    ghost use Rattle.hpr_terms.specs.declared.name.NameError.TheVariants.{Memory};

    ghost from_gives = { λ _ e. e ≡ Memory };

    fn from(_error: AllocFailed<T>) -> NameError {
        NameError::Memory
    }
}

/// What may have a value: a plain name, which is 1 to 64 ASCII letters, digits and `_`, not beginning with a
/// digit, and no keyword; the stream `out`, which a program writes; or an array, whose name is a plain name and `[]`.
///
/// A contract sees a name as its bytes. Names compare by their bytes.
pub struct Name {
    text: Rc<String>,
}

// By hand, so that each way out of a function that holds a name is one call, proved here.
impl Drop for Name {
    fn drop(self) {
        let Name { text: _ } = self;
    }
}

impl Model for Name {
    ghost use Rattle.std.specs.Prelude.{List, ℕ, string_bytes};
    ghost use Rattle.hpr_terms.specs.Names.{IsVariable};

    ghost Value = { List ℕ };

    ghost view = { λ n. string_bytes n.text.value };

    ghost invariant = { λ n. IsVariable (string_bytes n.text.value) };
}

/// Whether the byte is a letter, a digit or `_`.
#[tactic(auto, unfolding(crate::specs::Names::is_name_byte))]
pub fn is_name_byte(byte: u8) -> bool
    ensures { result ≡ is_name_byte byte }
{
    byte.is_ascii_alphanumeric() || byte == b'_'
}

fn begins_with_digit(text: &[u8]) -> bool
    ensures { result ≡ begins_with_digit text.now }
{
    match text {
        [] => false,
        [first, ..] => first.is_ascii_digit(),
    }
}

fn has_name_bytes(text: &[u8]) -> bool
    ensures { result ≡ list_all is_name_byte text.now }
{
    text.iter().all(|byte| is_name_byte(*byte))
}

/// Whether the text has 1 to 64 letters, digits and `_` and doesn't begin with a digit: a name, or a
/// keyword.
#[tactic(auto, unfolding(crate::specs::Names::is_name_like))]
pub fn is_name_like(text: &[u8]) -> bool
    ensures { result ≡ is_name_like text.now }
{
    if text.is_empty() || text.len() > MAX_NAME {
        return false;
    }
    has_name_bytes(text) && !begins_with_digit(text)
}

/// Whether the text is a name.
#[tactic(auto, unfolding(crate::specs::Names::is_name))]
pub fn is_name(text: &[u8]) -> bool
    ensures { result ≡ is_name text.now }
{
    is_name_like(text) && Keyword::of(text).is_none()
}

/// Whether the text is the name of an array: a plain name and `[]`.
#[tactic(auto, unfolding(crate::specs::Names::is_array))]
pub fn is_array(text: &[u8]) -> bool
    ensures { result ≡ is_array text.now }
{
    match text.strip_suffix(b"[]") {
        Some(base) => is_name(base),
        None => false,
    }
}

impl Name {
    /// The plain name with this text. `NotAName` comes exactly where the text is no plain name.
    pub fn new(alloc: Global, text: &str) -> Result<Name, NameError>
        ensures ok { IfOk result (λ name. name ≡ text.now) }
        ensures not_a_name { IsErrOf result NameError.NotAName ↔ (¬ IsName text.now) }
        ensures name { IfOk result (λ name. IsName name) }
    {
        if !is_name(text.as_bytes()) {
            return Err(NameError::NotAName);
        }
        let text = String::from_str(alloc, text)?;
        Ok(Name {
            text: Rc::new(alloc, text)?,
        })
    }

    /// The name of the stream, `out`. The refusal is want of memory.
    #[tactic(auto, using(crate::proofs::Plain::stream_is_variable))]
    pub fn stream(alloc: Global) -> Result<Name, NoMemory>
        ensures { IfOk result (λ name. name ≡ stream) }
    {
        let text = String::from_str(alloc, "out")?;
        Ok(Name {
            text: Rc::new(alloc, text)?,
        })
    }

    /// The name of the array whose elements are written with this plain name: `a[]` of `a`. The refusal is want of
    /// memory.
    #[tactic(auto, using(crate::proofs::Plain::array_is_variable))]
    pub fn array(alloc: Global, base: &Name) -> Result<Name, NoMemory>
        requires { IsName base.now }
        ensures { IfOk result (λ name. name ≡ array_of base.now) }
    {
        let mut text = String::from_str(alloc, base.text())?;
        text.push_str("[]")?;
        Ok(Name {
            text: Rc::new(alloc, text)?,
        })
    }

    /// The text of the name.
    pub fn text(&self) -> &str
        ensures text { result.now ≡ self.now }
        ensures variable { IsVariable self.now }
    {
        self.text.as_str()
    }

    /// Whether it is the name of the stream.
    pub fn is_stream(&self) -> bool
        ensures { result ≡ is_stream self.now }
    {
        self.text.as_str() == "out"
    }

    /// Whether it is the name of an array.
    pub fn is_array(&self) -> bool
        ensures { result ≡ is_array self.now }
    {
        is_array(self.text.as_bytes())
    }

    /// Whether it is a plain name.
    pub fn is_plain(&self) -> bool
        ensures { result ≡ is_name self.now }
    {
        let text = self.text();
        !self.is_stream() && !is_array(text.as_bytes())
    }

    /// The name of an array without its `[]`; any other name as it is.
    #[tactic(auto, unfolding(crate::specs::Names::base_of))]
    pub fn base(&self) -> &str
        ensures { result.now ≡ base_of self.now }
    {
        let text = self.text.as_str();
        if self.is_array() {
            &text[..text.len() - 2]
        } else {
            text
        }
    }

    /// Whether two names are the same.
    pub fn is_same(&self, other: &Name) -> bool
        ensures { IsTrue result ↔ (self.now ≡ other.now) }
    {
        self == other
    }

    /// A copy. It shares the text, which never changes, so no memory is taken from the allocator.
    pub fn copy(&self, _alloc: Global) -> Result<Name, NoMemory>
        ensures { IfOk result (λ name. name ≡ self.now) }
    {
        Ok(Name {
            text: self.text.clone()?,
        })
    }
}

/// Copies of the names, in their order.
pub fn copy_names(alloc: Global, names: &[Name]) -> Result<Vec<Name>, NoMemory>
    ensures { IfOk result (λ v. v.items ≡ names.now) }
{
    let mut copies = Vec::new(alloc);
    for name in names {
        copies.push(name.copy(alloc)?)?;
    }
    Ok(copies)
}

/// A name is written as it is.
impl fmt::Display for Name {
    ghost use Rattle.std.specs.Prelude.{Some};

    ghost output = { λ n. Some n };

    fn fmt<W: fmt::Write>(&self, f: &mut fmt::Formatter<W>) -> fmt::Result {
        f.write_str(self.text.as_str())
    }
}

impl PartialEq for Name {
    ghost eq = { pointwise ◌==◌ };

    ghost laws = { Prim.search (comparing, rules) };

    fn eq(&self, other: &Name) -> bool {
        self.text == other.text
    }
}

impl Eq for Name {
    ghost laws = { Prim.search (comparing, rules) };
}

impl Ord for Name {
    ghost cmp = { slice_cmp nat_cmp };

    ghost total = { Prim.search (comparing, rules) };

    ghost matches_partial_cmp = { Prim.search (comparing, rules) };

    ghost matches_eq = { Prim.search (comparing, rules) };

    fn cmp(&self, other: &Name) -> Ordering {
        self.text.cmp(&other.text)
    }
}

impl PartialOrd for Name {
    ghost partial_cmp = { as_partial_cmp (slice_cmp nat_cmp) };

    ghost laws = { Prim.search (comparing, rules) };

    fn partial_cmp(&self, other: &Name) -> Option<Ordering> {
        Some(self.cmp(other))
    }
}
