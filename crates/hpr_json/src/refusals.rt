//! Refusals as JSON.
ghost use Rattle.std.specs.Prelude.{◌≡◌, ◌≢◌, ◌++◌, false, codes, IfOk, OnOk, string_bytes};
ghost use Rattle.std.specs.Fmt.{decimal};
ghost use Rattle.serde_json.specs.Data.{no_members, string, put as with_member};
ghost use Rattle.serde_json.specs.View.{view, members_view};
ghost use Rattle.serde_json.specs.Written.{has_float};
ghost use Rattle.hpr_terms.specs.Texts.{tag_text};
ghost use Rattle.hpr_json.specs.Refusals.{kind_word, shape_word, with_cause, with_place, refused_members, refusal_data, edges_text, edges_data, state_data, absent_data, words_data};

use crate::members::put_text;
use hpr_refusals::{Refusal, ShapeError, about};
use hpr_syntax::{NoMemory, Tag};
use hpr_terms::limits::MAX_EDGES;
use serde_json::{Map, Value, put};
use std::alloc::{AllocError, Global};

/// The answer where a file is refused: an object with the `file`, the `kind` of the refusal, its `message`,
/// and the status `refused`. Where the refusal is about a `byte`, the `tag` of a part, a `name` or a number
/// of `parts`, that stands there too.
///
/// It fails where memory runs out, also where that is why there is no program.
pub fn refusal_value(alloc: Global, file: &str, why: &Refusal) -> Result<Value, NoMemory>
    ensures data { IfOk result (λ value. view value ≡ refusal_data file.now why.now) }
    ensures whole { IfOk result (λ value. has_float (view value) ≡ false) }
    ensures memory { IfOk result (λ value. why.now ≢ Refusal.Shape ShapeError.Memory) }
{
    let message = why.message(alloc, file)?;
    let mut members = Map::new(alloc);
    put_refused(alloc, &mut members, file, kind_word(why), message)?;
    put_place(alloc, &mut members, why)?;
    Ok(Value::Object(members))
}

/// Puts what stands in each refusal of a file into an object that has no members.
fn put_refused(
    alloc: Global,
    members: &mut Map<String, Value>,
    file: &str,
    kind: &str,
    message: String,
) -> Result<(), AllocError>
    requires { members_view members.old.entries ≡ no_members }
    ensures { OnOk result (members_view members.new.entries
        ≡ refused_members file.now kind.now (string_bytes message)) }
{
    put_text(alloc, members, "file", file)?;
    put_text(alloc, members, "kind", kind)?;
    put(members, alloc, "message", Value::from(message))?;
    put_text(alloc, members, "status", "refused")
}

/// What the refusal of a file is called.
fn kind_word(why: &Refusal) -> &'static str
    ensures { result.now ≡ kind_word why.now }
{
    match why {
        Refusal::Longer => "too long",
        Refusal::Syntax { place: _ } => "syntax",
        Refusal::Shape(error) => shape_word(error),
    }
}

/// What the refusal of a tree is called.
fn shape_word(error: &ShapeError) -> &'static str
    ensures { result.now ≡ shape_word error.now }
{
    match error {
        ShapeError::DuplicateTag(_) => "tag twice",
        ShapeError::Unissued(_) => "tag not issued",
        ShapeError::TooDeep(_) => "too deep",
        ShapeError::ExprTooLarge(_) => "expression too large",
        ShapeError::WrongName(_) => "wrong name",
        ShapeError::TooManyParts(_) => "too many parts",
        ShapeError::DuplicateFinal(_) => "name twice",
        ShapeError::Memory => "",
    }
}

/// Puts what the refusal of a file is about, if anything.
fn put_place(
    alloc: Global,
    members: &mut Map<String, Value>,
    why: &Refusal,
) -> Result<(), AllocError>
    ensures { OnOk result (members_view members.new.entries ≡ with_place why.now (members_view members.old.entries)) }
{
    match why {
        Refusal::Longer => Ok(()),
        Refusal::Syntax { place } => put(members, alloc, "byte", Value::from(*place)),
        Refusal::Shape(error) => put_cause(alloc, members, error),
    }
}

/// Puts what the refusal of a tree is about, if anything.
fn put_cause(
    alloc: Global,
    members: &mut Map<String, Value>,
    error: &ShapeError,
) -> Result<(), AllocError>
    ensures { OnOk result (members_view members.new.entries ≡ with_cause error.now (members_view members.old.entries)) }
{
    match error {
        ShapeError::DuplicateTag(tag) => put_tag(alloc, members, *tag),
        ShapeError::Unissued(tag) => put_tag(alloc, members, *tag),
        ShapeError::TooDeep(tag) => put_tag(alloc, members, *tag),
        ShapeError::ExprTooLarge(tag) => put_tag(alloc, members, *tag),
        ShapeError::WrongName(tag) => put_tag(alloc, members, *tag),
        ShapeError::TooManyParts(count) => put(members, alloc, "parts", Value::from(*count)),
        ShapeError::DuplicateFinal(name) => put_text(alloc, members, "name", name.text()),
        ShapeError::Memory => Ok(()),
    }
}

fn put_tag(alloc: Global, members: &mut Map<String, Value>, tag: Tag) -> Result<(), AllocError>
    ensures { OnOk result (members_view members.new.entries
        ≡ with_member (codes "tag") (string (tag_text tag)) (members_view members.old.entries)) }
{
    put(members, alloc, "tag", Value::from(tag.to_string(alloc)?))
}

/// The answer where the graph of a file's program has more than [`MAX_EDGES`] edges: an object with the
/// `file`, the `kind` `too many edges`, the `message`, and the status `refused`. It fails only for want of
/// memory.
pub fn edges_value(alloc: Global, file: &str) -> Result<Value, NoMemory>
    ensures data { IfOk result (λ value. view value ≡ edges_data file.now) }
    ensures whole { IfOk result (λ value. has_float (view value) ≡ false) }
{
    let message = edges_message(alloc, file)?;
    let mut members = Map::new(alloc);
    put_refused(alloc, &mut members, file, "too many edges", message)?;
    Ok(Value::Object(members))
}

fn edges_message(alloc: Global, file: &str) -> Result<String, AllocError>
    ensures { IfOk result (λ message. string_bytes message ≡ edges_text file.now) }
{
    let reason = edges_reason(alloc, MAX_EDGES)?;
    about(alloc, file, reason.as_str())
}

fn edges_reason(alloc: Global, most: usize) -> Result<String, AllocError>
    ensures { IfOk result (λ text. string_bytes text ≡ codes "graph has more than " ++ decimal most ++ codes " edges") }
{
    format!(in alloc; "graph has more than {most} edges")
}

/// The answer where a word of the state is refused with this message, which names it: an object with the
/// `kind` `state word`, the `message`, and the status `refused`. It fails only for want of memory.
pub fn state_value(alloc: Global, message: &str) -> Result<Value, NoMemory>
    ensures data { IfOk result (λ value. view value ≡ state_data message.now) }
    ensures whole { IfOk result (λ value. has_float (view value) ≡ false) }
{
    let mut members = Map::new(alloc);
    put_text(alloc, &mut members, "kind", "state word")?;
    put_text(alloc, &mut members, "message", message)?;
    put_text(alloc, &mut members, "status", "refused")?;
    Ok(Value::Object(members))
}

/// The answer where there is no such file: an object with the `file`, and the status `absent`. It fails only
/// for want of memory.
pub fn absent_value(alloc: Global, file: &str) -> Result<Value, NoMemory>
    ensures data { IfOk result (λ value. view value ≡ absent_data file.now) }
    ensures whole { IfOk result (λ value. has_float (view value) ≡ false) }
{
    let mut members = Map::new(alloc);
    put_text(alloc, &mut members, "file", file)?;
    put_text(alloc, &mut members, "status", "absent")?;
    Ok(Value::Object(members))
}

/// The answer where the words are no call: an object with the status `words`. It fails only for want of
/// memory.
pub fn words_value(alloc: Global) -> Result<Value, NoMemory>
    ensures data { IfOk result (λ value. view value ≡ words_data) }
    ensures whole { IfOk result (λ value. has_float (view value) ≡ false) }
{
    let mut members = Map::new(alloc);
    put_text(alloc, &mut members, "status", "words")?;
    Ok(Value::Object(members))
}
