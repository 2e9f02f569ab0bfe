//! The words and the files that a caller hands in as bytes.
ghost use Rattle.std.specs.Prelude.{◌≡◌, ◌==◌, ◌++◌, ◌∷◌, [], ℕ, List, map, string_bytes};
ghost use Rattle.std.specs.Prelude.{IfOk, IfSome, IfNone, IsErrOf, OnOk};
ghost use Rattle.std.specs.List.{position};
ghost use Rattle.hpr_io.specs.Files.{Files, files_in};
ghost use Rattle.hpr_words.specs.Request.{Text};
ghost use Rattle.hpr_c.specs.Integrate.{integrate_words, three};
ghost use Rattle.hpr_c.specs.Packed.{AreFiles, IsFirst, IsPacked};

use std::alloc::Global;

/// A file in memory: its name and its bytes.
pub(crate) type File = (String, Vec<u8>);

/// Why what was handed in is not taken.
#[derive(Clone, Copy)]
pub(crate) enum GivenError {
    /// It hasn't the form.
    Form,
    /// There was no memory for it.
    Memory,
}

/// Where the first zero byte stands.
fn zero_at(bytes: &[u8]) -> Option<usize>
    ensures { result ≡ position (λ byte. byte == 0) bytes.now }
{
    bytes.iter().position(|byte| *byte == 0)
}

/// The first of packed texts, and what stands behind its zero byte.
fn first_text(bytes: &[u8]) -> Option<(&str, &[u8])>
    ensures first { IfSome result (λ p. IsFirst bytes.now p.0.now p.1.now) }
    ensures none { IfNone result ((text : Text) (rest : List ℕ) → IsFirst bytes.now text rest → ⊥) }
{
    let Some(end) = zero_at(bytes) else {
        return None;
    };
    match std::str::from_utf8(&bytes[..end]) {
        Ok(text) => Some((text, &bytes[end + 1..])),
        Err(_) => None,
    }
}

fn push_word(alloc: Global, words: &mut Vec<String>, word: &str) -> Result<(), GivenError>
    ensures pushed { OnOk result (map string_bytes words.new.items
        ≡ map string_bytes words.old.items ++ word.now ∷ []) }
    ensures error { IsErrOf result GivenError.Form → ⊥ }
{
    let word = String::from_str(alloc, word).map_err(|_| GivenError::Memory)?;
    words.push(word).map_err(|_| GivenError::Memory)
}

fn push_file(
    alloc: Global,
    files: &mut Vec<File>,
    name: &str,
    bytes: &[u8],
) -> Result<(), GivenError>
    ensures pushed { OnOk result (files_in files.new.items
        ≡ files_in files.old.items ++ (name.now, bytes.now) ∷ []) }
    ensures error { IsErrOf result GivenError.Form → ⊥ }
{
    let name = String::from_str(alloc, name).map_err(|_| GivenError::Memory)?;
    let bytes = Vec::from_slice(alloc, bytes).map_err(|_| GivenError::Memory)?;
    files.push((name, bytes)).map_err(|_| GivenError::Memory)
}

/// The texts that the bytes are, each of which ends with a zero byte.
pub(crate) fn words_of(alloc: Global, bytes: &[u8]) -> Result<Vec<String>, GivenError>
    ensures words { IfOk result (λ words. IsPacked bytes.now (map string_bytes words.items)) }
    ensures form { IsErrOf result GivenError.Form → (texts : List Text) → IsPacked bytes.now texts → ⊥ }
{
    let mut words = Vec::new(alloc);
    let mut rest = bytes;
    while !rest.is_empty() {
        let Some((word, behind)) = first_text(rest) else {
            return Err(GivenError::Form);
        };
        push_word(alloc, &mut words, word)?;
        rest = behind;
    }
    Ok(words)
}

/// The files with these names, each of which ends with a zero byte, and these lengths, whose bytes stand one after
/// another.
pub(crate) fn files_of(
    alloc: Global,
    names: &[u8],
    lengths: &[usize],
    bytes: &[u8],
) -> Result<Vec<File>, GivenError>
    ensures files { IfOk result (λ files. AreFiles names.now lengths.now bytes.now (files_in files.items)) }
    ensures form { IsErrOf result GivenError.Form
        → (files : Files) → AreFiles names.now lengths.now bytes.now files → ⊥ }
{
    let mut files = Vec::new(alloc);
    let mut more_names = names;
    let mut rest = bytes;
    for length in lengths {
        let Some((name, later)) = first_text(more_names) else {
            return Err(GivenError::Form);
        };
        let Some((front, behind)) = rest.split_at_checked(*length) else {
            return Err(GivenError::Form);
        };
        push_file(alloc, &mut files, name, front)?;
        more_names = later;
        rest = behind;
    }
    if more_names.is_empty() && rest.is_empty() {
        Ok(files)
    } else {
        Err(GivenError::Form)
    }
}

/// The words that integrate two variants with their base.
pub(crate) fn three_words(alloc: Global) -> Result<Vec<String>, GivenError>
    ensures words { IfOk result (λ words. map string_bytes words.items ≡ integrate_words) }
    ensures error { IsErrOf result GivenError.Form → ⊥ }
{
    let mut words = Vec::new(alloc);
    push_word(alloc, &mut words, "integrate")?;
    push_word(alloc, &mut words, "base")?;
    push_word(alloc, &mut words, "a")?;
    push_word(alloc, &mut words, "b")?;
    Ok(words)
}

/// The files that those words name.
pub(crate) fn three_files(
    alloc: Global,
    base: &[u8],
    a: &[u8],
    b: &[u8],
) -> Result<Vec<File>, GivenError>
    ensures files { IfOk result (λ files. files_in files.items ≡ three base.now a.now b.now) }
    ensures error { IsErrOf result GivenError.Form → ⊥ }
{
    let mut files = Vec::new(alloc);
    push_file(alloc, &mut files, "base", base)?;
    push_file(alloc, &mut files, "a", a)?;
    push_file(alloc, &mut files, "b", b)?;
    Ok(files)
}
