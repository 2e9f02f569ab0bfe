//! The command `fmt`.
ghost use Rattle.std.specs.Prelude.{◌≡◌, ◌≤◌, ◌==◌, ◌++◌, IfOk, codes, length};
ghost use Rattle.std.specs.List.{common_prefix_len};
ghost use Rattle.hpr_kit.specs.Answer.{denies};
ghost use Rattle.hpr_kit.specs.Comes.{checked, formatted, renewed};
ghost use Rattle.hpr_kit.specs.Reading.{OnProgram};
ghost use Rattle.hpr_kit.specs.Private.Replies.{seen};
ghost use Rattle.hpr_kit.specs.Shown.{place_text};

use crate::place::put_place;
use crate::program::{Unread, program_of};
use crate::refused::{refused, says};
use crate::reply::{Reply, prints};
use crate::status::Status;
use hpr_print::text_of;
use hpr_syntax::{NoMemory, Program};
use hprkit_words::FormatForm;
use std::alloc::Global;

/// The canonical text of the program that the bytes of a file spell: printed, compared with them, or to be put in
/// their place.
pub(crate) fn format_bytes(
    alloc: Global,
    file: &str,
    bytes: &[u8],
    form: FormatForm,
) -> Result<Reply, NoMemory>
    ensures { IfOk result (λ reply. OnProgram file.now bytes.now
        (λ p. seen reply ≡ formatted form file.now bytes.now p) (seen reply)) }
{
    match program_of(alloc, bytes) {
        Ok(program) => format_program(alloc, file, bytes, &program, form),
        Err(Unread::Refused(why)) => refused(alloc, file, bytes, &why),
        Err(Unread::Memory) => Err(NoMemory),
    }
}

/// The same of a program that they spell.
fn format_program(
    alloc: Global,
    file: &str,
    bytes: &[u8],
    program: &Program,
    form: FormatForm,
) -> Result<Reply, NoMemory>
    ensures { IfOk result (λ reply. seen reply ≡ formatted form file.now bytes.now program.now) }
{
    let canonical = text_of(alloc, program)?;
    match form {
        FormatForm::Print => Ok(prints(alloc, canonical)),
        FormatForm::Check => check_text(alloc, file, bytes, canonical.as_slice()),
        FormatForm::InPlace => renew(alloc, file, bytes, canonical),
    }
}

/// The reply that gives the file with these bytes the canonical text, unless it has it.
fn renew(alloc: Global, file: &str, bytes: &[u8], canonical: Vec<u8>) -> Result<Reply, NoMemory>
    ensures { IfOk result (λ reply. seen reply ≡ renewed file.now bytes.now canonical.items) }
{
    if bytes == canonical.as_slice() {
        return Ok(prints(alloc, Vec::new(alloc)));
    }
    Ok(Reply::Rewrites {
        file: String::from_str(alloc, file)?,
        had: Vec::from_slice(alloc, bytes)?,
        bytes: canonical,
    })
}

/// Whether the bytes are the canonical text, and else where they first differ.
fn check_text(alloc: Global, file: &str, bytes: &[u8], canonical: &[u8]) -> Result<Reply, NoMemory>
    ensures { IfOk result (λ reply. seen reply ≡ checked file.now bytes.now canonical.now) }
{
    if bytes == canonical {
        return Ok(says(alloc, Status::Done, Vec::new(alloc)));
    }
    differs(alloc, file, bytes, same_len(bytes, canonical))
}

/// The reply that the bytes aren't the canonical text, from which they differ at this place.
fn differs(alloc: Global, file: &str, bytes: &[u8], place: usize) -> Result<Reply, NoMemory>
    requires { place ≤ length bytes.now }
    ensures { IfOk result (λ reply. seen reply ≡ denies (codes "hprkit: " ++ file.now
        ++ codes ": not the canonical text\n" ++ place_text file.now bytes.now place)) }
{
    let head = format!(in alloc; "hprkit: {file}: not the canonical text\n")?;
    let mut text = head.into_bytes();
    put_place(alloc, &mut text, file, bytes, place)?;
    Ok(says(alloc, Status::No, text))
}

/// How many first bytes two texts have in common.
fn same_len(a: &[u8], b: &[u8]) -> usize
    ensures count { result ≡ common_prefix_len (λ x y. x == y) a.now b.now }
    ensures within { result ≤ length a.now }
{
    for (at, byte) in a.iter().enumerate() {
        if at >= b.len() {
            return at;
        }
        if *byte != b[at] {
            return at;
        }
    }
    a.len()
}
