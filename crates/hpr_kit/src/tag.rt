//! The command `tag`.
ghost use Rattle.std.specs.Prelude.{◌≡◌, IfOk};
ghost use Rattle.hpr_tagging.specs.Tagging.{kept};
ghost use Rattle.hpr_kit.specs.Answer.{prints, refuses, spent_text};
ghost use Rattle.hpr_kit.specs.Comes.{OnTagged, kept_answer, retold};
ghost use Rattle.hpr_kit.specs.Private.Replies.{seen};
ghost use Rattle.hpr_syntax.specs.Print.{text};

use crate::refused::{refused, says};
use crate::reply::{Reply, prints};
use crate::status::Status;
use hpr_print::text_of;
use hpr_refusals::{Refusal, about};
use hpr_syntax::{NoMemory, Program};
use hpr_tagging::{Tagged, TaggingError, tag_parts};
use hpr_terms::limits::MAX_FILE;
use std::alloc::Global;

/// The program that the bytes of a file spell once the parts without a tag have the author's next serials: its
/// canonical text, or the bytes with these tags.
pub(crate) fn tag_bytes(
    alloc: Global,
    file: &str,
    bytes: &[u8],
    author: u32,
    keep: bool,
) -> Result<Reply, NoMemory>
    ensures { IfOk result (λ reply. OnTagged author file.now bytes.now
        (λ p. seen reply ≡ retold keep file.now bytes.now (kept author bytes.now) p) (seen reply)) }
{
    if bytes.len() > MAX_FILE {
        return refused(alloc, file, bytes, &Refusal::Longer);
    }
    match tag_parts(alloc, bytes, author) {
        Ok(tagged) => print_tagged(alloc, file, bytes, tagged, keep),
        Err(TaggingError::Syntax { place }) => {
            refused(alloc, file, bytes, &Refusal::Syntax { place })
        }
        Err(TaggingError::Shape(error)) => refused(alloc, file, bytes, &Refusal::Shape(error)),
        Err(TaggingError::SerialsSpent) => spent(alloc, file),
        Err(TaggingError::Memory) => Err(NoMemory),
    }
}

/// The reply that prints a text with its tags, or the canonical text of its program.
fn print_tagged(
    alloc: Global,
    file: &str,
    bytes: &[u8],
    tagged: Tagged,
    keep: bool,
) -> Result<Reply, NoMemory>
    ensures { IfOk result (λ reply. seen reply
        ≡ retold keep file.now bytes.now tagged.text.items tagged.program) }
{
    if keep {
        return print_kept(alloc, file, bytes, tagged.text);
    }
    print_program(alloc, &tagged.program)
}

/// The reply that prints a text with its tags. One that is too long to be read again is refused.
fn print_kept(alloc: Global, file: &str, bytes: &[u8], text: Vec<u8>) -> Result<Reply, NoMemory>
    ensures { IfOk result (λ reply. seen reply ≡ kept_answer file.now bytes.now text.items) }
{
    if text.len() > MAX_FILE {
        return refused(alloc, file, bytes, &Refusal::Longer);
    }
    Ok(prints(alloc, text))
}

/// The reply that prints the canonical text of a program.
fn print_program(alloc: Global, program: &Program) -> Result<Reply, NoMemory>
    ensures { IfOk result (λ reply. seen reply ≡ prints (text program.now)) }
{
    Ok(prints(alloc, text_of(alloc, program)?))
}

/// The reply that the author's serials don't suffice.
fn spent(alloc: Global, file: &str) -> Result<Reply, NoMemory>
    ensures { IfOk result (λ reply. seen reply ≡ refuses (spent_text file.now)) }
{
    let text = about(alloc, file, "serials are spent")?;
    Ok(says(alloc, Status::Refused, text.into_bytes()))
}
