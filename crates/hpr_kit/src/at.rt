//! The command `at`.
ghost use Rattle.std.specs.Prelude.{◌≡◌, ◌++◌, IfOk, codes};
ghost use Rattle.hpr_kit.specs.Answer.{prints};
ghost use Rattle.hpr_kit.specs.Comes.{placed};
ghost use Rattle.hpr_kit.specs.Private.Replies.{seen};
ghost use Rattle.hpr_kit.specs.Shown.{place_of};

use crate::refused::{beyond, refused};
use crate::reply::{Reply, prints};
use hpr_places::line_and_column;
use hpr_refusals::Refusal;
use hpr_syntax::NoMemory;
use hpr_terms::limits::MAX_FILE;
use std::alloc::Global;

/// The line and the column of a byte of a file with these bytes.
pub(crate) fn place_bytes(
    alloc: Global,
    file: &str,
    bytes: &[u8],
    byte: u64,
) -> Result<Reply, NoMemory>
    ensures { IfOk result (λ reply. seen reply ≡ placed file.now bytes.now byte) }
{
    if bytes.len() > MAX_FILE {
        return refused(alloc, file, bytes, &Refusal::Longer);
    }
    if byte > bytes.len() as u64 {
        return beyond(alloc, file, byte, bytes.len());
    }
    print_place(alloc, bytes, byte as usize)
}

/// The reply that prints the line and the column of a byte.
fn print_place(alloc: Global, bytes: &[u8], byte: usize) -> Result<Reply, NoMemory>
    ensures { IfOk result (λ reply. seen reply ≡ prints (place_of bytes.now byte ++ codes "\n")) }
{
    let (line, column) = line_and_column(bytes, byte);
    let text = format!(in alloc; "{line}:{column}\n")?;
    Ok(prints(alloc, text.into_bytes()))
}
