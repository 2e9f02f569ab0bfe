//! Replies that say something alone: no, or why something is refused.
ghost use Rattle.std.specs.Prelude.{◌≡◌, ◌++◌, [], None, IfOk, OnOk};
ghost use Rattle.hpr_kit.specs.Answer.{beyond_text, place_if_any, refused_text, refuses};
ghost use Rattle.hpr_kit.specs.Private.Replies.{IsWithin, seen};

use crate::place::put_place;
use crate::put::put;
use crate::reply::Reply;
use crate::status::Status;
use hpr_refusals::Refusal;
use hpr_syntax::NoMemory;
use std::alloc::Global;

/// The reply that refuses a file with these bytes.
pub(crate) fn refused(
    alloc: Global,
    file: &str,
    bytes: &[u8],
    why: &Refusal,
) -> Result<Reply, NoMemory>
    requires { IsWithin bytes.now why.now }
    ensures { IfOk result (λ reply. seen reply ≡ refuses (refused_text file.now bytes.now why.now)) }
{
    let mut text = why.message(alloc, file)?.into_bytes();
    put_place_if_any(alloc, &mut text, file, bytes, why)?;
    Ok(says(alloc, Status::Refused, text))
}

/// Puts the place where the bytes spell no tree.
fn put_place_if_any(
    alloc: Global,
    text: &mut Vec<u8>,
    file: &str,
    bytes: &[u8],
    why: &Refusal,
) -> Result<(), NoMemory>
    requires { IsWithin bytes.now why.now }
    ensures { OnOk result (text.new.items ≡ text.old.items ++ place_if_any file.now bytes.now why.now) }
{
    match why {
        Refusal::Syntax { place } => put_place(alloc, text, file, bytes, *place),
        Refusal::Longer => Ok(()),
        Refusal::Shape(_) => Ok(()),
    }
}

/// The reply that refuses a byte which a file of so many bytes doesn't have.
pub(crate) fn beyond(alloc: Global, file: &str, byte: u64, count: usize) -> Result<Reply, NoMemory>
    ensures { IfOk result (λ reply. seen reply ≡ refuses (beyond_text file.now byte count)) }
{
    let text = format!(in alloc; "hprkit: {file}: no byte {byte} in {count}\n")?;
    Ok(says(alloc, Status::Refused, text.into_bytes()))
}

/// The reply with this status that says a message alone.
pub(crate) fn says(alloc: Global, status: Status, message: Vec<u8>) -> Reply
    ensures { seen result ≡ record { status = status; out = []; err = message.items; rewrite = None } }
{
    Reply::Said {
        status,
        out: Vec::new(alloc),
        err: message,
    }
}
