//! Puts changes into a text, and leads a place in the changed text back.
ghost use Rattle.std.specs.Prelude.{◌≡◌, ◌++◌, ◌+◌, min, take, drop, OnOk, IfOk, string_bytes, codes};
ghost use Rattle.std.specs.Fmt.{decimal};
ghost use Rattle.hpr_terms.specs.Texts.{tag_text};
ghost use Rattle.hpr_tagging.specs.Tagging.{put_text, changed, place_back};

use crate::changes::{Change, Put};
use hpr_terms::{NoMemory, Tag};
use std::alloc::{AllocError, Global};

fn label_text(alloc: Global, tag: Tag) -> Result<String, AllocError>
    ensures { IfOk result (λ text. string_bytes text ≡ tag_text tag ++ codes ": ") }
{
    format!(in alloc; "{tag}: ")
}

fn pair_text(alloc: Global, author: u32, serial: u32) -> Result<String, AllocError>
    ensures { IfOk result (λ text. string_bytes text
        ≡ decimal author ++ codes ":" ++ decimal serial ++ codes ", ") }
{
    format!(in alloc; "{author}:{serial}, ")
}

fn put_text(alloc: Global, author: u32, put: Put) -> Result<String, AllocError>
    ensures { IfOk result (λ text. string_bytes text ≡ put_text author put) }
{
    match put {
        Put::Label(serial) => label_text(alloc, Tag { author, serial }),
        Put::Raised(serial) => serial.to_string(alloc),
        Put::Pair(serial) => pair_text(alloc, author, serial),
    }
}

/// The bytes from one on.
fn behind(bytes: &[u8], first: usize) -> &[u8]
    ensures { result.now ≡ drop first bytes.now }
{
    if first < bytes.len() {
        &bytes[first..]
    } else {
        &[]
    }
}

/// So many bytes at the front.
fn front(bytes: &[u8], count: usize) -> &[u8]
    ensures { result.now ≡ take count bytes.now }
{
    if count < bytes.len() {
        &bytes[..count]
    } else {
        bytes
    }
}

fn push_bytes(out: &mut Vec<u8>, bytes: &[u8]) -> Result<(), NoMemory>
    ensures { OnOk result (out.new.items ≡ out.old.items ++ bytes.now) }
{
    out.extend_from_slice(bytes)?;
    Ok(())
}

/// Puts the bytes from one up to a change, and what is put in there.
fn put_change(
    alloc: Global,
    out: &mut Vec<u8>,
    author: u32,
    unchanged: &[u8],
    change: Change,
) -> Result<(), NoMemory>
    ensures { OnOk result (out.new.items ≡ out.old.items ++ unchanged.now ++ put_text author change.put) }
{
    push_bytes(out, unchanged)?;
    let text = put_text(alloc, author, change.put)?;
    push_bytes(out, text.as_str().as_bytes())
}

/// The text with the changes, which are in the order of the text.
pub fn changed(
    alloc: Global,
    author: u32,
    bytes: &[u8],
    changes: &[Change],
) -> Result<Vec<u8>, NoMemory>
    ensures { IfOk result (λ text. text.items ≡ changed author bytes.now 0 changes.now) }
{
    let mut out = Vec::new(alloc);
    let mut at = 0usize;
    for change in changes {
        let unchanged = front(behind(bytes, at), change.first.saturating_sub(at));
        put_change(alloc, &mut out, author, unchanged, *change)?;
        at = change.end;
    }
    push_bytes(&mut out, behind(bytes, at))?;
    Ok(out)
}

/// The sum, or the limit where that is less.
fn within(first: usize, more: usize, limit: usize) -> usize
    ensures { result ≡ min (first + more) limit }
{
    first.saturating_add(more).min(limit)
}

/// Where a place in the changed text stands in the text, but at most at the limit: a place in what was put
/// in stands where that was put.
pub fn place_back(
    alloc: Global,
    author: u32,
    changes: &[Change],
    place: usize,
    limit: usize,
) -> Result<usize, NoMemory>
    ensures { IfOk result (λ back. back ≡ min (place_back author 0 changes.now place) limit) }
{
    let mut at = 0usize;
    let mut left = place;
    for change in changes {
        let unchanged = change.first.saturating_sub(at);
        if left < unchanged {
            return Ok(within(at, left, limit));
        }
        left -= unchanged;
        let text = put_text(alloc, author, change.put)?;
        let inside = text.as_str().len();
        if left < inside {
            return Ok(change.first.min(limit));
        }
        left -= inside;
        at = change.end;
    }
    Ok(within(at, left, limit))
}
