//! Where a byte stands in a text, as it is shown: the line around it, and a caret under it.
ghost use Rattle.std.specs.Prelude.{◌≡◌, ◌≤◌, ◌++◌, min, OnOk, length};
ghost use Rattle.std.specs.List.{prefix_len};
ghost use Rattle.hpr_places.specs.Lines.{column_at};
ghost use Rattle.hpr_kit.specs.Shown.{front, head_text, left, line_text, place_text, stays};

use crate::put::{put, put_blanks, put_shown};
use hpr_places::line_and_column;
use hpr_syntax::NoMemory;
use std::alloc::Global;

/// How many bytes of a line are shown at most on each side of a place.
pub(crate) const ROOM: usize = 80;

/// Puts three lines: `FILE:LINE:COLUMN` of a byte, the line around it, and a caret under it. Of a long line what is
/// near the place is shown. A control byte is shown as a blank, and one that is not of ASCII as `?`.
#[tactic(auto, unfolding(crate::specs::Shown::place_text))]
pub(crate) fn put_place(
    alloc: Global,
    text: &mut Vec<u8>,
    file: &str,
    bytes: &[u8],
    place: usize,
) -> Result<(), NoMemory>
    requires { place ≤ length bytes.now }
    ensures { OnOk result (text.new.items ≡ text.old.items ++ place_text file.now bytes.now place) }
{
    let (line, column) = line_and_column(bytes, place);
    put_head(alloc, text, file, line, column)?;
    put_line(text, left_of(bytes, place, column), &bytes[place..])
}

/// Puts the line that names a file, a line and a column.
#[tactic(auto, unfolding(crate::specs::Shown::head_text))]
fn put_head(
    alloc: Global,
    text: &mut Vec<u8>,
    file: &str,
    line: usize,
    column: usize,
) -> Result<(), NoMemory>
    ensures { OnOk result (text.new.items ≡ text.old.items ++ head_text file.now line column) }
{
    let head = format!(in alloc; "{file}:{line}:{column}\n")?;
    put(text, head.as_bytes())
}

/// What stands before a place in its line, at most the last `ROOM` bytes of it.
fn left_of(bytes: &[u8], place: usize, column: usize) -> &[u8]
    requires within { place ≤ length bytes.now }
    requires column { column ≡ column_at bytes.now place }
    ensures { result.now ≡ left bytes.now place }
{
    let from = place.saturating_sub(ROOM.min(column.saturating_sub(1)));
    &bytes[from..place]
}

/// Puts a line, of which these bytes stand before a place and these from it on, and a caret under the place.
#[tactic(auto, unfolding(crate::specs::Shown::line_text))]
fn put_line(text: &mut Vec<u8>, before: &[u8], behind: &[u8]) -> Result<(), NoMemory>
    ensures { OnOk result (text.new.items ≡ text.old.items ++ line_text before.now behind.now) }
{
    put_shown(text, before)?;
    put_shown(text, front_of(behind))?;
    put(text, b"\n")?;
    put_blanks(text, before.len())?;
    put(text, b"^\n")
}

/// What stands before the first newline, at most the first `ROOM` bytes of it.
fn front_of(bytes: &[u8]) -> &[u8]
    ensures { result.now ≡ front bytes.now }
{
    &bytes[..front_len(bytes)]
}

/// How many bytes stand before the first newline, at most `ROOM`.
fn front_len(bytes: &[u8]) -> usize
    ensures count { result ≡ min ROOM (prefix_len stays bytes.now) }
    ensures within { result ≤ length bytes.now }
{
    for (place, byte) in bytes.iter().enumerate() {
        if place == ROOM || *byte == b'\n' {
            return place;
        }
    }
    bytes.len()
}
