//! A text with a mark at the front of some of its lines.
ghost use Rattle.std.specs.Prelude.{◌≡◌, ◌↔◌, ◌⊎◌, ◌++◌, ℕ, IfOk, OnOk};
ghost use Rattle.hpr_search.specs.Marks.{IsMarked};
ghost use Rattle.hpr_impact.specs.Lines.{AreMarkedLines, line_mark};

use hpr_graph::NoMemory;
use hpr_search::is_marked;
use std::alloc::Global;

/// The text with `> ` at the front of each line whose number, from 1, is marked, and two blanks at the front of each
/// other line; so what stands in a line stays below what stood above it. A line ends with its newline, and the last
/// one may have none. It fails only for want of memory, and takes one pass over the bytes.
pub fn marked_text(alloc: Global, bytes: &[u8], marks: &[bool]) -> Result<Vec<u8>, NoMemory>
    ensures { IfOk result (λ text. AreMarkedLines (IsMarked marks.now) 1 bytes.now text.items) }
{
    let mut text = Vec::with_capacity(alloc, bytes.len())?;
    let mut line = 1;
    let mut begins = true;
    for byte in bytes {
        if begins {
            put_mark(&mut text, is_marked(marks, line))?;
        }
        text.push(*byte)?;
        begins = *byte == b'\n';
        if begins {
            line += 1;
        }
    }
    Ok(text)
}

/// Puts the mark of a line behind a text.
fn put_mark(text: &mut Vec<u8>, marked: bool) -> Result<(), NoMemory>
    ensures { OnOk result (text.new.items ≡ text.old.items ++ line_mark marked) }
{
    let mark = if marked { b"> " } else { b"  " };
    text.extend_from_slice(mark)?;
    Ok(())
}

/// Marks the line, of which the row may have no mark yet.
pub(crate) fn mark_line(marks: &mut Vec<bool>, line: usize) -> Result<(), NoMemory>
    ensures { OnOk result ((n : ℕ) → IsMarked marks.new.items n ↔ (IsMarked marks.old.items n ⊎ (n ≡ line))) }
{
    while marks.len() <= line {
        marks.push(false)?;
    }
    marks[line] = true;
    Ok(())
}
