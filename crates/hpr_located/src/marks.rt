//! Lines and columns, counted from one byte on to the next.
ghost use Rattle.std.specs.Prelude.{◌≡◌, ◌≤◌, length};
ghost use Rattle.hpr_located.specs.Private.Marks.{mark_at};

use hpr_places::line_and_column;

/// A byte of a text, with its line and its column.
#[derive(Clone, Copy)]
pub(crate) struct Mark {
    pub(crate) byte: usize,
    pub(crate) line: usize,
    pub(crate) column: usize,
}

/// The first byte.
pub(crate) fn first_mark(bytes: &[u8]) -> Mark
    ensures { result ≡ mark_at bytes.now 0 }
{
    Mark {
        byte: 0,
        line: 1,
        column: 1,
    }
}

/// The byte `to`. Where it doesn't stand before the mark, only the bytes between the two are passed.
pub(crate) fn mark_at(bytes: &[u8], mark: Mark, to: usize) -> Mark
    requires { mark ≡ mark_at bytes.now mark.byte }
    ensures { result ≡ mark_at bytes.now to }
{
    if mark.byte <= to && to <= bytes.len() {
        return passed(bytes, mark, to);
    }
    let (line, column) = line_and_column(bytes, to);
    Mark {
        byte: to,
        line,
        column,
    }
}

/// The byte `to`, which doesn't stand before the mark.
fn passed(bytes: &[u8], mark: Mark, to: usize) -> Mark
    requires mark { mark ≡ mark_at bytes.now mark.byte }
    requires behind { mark.byte ≤ to }
    requires within { to ≤ length bytes.now }
    ensures { result ≡ mark_at bytes.now to }
{
    let mut line = mark.line;
    let mut column = mark.column;
    for at in mark.byte..to {
        if bytes[at] == b'\n' {
            line += 1;
            column = 1;
        } else {
            column += 1;
        }
    }
    Mark {
        byte: to,
        line,
        column,
    }
}
