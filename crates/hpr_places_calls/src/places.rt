//! Calls of hpr_places on a text.
use hpr_places::{Placed, line_and_column, places};
use hpr_rows::{Out, Row, put_counted, put_tag};
use hpr_text::TextError;

/// `places TEXT`: each part and where it stands, or where the text is refused.
pub(crate) fn call(row: Row<'_>, out: &mut Out) -> Option<()> {
    let bytes = row.bytes(1)?;
    match places(row.alloc, bytes) {
        Ok(found) => put_places(out, &found),
        Err(TextError::Syntax { place }) => put_line(out, "syntax ", place),
        Err(TextError::Shape(_error)) => out.put_piece("shape\n"),
        Err(TextError::Memory) => out.cut(),
    }
    Some(())
}

fn put_line(out: &mut Out, title: &str, number: usize) {
    put_counted(out, title, number);
    out.put_piece("\n");
}

// Puts how many parts there are, and each: its tag, its first byte and how many bytes it has.
fn put_places(out: &mut Out, found: &[Placed]) {
    put_line(out, "parts ", found.len());
    for placed in found {
        put_tag(out, placed.tag);
        put_counted(out, " at ", placed.place.first);
        put_line(out, ", bytes ", placed.place.length);
    }
}

/// `line TEXT BYTE`: the line and the column of a byte.
pub(crate) fn line(row: Row<'_>, out: &mut Out) -> Option<()> {
    let (line, column) = line_and_column(row.bytes(1)?, row.number(2)?);
    put_counted(out, "line ", line);
    put_line(out, ", column ", column);
    Some(())
}
