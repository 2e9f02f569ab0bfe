//! Calls of hpr_tagging on a text.
use hpr_refusals::Refusal;
use hpr_rows::{Out, Row, put_bytes, put_counted, put_message, put_program};
use hpr_tagging::{Tagged, TaggingError, tag_parts};

fn put_refusal(row: Row<'_>, out: &mut Out, error: TaggingError) {
    match error {
        TaggingError::Syntax { place } => {
            put_message(out, Refusal::Syntax { place }.message(row.alloc, "text"));
        }
        TaggingError::Shape(error) => {
            put_message(out, Refusal::Shape(error).message(row.alloc, "text"));
        }
        TaggingError::SerialsSpent => out.put_piece("serials are spent\n"),
        TaggingError::Memory => out.cut(),
    }
}

fn put_kept(out: &mut Out, tagged: &Tagged) {
    put_bytes(out, &tagged.text);
    out.put_piece("\n");
}

/// `tag TEXT AUTHOR`: the text with tags and a newline, or why it gets none.
pub(crate) fn tag(row: Row<'_>, out: &mut Out) -> Option<()> {
    match tag_parts(row.alloc, row.bytes(1)?, row.author(2)?) {
        Ok(tagged) => put_kept(out, &tagged),
        Err(error) => put_refusal(row, out, error),
    }
    Some(())
}

/// `program TEXT AUTHOR`: the canonical text of its program.
pub(crate) fn program(row: Row<'_>, out: &mut Out) -> Option<()> {
    match tag_parts(row.alloc, row.bytes(1)?, row.author(2)?) {
        Ok(tagged) => put_program(row.alloc, out, &tagged.program),
        Err(error) => put_refusal(row, out, error),
    }
    Some(())
}

/// `parts TEXT AUTHOR`: how many parts its program has, and how many bytes the text with tags has.
pub(crate) fn parts(row: Row<'_>, out: &mut Out) -> Option<()> {
    match tag_parts(row.alloc, row.bytes(1)?, row.author(2)?) {
        Ok(tagged) => put_sizes(out, &tagged),
        Err(error) => put_refusal(row, out, error),
    }
    Some(())
}

fn put_sizes(out: &mut Out, tagged: &Tagged) {
    put_counted(out, "parts ", tagged.program.part_count());
    put_counted(out, ", bytes ", tagged.text.len());
    out.put_piece("\n");
}
