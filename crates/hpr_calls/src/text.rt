//! Calls of hpr_text and hpr_print, with the refusals of hpr_refusals.
use hpr_print::text_of;
use hpr_refusals::Refusal;
use hpr_rows::{Out, Row, put_content, put_count, put_counted, put_made, put_message, put_program};
use hpr_syntax::{Content, Program};
use hpr_text::{Mode, TextError, parse, read_content};
use std::alloc::Global;

/// Answers the call.
pub(crate) fn call(row: Row<'_>, out: &mut Out) -> Option<()> {
    match row.word(1)? {
        "print" => print(row, out),
        "sizes" => sizes(row, out),
        "fronts" => fronts(row, out),
        "content" => content(row, out),
        _ => long(row, out),
    }
}

// `long FILE`: the message on a file that is too long.
fn long(row: Row<'_>, out: &mut Out) -> Option<()> {
    let name = row.word(2)?;
    put_message(out, Refusal::Longer.message(row.alloc, name));
    Some(())
}

// The program of the text at 3 in the form at 2: `tagged`, or the author of the parts.
fn read(row: Row<'_>, bytes: &[u8]) -> Result<Program, TextError> {
    match row.author(2) {
        Some(author) if author > 0 => parse(row.alloc, bytes, Mode::Untagged(author)),
        _ => parse(row.alloc, bytes, Mode::Tagged),
    }
}

fn refusal(error: TextError) -> Option<Refusal> {
    match error {
        TextError::Syntax { place } => Some(Refusal::Syntax { place }),
        TextError::Shape(error) => Some(Refusal::Shape(error)),
        TextError::Memory => None,
    }
}

fn put_refusal(alloc: Global, out: &mut Out, name: &str, error: TextError) {
    match refusal(error) {
        Some(refusal) => put_message(out, refusal.message(alloc, name)),
        None => out.cut(),
    }
}

// `print FORM TEXT`: the canonical text.
fn print(row: Row<'_>, out: &mut Out) -> Option<()> {
    let name = row.word(3)?;
    let bytes = row.bytes(3)?;
    match read(row, bytes) {
        Ok(program) => put_program(row.alloc, out, &program),
        Err(error) => put_refusal(row.alloc, out, name, error),
    }
    Some(())
}

fn put_sizes(out: &mut Out, program: &Program) {
    put_counted(out, "authors ", program.issued().rows().len());
    put_counted(out, ", parts ", program.part_count());
    put_count(out, ", finals ", program.finals().len() as u64);
}

// `sizes FORM TEXT`: how many authors, parts and final names there are.
fn sizes(row: Row<'_>, out: &mut Out) -> Option<()> {
    let name = row.word(3)?;
    let bytes = row.bytes(3)?;
    match read(row, bytes) {
        Ok(program) => put_sizes(out, &program),
        Err(error) => put_refusal(row.alloc, out, name, error),
    }
    Some(())
}

fn put_front(alloc: Global, out: &mut Out, front: &[u8]) {
    match parse(alloc, front, Mode::Tagged) {
        Ok(_) => out.put_piece(" read"),
        Err(TextError::Syntax { place }) => put_counted(out, " ", place),
        Err(_) => out.cut(),
    }
}

// `fronts TEXT`: the place of the refusal of each front of the text.
fn fronts(row: Row<'_>, out: &mut Out) -> Option<()> {
    let bytes = row.bytes(2)?;
    out.put_piece("places");
    for length in 0..=bytes.len() {
        put_front(row.alloc, out, bytes.get(..length)?);
    }
    out.put_piece("\n");
    Some(())
}

fn put_read(alloc: Global, out: &mut Out, content: &Content, at: usize) {
    put_content(alloc, out, content);
    put_count(out, ", its end at ", at as u64);
}

// `content START TEXT`: the content from there on, and the place of its `;`.
fn content(row: Row<'_>, out: &mut Out) -> Option<()> {
    let start = row.number(2)?;
    let name = row.word(3)?;
    let bytes = row.bytes(3)?;
    if bytes.len() < start {
        return None;
    }
    match read_content(row.alloc, bytes, start) {
        Ok((content, at)) => put_read(row.alloc, out, &content, at),
        Err(error) => put_refusal(row.alloc, out, name, error),
    }
    Some(())
}
