//! Calls of hpr_inputs.
use crate::files::add_failing;
use hpr_inputs::{Stop, read_programs};
use hpr_io::MemoryShelf;
use hpr_rows::{Out, Row, put, put_program};
use hpr_syntax::Program;
use std::alloc::Global;

// A file with the name and the bytes of a text.
fn file(alloc: Global, name: &str, bytes: &[u8]) -> Option<(String, Vec<u8>)> {
    let name = String::from_str(alloc, name).ok()?;
    let bytes = Vec::from_slice(alloc, bytes).ok()?;
    Some((name, bytes))
}

// A shelf of the texts of the row, where the fetches of the numbers at 1 fail.
fn shelf(row: Row<'_>) -> Option<MemoryShelf> {
    let mut files = Vec::new(row.alloc);
    for text in row.texts {
        files
            .push(file(row.alloc, text.name.as_str(), text.bytes.as_slice())?)
            .ok()?;
    }
    let mut failing = Vec::new(row.alloc);
    add_failing(&mut failing, row.word(1)?)?;
    Some(MemoryShelf::new(files, failing))
}

fn names<'a>(alloc: Global, words: &'a [String]) -> Option<Vec<&'a str>> {
    let mut names = Vec::new(alloc);
    for word in words {
        names.push(word.as_str()).ok()?;
    }
    Some(names)
}

fn put_programs(alloc: Global, out: &mut Out, programs: &[Program]) {
    for program in programs {
        put_program(alloc, out, program);
    }
}

fn put_stop(out: &mut Out, stop: &Stop) {
    match stop {
        Stop::Refused(message) => put(out, &["refused: ", message.as_str()]),
        Stop::ReadFault(message) => put(out, &["failed: ", message.as_str()]),
        Stop::Memory => out.cut(),
    }
}

/// `FAILING NAME..`: the programs that the texts of these names spell, read as files, where the fetches
/// of the numbers FAILING fail.
pub(crate) fn call(row: Row<'_>, out: &mut Out) -> Option<()> {
    let names = names(row.alloc, row.rest(2))?;
    let mut shelf = shelf(row)?;
    match read_programs(row.alloc, &names, &mut shelf) {
        Ok(programs) => put_programs(row.alloc, out, &programs),
        Err(stop) => put_stop(out, &stop),
    }
    Some(())
}
