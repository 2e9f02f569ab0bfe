//! Files with a program, under the names of their texts.
use hpr_located::{Located, Source, locate};
use hpr_rows::Row;

/// The parts, with their places, of the program that the text spells whose name stands at this place.
pub(crate) fn places(row: Row<'_>, at: usize) -> Option<Vec<Located>> {
    locate(row.alloc, row.bytes(at)?).ok()
}

/// The file of the text whose name stands at this place.
pub(crate) fn source(row: Row<'_>, at: usize) -> Option<Source> {
    source_with(row, at, &places(row, at)?)
}

/// The same file, with these places.
pub(crate) fn source_with(row: Row<'_>, at: usize, located: &[Located]) -> Option<Source> {
    let program = row.program(at)?;
    Source::new(row.alloc, row.word(at)?, &program, located).ok()
}

/// The files of the texts whose names stand from this place on.
pub(crate) fn sources(row: Row<'_>, from: usize) -> Option<Vec<Source>> {
    let mut sources = Vec::new(row.alloc);
    for at in from..row.words.len() {
        sources.push(source(row, at)?).ok()?;
    }
    Some(sources)
}
