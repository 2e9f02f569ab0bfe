//! One call, and what it comes to.
use crate::store::MemoryStore;
use hpr_io::{MemoryShelf, MemorySink};
use hpr_kit::kit;
use hpr_rows::{Out, Row, Text, put, put_bytes, put_count};
use std::alloc::Global;

// The room of a sink that isn't to run out of it.
const ROOM: usize = 65536;

/// `hprkit WORDS..`: a call in which nothing fails.
pub(crate) fn plain(row: Row<'_>, told: &mut Out) -> Option<()> {
    let mut shelf = shelf_of(row, Vec::new(row.alloc))?;
    tell(row.alloc, row.rest(1), &mut shelf, told, (ROOM, ROOM))
}

/// `unread WORDS..`: a call in which the first fetch fails.
pub(crate) fn unread(row: Row<'_>, told: &mut Out) -> Option<()> {
    let mut failing = Vec::new(row.alloc);
    failing.push(0).ok()?;
    let mut shelf = shelf_of(row, failing)?;
    tell(row.alloc, row.rest(1), &mut shelf, told, (ROOM, ROOM))
}

/// `unwritten WORDS..`: a call in which no file gets other bytes.
pub(crate) fn unwritten(row: Row<'_>, told: &mut Out) -> Option<()> {
    let mut shelf = shelf_of(row, Vec::new(row.alloc))?;
    let mut store = MemoryStore::new(row.alloc, true);
    tell_over(
        row.alloc,
        row.rest(1),
        &mut shelf,
        &mut store,
        told,
        (ROOM, ROOM),
    )
}

/// `out ROOM WORDS..`: a call whose `out` has room for so many bytes.
pub(crate) fn cut_out(row: Row<'_>, told: &mut Out) -> Option<()> {
    let mut shelf = shelf_of(row, Vec::new(row.alloc))?;
    let room = row.number(1)?;
    tell(row.alloc, row.rest(2), &mut shelf, told, (room, ROOM))
}

/// `err ROOM WORDS..`: a call whose `err` has room for so many bytes.
pub(crate) fn cut_err(row: Row<'_>, told: &mut Out) -> Option<()> {
    let mut shelf = shelf_of(row, Vec::new(row.alloc))?;
    let room = row.number(1)?;
    tell(row.alloc, row.rest(2), &mut shelf, told, (ROOM, room))
}

// A file, once more.
fn file_of(alloc: Global, text: &Text) -> Option<(String, Vec<u8>)> {
    let name = String::from_str(alloc, text.name.as_str()).ok()?;
    let bytes = Vec::from_slice(alloc, text.bytes.as_slice()).ok()?;
    Some((name, bytes))
}

// The texts of a row as files.
fn shelf_of(row: Row<'_>, failing: Vec<u64>) -> Option<MemoryShelf> {
    let mut files = Vec::new(row.alloc);
    for text in row.texts {
        files.push(file_of(row.alloc, text)?).ok()?;
    }
    Some(MemoryShelf::new(files, failing))
}

fn sink(alloc: Global, room: usize) -> Option<MemorySink> {
    MemorySink::new(alloc, 64, room, Vec::new(alloc)).ok()
}

// Makes the call over sinks of so much room, and tells what it comes to.
fn tell(
    alloc: Global,
    words: &[String],
    shelf: &mut MemoryShelf,
    told: &mut Out,
    room: (usize, usize),
) -> Option<()> {
    let mut store = MemoryStore::new(alloc, false);
    tell_over(alloc, words, shelf, &mut store, told, room)
}

// The same over a store, of which it tells what files got too.
fn tell_over(
    alloc: Global,
    words: &[String],
    shelf: &mut MemoryShelf,
    store: &mut MemoryStore,
    told: &mut Out,
    room: (usize, usize),
) -> Option<()> {
    let mut out = sink(alloc, room.0)?;
    let mut err = sink(alloc, room.1)?;
    let status = kit(alloc, words, shelf, store, &mut out, &mut err);
    put_count(told, "status ", u64::from(status.number()));
    put_part(told, "out ", out.bytes());
    put_part(told, "err ", err.bytes());
    for renewal in store.renewals() {
        put(told, &["file "]);
        put_bytes(told, renewal.file.as_bytes());
        put(told, &["\n"]);
        put_part(told, "had ", renewal.had.as_slice());
        put_part(told, "bytes ", renewal.bytes.as_slice());
    }
    Some(())
}

// Puts the bytes of a text, under their count, and with a newline behind them where they end with none.
fn put_part(told: &mut Out, title: &str, bytes: &[u8]) {
    if bytes.is_empty() {
        return;
    }
    put_count(told, title, bytes.len() as u64);
    put_bytes(told, bytes);
    if bytes.last() != Some(&b'\n') {
        put(told, &["\n"]);
    }
}
