//! Calls of the sinks of hpr_io.
use hpr_io::{MemorySink, PutError, Sink, put_all};
use hpr_rows::{Out, Row, put, put_bytes, put_counted};

/// Answers the call: `put STEP ROOM FAILING PIECE..` says what each put answers, and what the sink took;
/// `put-all` says the same, where all of each piece is put.
pub(crate) fn call(row: Row<'_>, out: &mut Out) -> Option<()> {
    let whole = row.word(1)? == "put-all";
    let mut sink = sink(row)?;
    put_answers(row, out, &mut sink, whole);
    put_taken(out, sink.bytes());
    Some(())
}

fn push_number(numbers: &mut Vec<u64>, word: &str) -> Option<()> {
    numbers.push(word.parse().ok()?).ok()
}

// Adds the numbers of the calls that fail: `-`, or numbers with commas between them.
pub(crate) fn add_failing(failing: &mut Vec<u64>, word: &str) -> Option<()> {
    if word == "-" {
        return Some(());
    }
    for number in word.split(',') {
        push_number(failing, number)?;
    }
    Some(())
}

// The sink of `STEP ROOM FAILING`.
fn sink(row: Row<'_>) -> Option<MemorySink> {
    let step = row.number(2)?;
    let room = row.number(3)?;
    if step == 0 {
        return None;
    }
    let mut failing = Vec::new(row.alloc);
    add_failing(&mut failing, row.word(4)?)?;
    MemorySink::new(row.alloc, step, room, failing).ok()
}

fn put_answers(row: Row<'_>, out: &mut Out, sink: &mut MemorySink, whole: bool) {
    out.put_piece("puts");
    for word in row.rest(5) {
        if whole {
            put_whole(out, put_all(sink, piece(word.as_str())));
        } else {
            put_part(out, sink.put(piece(word.as_str())));
        }
    }
}

// A piece: `.` is the empty one.
fn piece(word: &str) -> &[u8] {
    if word == "." {
        return b"";
    }
    word.as_bytes()
}

fn put_part(out: &mut Out, answer: Result<usize, PutError>) {
    match answer {
        Ok(taken) => put_counted(out, " ", taken),
        Err(PutError::Failed) => out.put_piece(" failed"),
    }
}

fn put_whole(out: &mut Out, answer: Result<(), PutError>) {
    match answer {
        Ok(()) => out.put_piece(" all"),
        Err(PutError::Failed) => out.put_piece(" failed"),
    }
}

fn put_taken(out: &mut Out, bytes: &[u8]) {
    out.put_piece(": ");
    put_bytes(out, bytes);
    out.put_piece("\n");
}
