//! One call, and what it comes to.
use crate::case::{Case, Over, Plan};
use crate::last_count::{LastCountSink, call_at_last_count};
use crate::noting::NotingShelf;
use crate::text::words;
use hpr_app::{Status, hpr};
use hpr_io::{MemoryShelf, MemorySink, SteadyShelf, SteadySink};
use hpr_rows::{Out, put, put_count};
use std::alloc::Global;

fn sink(alloc: Global, plan: &Plan) -> Option<MemorySink> {
    let failing = Vec::from_slice(alloc, plan.failing.as_slice()).ok()?;
    MemorySink::new(alloc, plan.step.max(1), plan.room, failing).ok()
}

// Puts the bytes of a text, under their count, and with a newline behind them where they end with none.
fn put_part(told: &mut Out, title: &str, bytes: &[u8]) -> Option<()> {
    if bytes.is_empty() {
        return Some(());
    }
    let text = std::str::from_utf8(bytes).ok()?;
    put_count(told, title, bytes.len() as u64);
    let end = if text.ends_with('\n') { "" } else { "\n" };
    put(told, &[text, end]);
    Some(())
}

fn put_told(told: &mut Out, status: &Status, out: &[u8], err: &[u8]) -> Option<()> {
    put_count(told, "status ", u64::from(status.number()));
    put_part(told, "out ", out)?;
    put_part(told, "err ", err)
}

// Makes the call over a shelf that may fail, and the sinks of the case.
fn over_memory(
    alloc: Global,
    case: &Case,
    shelf: &mut MemoryShelf,
    words: &[String],
    told: &mut Out,
) -> Option<()> {
    let mut out = sink(alloc, &case.out)?;
    let mut err = sink(alloc, &case.err)?;
    let status = hpr(alloc, words, shelf, &mut out, &mut err);
    put_told(told, &status, out.bytes(), err.bytes())
}

// Makes the call over a shelf that may fail and notes each fetch, which are told first, and the sinks of the case.
fn over_noting_shelf(
    alloc: Global,
    case: &Case,
    shelf: &mut NotingShelf,
    words: &[String],
    told: &mut Out,
) -> Option<()> {
    let mut out = sink(alloc, &case.out)?;
    let mut err = sink(alloc, &case.err)?;
    let status = hpr(alloc, words, shelf, &mut out, &mut err);
    put(told, &[shelf.notes.as_str()]);
    put_told(told, &status, out.bytes(), err.bytes())
}

// Makes the call over a shelf that may fail, and the sinks of the case, of which `err` can't count one failure more.
fn over_last_count(
    alloc: Global,
    case: &Case,
    shelf: &mut MemoryShelf,
    words: &[String],
    told: &mut Out,
) -> Option<()> {
    let mut out = sink(alloc, &case.out)?;
    let mut err = LastCountSink::new(sink(alloc, &case.err)?);
    let status = call_at_last_count(alloc, words, shelf, &mut out, &mut err);
    put_told(told, &status, out.bytes(), err.bytes())
}

// Makes the call over a shelf that never fails, and the sinks of the case.
fn over_steady_shelf(
    alloc: Global,
    case: &Case,
    shelf: &mut SteadyShelf,
    words: &[String],
    told: &mut Out,
) -> Option<()> {
    let mut out = sink(alloc, &case.out)?;
    let mut err = sink(alloc, &case.err)?;
    let status = hpr(alloc, words, shelf, &mut out, &mut err);
    put_told(told, &status, out.bytes(), err.bytes())
}

// Makes the call over a shelf and sinks that never fail.
fn over_steady_sinks(
    alloc: Global,
    shelf: &mut SteadyShelf,
    words: &[String],
    told: &mut Out,
) -> Option<()> {
    let status = hpr(
        alloc,
        words,
        shelf,
        &mut SteadySink::new(),
        &mut SteadySink::new(),
    );
    put_told(told, &status, b"", b"")
}

// A file with its name, once more.
fn copy_of(alloc: Global, name: &str, bytes: &[u8]) -> Option<(String, Vec<u8>)> {
    let name = String::from_str(alloc, name).ok()?;
    let bytes = Vec::from_slice(alloc, bytes).ok()?;
    Some((name, bytes))
}

// The files of the case, once more.
fn files_of(alloc: Global, case: &Case) -> Option<Vec<(String, Vec<u8>)>> {
    let mut files = Vec::new(alloc);
    for (name, bytes) in &case.files {
        files.push(copy_of(alloc, name, bytes.as_slice())?).ok()?;
    }
    Some(files)
}

// The shelf of the case.
fn memory_shelf(alloc: Global, case: &Case) -> Option<MemoryShelf> {
    let files = files_of(alloc, case)?;
    let failing = Vec::from_slice(alloc, case.failing.as_slice()).ok()?;
    Some(MemoryShelf::new(files, failing))
}

// Makes the call over the files of the case.
fn call(alloc: Global, case: &Case, words: &[String], told: &mut Out) -> Option<()> {
    match case.over {
        Over::Memory => over_memory(alloc, case, &mut memory_shelf(alloc, case)?, words, told),
        Over::NotingShelf => {
            let mut shelf = NotingShelf::new(alloc, memory_shelf(alloc, case)?);
            over_noting_shelf(alloc, case, &mut shelf, words, told)
        }
        Over::LastCount => {
            over_last_count(alloc, case, &mut memory_shelf(alloc, case)?, words, told)
        }
        Over::SteadyShelf => {
            let mut shelf = SteadyShelf::new(files_of(alloc, case)?);
            over_steady_shelf(alloc, case, &mut shelf, words, told)
        }
        Over::SteadySinks => {
            let mut shelf = SteadyShelf::new(files_of(alloc, case)?);
            over_steady_sinks(alloc, &mut shelf, words, told)
        }
    }
}

/// Tells what the call with the words of a line comes to.
pub(crate) fn tell(alloc: Global, case: &Case, line: &str, told: &mut Out) -> Option<()> {
    let words = words(alloc, line)?;
    call(alloc, case, words.as_slice(), told)
}
