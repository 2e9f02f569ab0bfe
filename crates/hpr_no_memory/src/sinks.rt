//! Writes to sinks.

use crate::marks::Marks;
use hpr_io::{MemorySink, Sink, SteadySink, put_all};
use std::alloc::Global;

/// Makes the calls.
pub(crate) fn call(alloc: Global, marks: &mut Marks) -> Option<()> {
    let mut sink = MemorySink::new(alloc, 3, 20, Vec::new(alloc)).ok()?;
    marks.ready()?;
    marks.after("MemorySink::put", matches!(sink.put(b"first"), Ok(3)))?;
    marks.after("put_all", put_all(&mut sink, b"and second").is_ok())?;
    marks.after(
        "put_all of too much",
        put_all(&mut sink, b"and third").is_err(),
    )?;
    marks.after("MemorySink::bytes", sink.bytes().len() == 20)?;
    let mut steady = SteadySink::new();
    marks.after("SteadySink::new", true)?;
    marks.after("SteadySink::put", matches!(steady.put(b"first"), Ok(5)))
}

/// Writes to a stream.
pub(crate) fn call_stream<S: Sink>(marks: &mut Marks, stream: &mut S) -> Option<()> {
    marks.after("StdSink::put", stream.put(b"a piece\n").is_ok())?;
    marks.after(
        "put_all to a stream",
        put_all(stream, b"another piece\n").is_ok(),
    )
}
