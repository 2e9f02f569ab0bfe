//! Calls that take no memory, each made between two marks, as `checks/memory` counts.
//!
//! A mark is a request for as many bytes as nothing else here asks for. A line of the output stands for each mark: the call that was made
//! since the mark before, or `made ready` where what the calls need was made.
#![tactic(auto)]

mod editing;
mod graphs;
mod marks;
mod paths;
mod reading;
mod running;
mod search;
mod sinks;
mod trees;

use crate::marks::Marks;
use hpr_build::graph_of;
use hpr_io::Sink;
use hpr_syntax::Program;
use hpr_system::StdSink;
use hpr_terms::limits::MAX_EDGES;
use hpr_text::{Mode, parse};
use std::alloc::Global;
use std::io;

const TEXT: &[u8] =
    b"program issued 1:6 1.1: x := 1; 1.2: a[x] := 2; 1.3: if x < 2 then 1.4: y := a[x] + x; fi \
    1.5: while y < 9 do 1.6: y := y + 1; od end(a[], y)";

fn parsed(alloc: Global) -> Option<Program> {
    parse(alloc, TEXT, Mode::Tagged).ok()
}

fn make_calls<S: Sink>(alloc: Global, marks: &mut Marks, stream: &mut S) -> Option<()> {
    let program = parsed(alloc)?;
    let graph = graph_of(alloc, &program, MAX_EDGES).ok()?;
    reading::call(alloc, marks)?;
    trees::call(alloc, marks, &program)?;
    running::call(alloc, marks, &program)?;
    paths::call(alloc, marks, &program)?;
    graphs::call(alloc, marks, &graph)?;
    search::call(alloc, marks, &graph)?;
    sinks::call(alloc, marks)?;
    sinks::call_stream(marks, stream)?;
    editing::call(marks, program)
}

fn main(rt: HostRuntime) -> io::Result<()> {
    let alloc = rt.alloc();
    let Some(mut marks) = Marks::new(alloc) else {
        return println!(rt; "memory ran out");
    };
    let mut stream = StdSink::new(rt.stderr());
    let are_all_made = make_calls(alloc, &mut marks, &mut stream).is_some();
    for (call, is_right) in marks.calls() {
        let answer = if *is_right { "" } else { ": another answer" };
        println!(rt; "{call}{answer}")?;
    }
    if !are_all_made {
        println!(rt; "memory ran out")?;
    }
    Ok(())
}
