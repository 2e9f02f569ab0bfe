//! Calls on points, and on what is reached from one.

use crate::marks::Marks;
use hpr_paths::{Succ, successors};
use hpr_reach::{BitRow, reach};
use hpr_syntax::Program;
use hpr_terms::{Name, NoMemory};
use std::alloc::Global;

/// Makes the calls.
pub(crate) fn call(alloc: Global, marks: &mut Marks, program: &Program) -> Option<()> {
    let succ = successors(alloc, program).ok()?;
    let y = Name::new(alloc, "y").ok()?;
    marks.ready()?;
    marks.after("Succ::points", succ.points() == 8)?;
    call_point(marks, &succ, &y)?;
    let row = from_enter(alloc, &succ, &y).ok()?;
    marks.ready()?;
    marks.after("BitRow::has", row.has(1))?;
    marks.after("BitRow::points", row.points().len() == 7)
}

// The point is `1.6: y := y + 1`, in the loop.
fn call_point(marks: &mut Marks, succ: &Succ, y: &Name) -> Option<()> {
    if succ.points() <= 6 {
        return None;
    }
    marks.after("Succ::next", succ.next(6).len() == 1)?;
    marks.after("Succ::nest", succ.nest(6).len() == 1)?;
    marks.after("Succ::tag", succ.tag(6).is_some())?;
    marks.after("Succ::defines", succ.defines(6).is_some())?;
    marks.after("Succ::uses", succ.uses(6, y))
}

fn from_enter(alloc: Global, succ: &Succ, name: &Name) -> Result<BitRow, NoMemory> {
    let _points = succ.points();
    reach(alloc, succ, 0, name, 0)
}
