//! Calls on states and arrays.

use crate::marks::Marks;
use hpr_arrays::Cells;
use hpr_run::{State, eval};
use hpr_syntax::{Program, expr_of};
use hpr_terms::{Name, Tag};
use std::alloc::Global;

/// Makes the calls. The expression is `y + 1`.
pub(crate) fn call(alloc: Global, marks: &mut Marks, program: &Program) -> Option<()> {
    let y = Name::new(alloc, "y").ok()?;
    let mut state = State::new(alloc);
    state.set(y.copy(alloc).ok()?, 7).ok()?;
    let last = Tag {
        author: 1,
        serial: 6,
    };
    let part = program.find(last)?;
    marks.ready()?;
    marks.after("State::get", state.get(&y) == 7)?;
    marks.after("State::listed", state.listed(&y).is_some())?;
    marks.after("State::lists", state.lists(&y))?;
    marks.after("State::count", state.count(&y) == 0)?;
    marks.after("eval", matches!(eval(expr_of(part), &state), Ok(8)))?;
    call_cells(alloc, marks)
}

fn call_cells(alloc: Global, marks: &mut Marks) -> Option<()> {
    let mut cells = Cells::new(alloc);
    marks.after("Cells::new", cells.count() == 0)?;
    cells.set(300, 5).ok()?;
    marks.ready()?;
    marks.after("Cells::get", cells.get(300) == 5)?;
    marks.after(
        "Cells::get of a page that isn't there",
        cells.get(65_535) == 0,
    )?;
    marks.after("Cells::count", cells.count() == 1)
}
