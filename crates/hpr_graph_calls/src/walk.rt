//! Calls of the walk of hpr_forest.
ghost use Rattle.std.specs.Prelude.{◌≡◌, ℕ, ◌<◌, true, false, cond, eqb, ltb, length, replicate, vec_len, IfOk};
ghost use Rattle.hpr_forest.specs.Marks.{is_in, IsMarksOf};

use hpr_forest::{Choices, first_order, next_order};
use hpr_rows::{Out, Row, put_numbers};
use std::alloc::{AllocError, Global};

/// The orders of 0, 1 and 2 in which 0 comes before 2; or none, where no number may stand anywhere.
#[derive(Drop)]
struct Example {
    blocked: bool,
}

/// Whether the number may stand behind the placed ones.
fn stands(blocked: bool, marks: &[bool], placed: &[usize], number: usize) -> bool
    requires number { number < 3 }
    requires row { length marks.now ≡ 3 }
    requires marks { IsMarksOf marks.now placed.now }
    ensures { result ≡ cond blocked false (cond (ltb number 3)
        (cond (is_in placed.now number) false (cond (eqb number 2) (is_in placed.now 0) true)) false) }
{
    if blocked || marks[number] {
        return false;
    }
    number != 2 || marks[0]
}

impl Choices for Example {
    ghost size = { λ _. 3 };

    ghost can = { λ e q c. cond e.blocked false
        (cond (ltb c 3) (cond (is_in q c) false (cond (eqb c 2) (is_in q 0) true)) false) };

    fn size(&self) -> usize {
        3
    }

    fn next_child(&self, marks: &[bool], placed: &[usize], from: usize) -> Option<usize> {
        for number in from..3 {
            if stands(self.blocked, marks, placed, number) {
                return Some(number);
            }
        }
        None
    }
}

/// A row with no marks.
fn blank_row(alloc: Global) -> Result<Vec<bool>, AllocError>
    ensures blank { IfOk result (λ row. row.items ≡ replicate 3 false) }
    ensures len { IfOk result (λ row. vec_len row ≡ 3) }
{
    vec![in alloc; false; 3]
}

// Puts the lists, one after the other.
fn put_lists(alloc: Global, out: &mut Out, blocked: bool) -> Result<(), AllocError> {
    let example = Example { blocked };
    let mut marks = blank_row(alloc)?;
    let mut placed = Vec::with_capacity(alloc, 3)?;
    if !first_order(&example, &mut marks, &mut placed) {
        return Ok(());
    }
    put_numbers(out, "list", &placed);
    if !next_order(&example, &mut marks, &mut placed) {
        return Ok(());
    }
    put_numbers(out, "list", &placed);
    if !next_order(&example, &mut marks, &mut placed) {
        return Ok(());
    }
    put_numbers(out, "list", &placed);
    if !next_order(&example, &mut marks, &mut placed) {
        return Ok(());
    }
    put_numbers(out, "list", &placed);
    Ok(())
}

/// `open` or `blocked`: the first four lists.
pub(crate) fn call(row: Row<'_>, out: &mut Out) -> Option<()> {
    let blocked = row.word(1)? == "blocked";
    put_lists(row.alloc, out, blocked).ok()?;
    out.put_piece("that is all\n");
    Some(())
}
