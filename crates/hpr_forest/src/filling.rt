//! Whether a forest has an order at all.

ghost use Rattle.std.specs.Prelude.{◌≡◌, ℕ, ◌<◌, ◌≤◌, List, [], replicate, false, true, length, vec_len, vec_capacity, IfOk, IfSome, IfNone, IsTrue, IsFalse};
ghost use Rattle.hpr_forest.specs.Choices.{Follows, IsWhole};
ghost use Rattle.hpr_forest.specs.Marks.{IsMarksOf};
ghost use Rattle.hpr_forest.specs.Remaining.{can_of};
ghost use Rattle.hpr_forest.specs.Pending.{IsPending};

use crate::{Blocks, Pending};
use std::alloc::{AllocError, Global};

/// Whether there is an order of all items of the forest.
///
/// Places what may be placed until nothing may: where there is an order no front is a dead end, so any item that may
/// come next serves. Takes memory for one order, and for counts of what stands in the tables.
pub fn has_order(alloc: Global, blocks: &Blocks) -> Result<bool, AllocError>
    ensures some { IfOk result (λ yes_. IsTrue yes_
        → (l : List ℕ) × IsWhole (can_of blocks.now) (vec_len blocks.now.parents) l) }
    ensures none { IfOk result (λ yes_. yes_ ≡ false
        → (l : List ℕ) → ¬ IsWhole (can_of blocks.now) (vec_len blocks.now.parents) l) }
{
    let size = blocks.parents.len();
    let mut placed = Vec::with_capacity(alloc, size)?;
    let mut marks = blank_row(alloc, size)?;
    let mut pending = Pending::start(alloc, blocks)?;
    Ok(fill(blocks, &mut pending, &mut marks, &mut placed))
}

/// A row with no marks.
pub(crate) fn blank_row(alloc: Global, items: usize) -> Result<Vec<bool>, AllocError>
    ensures blank { IfOk result (λ row. row.items ≡ replicate items false) }
    ensures len { IfOk result (λ row. vec_len row ≡ items) }
{
    vec![in alloc; false; items]
}

/// Places what may be placed until nothing may; false where some items are left. Takes no memory: `placed` has room
/// for all items.
fn fill(
    blocks: &Blocks,
    pending: &mut Pending,
    marks: &mut Vec<bool>,
    placed: &mut Vec<usize>,
) -> bool
    requires row { vec_len marks.old ≡ vec_len blocks.now.parents }
    requires marks { IsMarksOf marks.old.items placed.old.items }
    requires pending { IsPending blocks.now placed.old.items pending.old }
    requires front { Follows (can_of blocks.now) [] placed.old.items }
    requires len { vec_len placed.old ≤ vec_len blocks.now.parents }
    requires room { vec_len blocks.now.parents ≤ vec_capacity placed.old }
    ensures whole { IsTrue result → IsWhole (can_of blocks.now) (vec_len blocks.now.parents) placed.new.items }
    ensures none { IsFalse result → (l : List ℕ)
        → ¬ IsWhole (can_of blocks.now) (vec_len blocks.now.parents) l }
{
    'fill: while placed.len() < blocks.parents.len() {
        let Some(item) = blocks.next_ready(pending, marks, placed, 0) else {
            return false;
        };
        pending.place(blocks, placed, item);
        placed.push_reserved(item);
        marks[item] = true;
    }
    true
}
