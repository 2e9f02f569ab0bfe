//! The orders of a forest, one by one.

ghost use Rattle.std.specs.Prelude.{◌≡◌, ℕ, List, vec_len, [], ◌∷◌, IfOk, IfSome, IfNone, OnErr};
ghost use Rattle.hpr_forest.specs.Choices.{IsWhole};
ghost use Rattle.hpr_forest.specs.Lists.{LexLess, IsListOf};
ghost use Rattle.hpr_forest.specs.Remaining.{can_of};

use crate::filling::blank_row;
use crate::{Blocks, Choices, first_order, next_order};
use std::alloc::{AllocError, Global};
use std::marker::Model;

/// The orders of a forest that are still to come, in lexicographic order.
///
/// Keeps the next order alone, and so takes no more memory however many there are.
pub struct Orders {
    blocks: Blocks,
    placed: Vec<usize>,
    marks: Vec<bool>,
    more: bool,
    alloc: Global,
}

// By hand, so that each way out of a function that holds orders is one call.
impl Drop for Orders {
    fn drop(self) {
        let Orders {
            blocks: _,
            placed: _,
            marks: _,
            more: _,
            alloc: _,
        } = self;
    }
}

impl Model for Orders {
    ghost use Rattle.hpr_forest.specs.Remaining.{remaining, IsState};
    ghost use Rattle.std.specs.Prelude.{List, ℕ};

    ghost Value = { List (List ℕ) };

    ghost view = { λ o. remaining o.blocks o.placed.items o.more };

    ghost invariant = { λ o. IsState o.blocks o.placed o.marks o.more };
}

impl Orders {
    /// Begins with all orders of the forest; none where what must come before its siblings goes round in a circle.
    ///
    /// An order has each item once. It is that of a walk down the forest: what stands under an item comes after it, and before what stands
    /// elsewhere; siblings come after those that must come before them. The orders are in lexicographic order.
    /// An error is want of memory.
    pub fn start(alloc: Global, blocks: Blocks) -> Result<Orders, AllocError>
        ensures all { IfOk result (λ o. IsListOf LexLess (IsWhole (can_of blocks) (vec_len blocks.parents)) o) }
    {
        let mut placed = Vec::with_capacity(alloc, blocks.parents.len())?;
        let mut marks = blank_row(alloc, blocks.parents.len())?;
        let more = first_order(&blocks, &mut marks, &mut placed);
        Ok(Orders {
            blocks,
            placed,
            marks,
            more,
            alloc,
        })
    }

    /// Takes the next order; `None` after the last one. An error is want of memory, and leaves the orders as they were.
    pub fn next_one(&mut self) -> Result<Option<Vec<usize>>, AllocError>
        ensures some { IfOk result (λ o. IfSome o (λ order. self.old ≡ order.items ∷ self.new)) }
        ensures none { IfOk result (λ o. IfNone o ((self.old ≡ []) × (self.new ≡ []))) }
        ensures err { OnErr result (self.new ≡ self.old) }
    {
        if !self.more {
            return Ok(None);
        }
        let mut order = Vec::with_capacity(self.alloc, self.placed.len())?;
        order.extend_from_slice(&self.placed)?;
        self.more = next_order(&self.blocks, &mut self.marks, &mut self.placed);
        Ok(Some(order))
    }
}
