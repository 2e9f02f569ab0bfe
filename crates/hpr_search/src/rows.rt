//! Rows of numbers as a directed graph.
ghost use Rattle.std.specs.Prelude.{◌≡◌, ◌<◌, ℕ, length, Contains, IfOk, OnOk, OnErr};
ghost use Rattle.hpr_search.specs.Rows.{numbers_at, numbers_of, with_number, AreWithin, IsPushed};

use crate::Digraph;
use std::alloc::{AllocError, Global};
use std::marker::Model;

/// For each point the points to which an edge leads from it.
///
/// A contract sees the rows as lists.
pub struct Rows {
    rows: Vec<Vec<usize>>,
}

/// Rows are dropped in one call.
impl Drop for Rows {
    fn drop(self) {
        let Rows { rows: _ } = self;
    }
}

impl Model for Rows {
    ghost use Rattle.std.specs.Prelude.{List, ℕ};
    ghost use Rattle.hpr_search.specs.Rows.{AreWithin, numbers_of};

    ghost Value = { List (List ℕ) };

    ghost view = { λ r. numbers_of r.rows.items };

    ghost invariant = { λ r. AreWithin (numbers_of r.rows.items) };
}

impl Digraph for Rows {
    ghost use Rattle.std.specs.Prelude.{length};
    ghost use Rattle.hpr_search.specs.Rows.{numbers_at};

    ghost points = { λ rows. length rows };

    ghost steps = { λ rows. numbers_at rows };

    fn point_count(&self) -> usize {
        self.rows.len()
    }

    fn push_steps(&self, point: usize, into: &mut Vec<usize>) -> Result<(), AllocError> {
        into.extend_from_slice(&self.rows[point])
    }
}

impl Rows {
    /// So many empty rows.
    pub fn blank(alloc: Global, count: usize) -> Result<Rows, AllocError>
        ensures count { IfOk result (λ rows. length rows ≡ count) }
        ensures blank { IfOk result (λ rows. (at n : ℕ) → ¬ Contains (numbers_at rows at) n) }
    {
        let rows = blank_rows(alloc, count)?;
        Ok(Rows { rows })
    }

    /// Puts the number of a row at the end of a row. After want of memory the rows are as they were.
    pub fn push(&mut self, at: usize, number: usize) -> Result<(), AllocError>
        requires at { at < length self.old }
        requires number { number < length self.old }
        ensures count { length self.new ≡ length self.old }
        ensures pushed { OnOk result (IsPushed self.old at number self.new) }
        ensures err { OnErr result (self.new ≡ self.old) }
    {
        push_at(&mut self.rows, at, number)?;
        Ok(())
    }
}

/// So many empty rows.
fn blank_rows(alloc: Global, count: usize) -> Result<Vec<Vec<usize>>, AllocError>
    ensures count { IfOk result (λ rows. length rows.items ≡ count) }
    ensures blank { IfOk result (λ rows. (at n : ℕ) → ¬ Contains (numbers_at (numbers_of rows.items) at) n) }
{
    let mut rows = Vec::with_capacity(alloc, count)?;
    for _ in 0..count {
        rows.push(Vec::new(alloc))?;
    }
    Ok(rows)
}

/// Puts the number at the end of a row.
fn push_at(rows: &mut Vec<Vec<usize>>, at: usize, number: usize) -> Result<(), AllocError>
    requires { at < length rows.old.items }
    ensures ok { OnOk result (numbers_of rows.new.items ≡ with_number (numbers_of rows.old.items) at number) }
    ensures err { OnErr result (numbers_of rows.new.items ≡ numbers_of rows.old.items) }
{
    let row = &mut rows[at];
    row.push(number)?;
    Ok(())
}
