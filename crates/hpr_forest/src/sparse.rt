//! A row of marks that passes over many places without a mark at once.

ghost use Rattle.std.specs.Prelude.{◌≡◌, ℕ, ◌/◌, ◌<◌, ◌≤◌, false, true, length, replicate, get_or, set, IfOk, IfSome, IfNone};

use crate::filling::blank_row;
use std::alloc::{AllocError, Global};
use std::marker::Model;

/// So many places stand in a run.
const RUN: usize = 64;

/// A row of marks in runs, each of which has a count of its marks.
///
/// A contract sees the marks.
pub struct SparseRow {
    marks: Vec<bool>,
    counts: Vec<usize>,
}

impl Model for SparseRow {
    ghost use Rattle.std.specs.Prelude.{List, Bool};
    ghost use Rattle.hpr_forest.specs.Runs.{AreRunsOf};

    ghost Value = { List Bool };

    ghost view = { λ r. r.marks.items };

    ghost invariant = { λ r. AreRunsOf r.marks.items r.counts.items };
}

// By hand, so that each way out of a function that holds a row is one call.
impl Drop for SparseRow {
    fn drop(self) {
        let SparseRow {
            marks: _,
            counts: _,
        } = self;
    }
}

impl SparseRow {
    /// So many places without a mark.
    pub fn blank(alloc: Global, size: usize) -> Result<SparseRow, AllocError>
        ensures { IfOk result (λ row. row ≡ replicate size false) }
    {
        let marks = blank_row(alloc, size)?;
        let counts = no_counts(alloc, size / RUN + 1)?;
        Ok(SparseRow { marks, counts })
    }

    /// Marks the place.
    pub fn put(&mut self, at: usize)
        requires { at < length self.old }
        ensures { self.new ≡ set self.old at true }
    {
        if self.marks[at] {
            return;
        }
        self.marks[at] = true;
        self.counts[at / RUN] += 1;
    }

    /// Takes the mark from the place, if it has one.
    pub fn clear(&mut self, at: usize)
        requires { at < length self.old }
        ensures { self.new ≡ set self.old at false }
    {
        if !self.marks[at] {
            return;
        }
        self.marks[at] = false;
        self.counts[at / RUN] -= 1;
    }

    /// The first place with a mark, from `from` on; `None` where there is none. Looks at the places of few runs: those
    /// without a mark are passed over.
    pub fn next(&self, from: usize) -> Option<usize>
        ensures marked { IfSome result (λ c. get_or self.now c false ≡ true) }
        ensures within { IfSome result (λ c. c < length self.now) }
        ensures from { IfSome result (λ c. from ≤ c) }
        ensures least { IfSome result (λ c. (d : ℕ) → from ≤ d → d < c → get_or self.now d false ≡ false) }
        ensures none { IfNone result ((d : ℕ) → from ≤ d → get_or self.now d false ≡ false) }
    {
        let mut at = from;
        'seek: while at < self.marks.len() {
            let run = at / RUN;
            if self.counts[run] == 0 {
                at = (run + 1) * RUN;
                continue;
            }
            if self.marks[at] {
                return Some(at);
            }
            at += 1;
        }
        None
    }
}

/// So many runs without a mark.
fn no_counts(alloc: Global, runs: usize) -> Result<Vec<usize>, AllocError>
    ensures { IfOk result (λ counts. counts.items ≡ replicate runs 0) }
{
    vec![in alloc; 0; runs]
}
