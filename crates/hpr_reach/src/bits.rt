//! The points that a search marked, one bit each.
ghost use Rattle.std.specs.Prelude.{◌≡◌, ◌↔◌, ℕ, Some, Contains, IsTrue, slice_get};
ghost use Rattle.hpr_search.specs.Marks.{IsMarked, IsRowOf};

use hpr_search::{Found, is_marked};
use std::marker::Model;

/// A row with a bit for each point of a program: the points that are marked. It has them as a list too.
///
/// A contract sees it as the list of its bits.
#[derive(Drop)]
pub struct BitRow {
    found: Found,
}

impl Model for BitRow {
    ghost use Rattle.std.specs.Prelude.{List, Bool};
    ghost use Rattle.hpr_search.specs.Marks.{IsRowOf};

    ghost Value = { List Bool };

    ghost view = { λ r. r.found.marks.items };

    ghost invariant = { λ r. IsRowOf r.found.marks.items r.found.points.items };
}

impl BitRow {
    pub(crate) fn new(found: Found) -> BitRow
        requires { IsRowOf found.marks.items found.points.items }
        ensures { result ≡ found.marks.items }
    {
        BitRow { found }
    }

    /// Whether the point is marked. A number that is no point of the program is not.
    pub fn has(&self, point: usize) -> bool
        ensures { IsTrue result ↔ IsMarked self.now point }
    {
        is_marked(&self.found.marks, point)
    }

    /// Whether one of the points is marked.
    pub fn has_any(&self, points: &[usize]) -> bool
        ensures { IsTrue result ↔ ((p : ℕ) × Contains points.now p × IsMarked self.now p) }
    {
        for point in points {
            if self.has(*point) {
                return true;
            }
        }
        false
    }

    /// The marked points, each once.
    pub fn points(&self) -> &[usize]
        ensures marked { (p : ℕ) → Contains result.now p ↔ IsMarked self.now p }
        ensures once { (i j p : ℕ) → slice_get result.now i ≡ Some p → slice_get result.now j ≡ Some p → i ≡ j }
    {
        &self.found.points
    }
}
