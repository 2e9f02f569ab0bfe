//! The next item by counts of what is still to be placed.

ghost use Rattle.std.specs.Prelude.{◌≡◌, ℕ, ◌<◌, ◌≤◌, List, Bool, [], length, vec_len, false, true, IfSome, IfNone};
ghost use Rattle.hpr_forest.specs.Choices.{Follows};
ghost use Rattle.hpr_forest.specs.Marks.{IsMarksOf};
ghost use Rattle.hpr_forest.specs.Forest.{can};
ghost use Rattle.hpr_forest.specs.Remaining.{forest_of, can_of};
ghost use Rattle.hpr_forest.specs.Open.{open_in, can_under};
ghost use Rattle.hpr_forest.specs.Pending.{IsPending};

use crate::placing::is_same;
use crate::{Blocks, Pending};

impl Blocks {
    /// The last placed item with something left under it: the last placed one, or one in which it stands. Looks at
    /// these alone.
    fn open_by(&self, pending: &Pending, placed: &[usize]) -> Option<usize>
        requires pending { IsPending self.now placed.now pending.now }
        requires front { Follows (can_of self.now) [] placed.now }
        ensures { result ≡ open_in (forest_of self.now) placed.now placed.now }
    {
        let mut under = placed.last().copied();
        'climb: while let Some(item) = under {
            if !pending.under.is_full(item) {
                return Some(item);
            }
            under = self.parent_of(item);
        }
        None
    }

    /// Whether the item may be placed next, by its parent.
    fn may_by(
        &self,
        pending: &Pending,
        marks: &[bool],
        placed: &[usize],
        under: Option<usize>,
        item: usize,
    ) -> bool
        requires pending { IsPending self.now placed.now pending.now }
        requires row { length marks.now ≡ vec_len self.now.parents }
        requires item { item < vec_len self.now.parents }
        requires marks { IsMarksOf marks.now placed.now }
        ensures { result ≡ can_under (forest_of self.now) placed.now under item }
    {
        if marks[item] {
            return false;
        }
        if !is_same(under, self.parent_of(item)) {
            return false;
        }
        pending.before.is_full(item)
    }

    /// The least item, from `from` on, that may be placed next; `None` where there is none. Looks at those alone before
    /// which none are left.
    pub fn next_ready(
        &self,
        pending: &Pending,
        marks: &[bool],
        placed: &[usize],
        from: usize,
    ) -> Option<usize>
        requires pending { IsPending self.now placed.now pending.now }
        requires row { length marks.now ≡ vec_len self.now.parents }
        requires front { Follows (can_of self.now) [] placed.now }
        requires marks { IsMarksOf marks.now placed.now }
        ensures can { IfSome result (λ c. can_of self.now placed.now c ≡ true) }
        ensures from { IfSome result (λ c. from ≤ c) }
        ensures least { IfSome result (λ c. (d : ℕ) → from ≤ d → d < c → can_of self.now placed.now d ≡ false) }
        ensures none { IfNone result ((d : ℕ) → from ≤ d → d < vec_len self.now.parents
            → can_of self.now placed.now d ≡ false) }
    {
        let under = self.open_by(pending, placed);
        let mut at = from;
        'seek: while let Some(item) = pending.ready.next(at) {
            if self.may_by(pending, marks, placed, under, item) {
                return Some(item);
            }
            at = item + 1;
        }
        None
    }
}
