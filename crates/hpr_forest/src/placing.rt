//! The next item by marks and the open parent.

ghost use Rattle.std.specs.Prelude.{◌≡◌, ℕ, ◌<◌, ◌≤◌, List, Bool, All, [], length, vec_len, false, true, IfSome, IfNone};
ghost use Rattle.hpr_forest.specs.Choices.{Follows};
ghost use Rattle.hpr_forest.specs.Marks.{IsMarksOf};
ghost use Rattle.hpr_forest.specs.Forest.{all_in, can};
ghost use Rattle.hpr_forest.specs.Remaining.{forest_of, can_of};
ghost use Rattle.hpr_forest.specs.Open.{open_in, can_under, same_parent};

use crate::Blocks;

/// Whether all of the items have a mark.
fn all_marked(marks: &[bool], items: &[usize], placed: &[usize]) -> bool
    requires within { All (λ x. x < length marks.now) items.now }
    requires marks { IsMarksOf marks.now placed.now }
    ensures { result ≡ all_in placed.now items.now }
{
    for item in items {
        if !marks[*item] {
            return false;
        }
    }
    true
}

pub(crate) fn is_same(a: Option<usize>, b: Option<usize>) -> bool
    ensures { result ≡ same_parent a b }
{
    match (a, b) {
        (None, None) => true,
        (Some(a), Some(b)) => a == b,
        _ => false,
    }
}

impl Blocks {
    /// The last placed item with something left under it: the last placed one, or one in which it stands.
    fn open_parent(&self, marks: &[bool], placed: &[usize]) -> Option<usize>
        requires row { length marks.now ≡ vec_len self.now.parents }
        requires front { Follows (can_of self.now) [] placed.now }
        requires marks { IsMarksOf marks.now placed.now }
        ensures { result ≡ open_in (forest_of self.now) placed.now placed.now }
    {
        let mut under = placed.last().copied();
        'climb: while let Some(item) = under {
            if !all_marked(marks, self.children_of(item), placed) {
                return Some(item);
            }
            under = self.parent_of(item);
        }
        None
    }

    /// Whether the item may be placed next, by its parent.
    fn may_under(&self, marks: &[bool], placed: &[usize], under: Option<usize>, item: usize) -> bool
        requires row { length marks.now ≡ vec_len self.now.parents }
        requires item { item < vec_len self.now.parents }
        requires marks { IsMarksOf marks.now placed.now }
        ensures { result ≡ can_under (forest_of self.now) placed.now under item }
    {
        if marks[item] {
            return false;
        }
        if !is_same(under, self.parent_of(item)) {
            return false;
        }
        all_marked(marks, self.before_of(item), placed)
    }

    /// The least item, from `from` on, that may be placed next; `None` where there is none.
    ///
    /// Takes time in proportion to the items and what must come before them.
    pub(crate) fn next_open(&self, marks: &[bool], placed: &[usize], from: usize) -> Option<usize>
        requires row { length marks.now ≡ vec_len self.now.parents }
        requires front { Follows (can_of self.now) [] placed.now }
        requires marks { IsMarksOf marks.now placed.now }
        ensures can { IfSome result (λ c. can_of self.now placed.now c ≡ true) }
        ensures from { IfSome result (λ c. from ≤ c) }
        ensures least { IfSome result (λ c. (d : ℕ) → from ≤ d → d < c → can_of self.now placed.now d ≡ false) }
        ensures none { IfNone result ((d : ℕ) → from ≤ d → d < vec_len self.now.parents
            → can_of self.now placed.now d ≡ false) }
    {
        let under = self.open_parent(marks, placed);
        for item in from..self.parents.len() {
            if self.may_under(marks, placed, under, item) {
                return Some(item);
            }
        }
        None
    }
}
