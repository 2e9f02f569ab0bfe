//! What may stand next.

ghost use Rattle.std.specs.Prelude.{◌≡◌, ℕ, ◌<◌, ◌≤◌, Bool, true, false, List, [], length, IfSome, IfNone};
ghost use Rattle.hpr_forest.specs.Choices.{Follows};
ghost use Rattle.hpr_forest.specs.Marks.{IsMarksOf};

/// Rules that say which numbers may stand next behind the numbers placed so far.
///
/// The numbers are below `size`, and a whole list has `size` of them.
pub trait Choices {
    // how many numbers a whole list has
    ghost size: { Self → ℕ };

    // whether a number may stand next behind the placed ones
    ghost can: { Self → List ℕ → ℕ → Bool };

    /// How many numbers a whole list has.
    fn size(&self) -> usize
        ensures { result ≡ size self.now };

    /// The least number, from `from` on, that may stand next behind the placed ones; `None` where there is none.
    ///
    /// The row has a mark for each placed number, so that the rules need not scan the list for them.
    fn next_child(&self, marks: &[bool], placed: &[usize], from: usize) -> Option<usize>
        requires front { Follows (can self.now) [] placed.now }
        requires row { length marks.now ≡ size self.now }
        requires marks { IsMarksOf marks.now placed.now }
        ensures can { IfSome result (λ c. can self.now placed.now c ≡ true) }
        ensures from { IfSome result (λ c. from ≤ c) }
        ensures least { IfSome result (λ c. (d : ℕ) → from ≤ d → d < c → can self.now placed.now d ≡ false) }
        ensures none { IfNone result ((d : ℕ) → from ≤ d → d < size self.now → can self.now placed.now d ≡ false) };
}
