//! A search by backtracking that judges what it may place.

ghost use Rattle.std.specs.Prelude.{◌≡◌, ℕ, ◌<◌, ◌≤◌, ◌↔◌, Bool, true, false, List, [], ◌∷◌, ◌++◌, length, IfOk, IfSome, IfNone, IsFalse, IsTrue};
ghost use Rattle.hpr_forest.specs.Choices.{IsWhole};

use std::alloc::AllocError;

/// A search by backtracking (Knuth, The Art of Computer Programming, 7.2.2): it holds the numbers that are placed so far, and keeps
/// what it wants to know of them.
///
/// A whole list has `size` numbers, all below `size`. The rules of a search never change; only what is placed does.
pub trait Backtracking {
    // how many numbers a whole list has
    ghost size: { Self → ℕ };

    // whether a number may stand next behind others
    ghost can: { Self → List ℕ → ℕ → Bool };

    // whether a number clashes with those before it
    ghost clash: { Self → List ℕ → ℕ → Bool };

    // a whole list fits
    ghost fits: { Self → List ℕ → Type 0 };

    // the numbers that are placed
    ghost placed: { Self → List ℕ };

    // what the answers of `admissible` and `judge` rest on
    ghost is_sound: { Self → Type 0 };

    // both are one search, with other numbers placed
    ghost is_same: { Self → Self → Type 0 };

    /// How many numbers a whole list has.
    fn size(&self) -> usize
        ensures { result ≡ size self.now };

    /// How many numbers are placed.
    fn count(&self) -> usize
        ensures { result ≡ length (placed self.now) };

    /// The least number, from `from` on, that may stand next; `None` where there is none.
    fn next_ready(&self, from: usize) -> Option<usize>
        ensures ready { IfSome result (λ c. can self.now (placed self.now) c ≡ true) }
        ensures from { IfSome result (λ c. from ≤ c) }
        ensures least { IfSome result (λ c. (d : ℕ) → from ≤ d → d < c → can self.now (placed self.now) d ≡ false) }
        ensures none { IfNone result ((d : ℕ) → from ≤ d → d < size self.now → can self.now (placed self.now) d ≡ false) };

    /// Whether to go on behind this number: false exactly where it clashes, and so only where no whole list that begins
    /// with the placed numbers and then this one fits.
    fn admissible(&self, child: usize) -> bool
        requires sound { is_sound self.now }
        requires ready { can self.now (placed self.now) child ≡ true }
        ensures clash { clash self.now (placed self.now) child ≡ true → IsFalse result }
        ensures only { IsFalse result → clash self.now (placed self.now) child ≡ true }
        ensures law { IsFalse result → (l r : List ℕ) → IsWhole (can self.now) (size self.now) l
            → l ≡ placed self.now ++ child ∷ r → ¬ fits self.now l };

    /// Places the number. Takes no memory.
    fn place(&mut self, child: usize)
        requires ready { can self.old (placed self.old) child ≡ true }
        ensures placed { placed self.new ≡ placed self.old ++ child ∷ [] }
        ensures same { is_same self.old self.new };

    /// Takes the last number back; `None` where nothing is placed.
    fn take_back(&mut self) -> Option<usize>
        ensures last { IfSome result (λ c. placed self.old ≡ placed self.new ++ c ∷ []) }
        ensures none { IfNone result (placed self.old ≡ []) }
        ensures same { is_same self.old self.new };

    /// Whether the placed numbers, a whole list, fit.
    fn judge(&self) -> Result<bool, AllocError>
        requires sound { is_sound self.now }
        requires whole { IsWhole (can self.now) (size self.now) (placed self.now) }
        ensures { IfOk result (λ yes_. IsTrue yes_ ↔ fits self.now (placed self.now)) };

    // one search has one set of rules, wherever it stands
    ghost same_self: { (s : Self) → is_same s s };

    ghost same_then: { (s t u : Self) → is_same s t → is_same t u → is_same s u };

    ghost same_size: { (s t : Self) → is_same s t → size s ≡ size t };

    ghost same_can: { (s t : Self) → is_same s t → can s ≡ can t };

    ghost same_clash: { (s t : Self) → is_same s t → clash s ≡ clash t };

    ghost same_fits: { (s t : Self) → is_same s t → (l : List ℕ) → fits s l → fits t l };

    ghost same_sound: { (s t : Self) → is_same s t → is_sound s → is_sound t };

    ghost same_turned: { (s t : Self) → is_same s t → is_same t s };
}
