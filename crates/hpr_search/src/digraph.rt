//! Directed graphs as a search sees them.
ghost use Rattle.std.specs.Prelude.{◌≡◌, ℕ, ◌<◌, ◌++◌, List, All, OnOk};

use std::alloc::AllocError;

/// A directed graph whose points are numbered from 0.
pub trait Digraph {
    // how many points there are
    ghost points: { Self → ℕ };

    // the points to which an edge leads from a point
    ghost steps: { Self → ℕ → List ℕ };

    /// How many points there are.
    fn point_count(&self) -> usize
        ensures { result ≡ points self.now };

    /// Puts the points to which an edge leads from the point at the end of the list.
    fn push_steps(&self, point: usize, into: &mut Vec<usize>) -> Result<(), AllocError>
        requires { point < points self.now }
        ensures pushed { OnOk result (into.new.items ≡ into.old.items ++ steps self.now point) }
        ensures within { All (λ p. p < points self.now) (steps self.now point) };
}
