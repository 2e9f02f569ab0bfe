//! Where files get other bytes.
ghost use Rattle.std.specs.Prelude.{◌≡◌, ℕ, List, ◌∷◌, ◌++◌, [], Option, option_map, OnOk, OnErr, IsErrOf};
ghost use Rattle.hpr_io.specs.Counts.{Counted};
ghost use Rattle.hpr_kit.specs.Answer.{Rewrite};

use std::alloc::Global;
use thiserror::Error;

/// Why a file didn't get its bytes.
#[derive(Clone, Copy, PartialEq, Eq, Debug, Error)]
pub enum RewriteError {
    /// The write failed, and the store counted it.
    #[error("a file could not be written")]
    Failed,
    /// There was no memory to write the file.
    #[error("out of memory")]
    Memory,
}

/// A place where files get other bytes.
pub trait Store {
    // which files got which bytes in place of which, in order, where it tells them
    ghost rewritten: { Self → Option (List Rewrite) };

    // how many calls failed, at most the last value of a u64
    ghost faults: { Self → ℕ };

    /// Gives the file with this name these bytes in place of those that it had. A file that fails to get them stays
    /// as it was, and so does one that has other bytes by now than `had`.
    ///
    /// `Failed` comes only where the count of failures rose, and `Memory` where there was no memory.
    fn rewrite(
        &mut self,
        alloc: Global,
        name: &str,
        had: &[u8],
        bytes: &[u8],
    ) -> Result<(), RewriteError>
        ensures rewritten { OnOk result (rewritten self.new
            ≡ option_map (λ rs. rs ++ record { file = name.now; had = had.now; bytes = bytes.now } ∷ [])
            (rewritten self.old)) }
        ensures kept { OnErr result (rewritten self.new ≡ rewritten self.old) }
        ensures count { Counted (faults self.old) (faults self.new) (IsErrOf result RewriteError.Failed) };
}
