//! Files to read from and places to write to, by what a caller may ask of them, and those that live in memory.
#![tactic(auto)]

mod files;
mod memory_shelf;
mod memory_sink;
mod steady_shelf;
mod steady_sink;

ghost use Rattle.std.specs.Prelude.{◌≡◌, ℕ, ◌<◌, ◌≤◌, Bool, List, length, take, vec_len, Option, IfOk, IfSome, OnOk, OnErr, IsErrOf, IsErr, IsTrue};
ghost use Rattle.hpr_io.specs.Counts.{Counted};
ghost use Rattle.hpr_io.specs.Files.{Files, bytes_of};
ghost use Rattle.hpr_io.specs.Taken.{taken_then, TookStrictPrefix};

pub use memory_shelf::MemoryShelf;
pub use memory_sink::MemorySink;
use std::alloc::Global;
pub use steady_shelf::SteadyShelf;
pub use steady_sink::SteadySink;
use thiserror::Error;

/// Why a file was not fetched.
#[derive(Clone, Copy, PartialEq, Eq, Debug, Error)]
pub enum FetchError {
    /// The read failed, and the shelf counted it.
    #[error("a read failed")]
    Failed,
    /// There was no memory for the bytes.
    #[error("out of memory")]
    Memory,
}

/// Why a piece was not taken.
#[derive(Clone, Copy, PartialEq, Eq, Debug, Error)]
pub enum PutError {
    /// The write failed, and the sink counted it.
    #[error("a write failed")]
    Failed,
}

/// A place to fetch files from.
pub trait Shelf {
    // the files that it holds, where it tells them
    ghost files: { Self → Option Files };

    // which names may be asked for
    ghost serves: { Self → List ℕ → Bool };

    // how many calls failed, at most the last value of a u64
    ghost faults: { Self → ℕ };

    /// Answers the first `most` bytes of the file with this name, or the whole file where it is shorter.
    ///
    /// `Failed` comes only where the count of failures rose, and `Memory` where there was no memory for the bytes.
    fn fetch(&mut self, alloc: Global, name: &str, most: usize) -> Result<Vec<u8>, FetchError>
        requires { IsTrue (serves self.old name.now) }
        ensures bytes { IfOk result (λ v. IfSome (files self.old) (λ fs. v.items ≡ take most (bytes_of fs name.now))) }
        ensures short { IfOk result (λ v. vec_len v ≤ most) }
        ensures same_files { files self.new ≡ files self.old }
        ensures same_names { (n : List ℕ) → serves self.new n ≡ serves self.old n }
        ensures count { Counted (faults self.old) (faults self.new) (IsErrOf result FetchError.Failed) };
}

/// A place to put bytes to.
pub trait Sink {
    // the bytes that it took, where it tells them
    ghost taken: { Self → Option (List ℕ) };

    // how many calls failed, at most the last value of a u64
    ghost faults: { Self → ℕ };

    /// Takes bytes from the front of the piece, and answers how many: at least one where the piece is not empty.
    ///
    /// `Failed` comes only where the count of failures rose, and nothing was taken then.
    fn put(&mut self, piece: &[u8]) -> Result<usize, PutError>
        ensures within { IfOk result (λ n. n ≤ length piece.now) }
        ensures moves { IfOk result (λ n. 0 < length piece.now → 0 < n) }
        ensures bytes { IfOk result (λ n. taken self.new ≡ taken_then (taken self.old) (take n piece.now)) }
        ensures nothing { OnErr result (taken self.new ≡ taken self.old) }
        ensures count { Counted (faults self.old) (faults self.new) (IsErr result) };
}

/// Puts all the bytes, in order, by as many calls of `put` as it takes.
///
/// `Failed` comes only where the sink's count of failures rose. The sink then took a first part of the bytes, maybe none.
pub fn put_all<S: Sink>(sink: &mut S, bytes: &[u8]) -> Result<(), PutError>
    ensures all { OnOk result (S.taken sink.new ≡ taken_then (S.taken sink.old) bytes.now) }
    ensures cut { OnErr result (TookStrictPrefix (S.taken sink.old) (S.taken sink.new) bytes.now) }
    ensures count { Counted (S.faults sink.old) (S.faults sink.new) (IsErr result) }
{
    let mut from = 0;
    while from < bytes.len() {
        from += sink.put(&bytes[from..])?;
    }
    Ok(())
}
