//! A shelf in memory, which fails where it is told to.
ghost use Rattle.std.specs.Prelude.{◌≡◌, ◌≤◌, ◌↔◌, take, vec_len, Some, true, IfOk, IsErrOf, IsTrue};
ghost use Rattle.hpr_io.specs.Counts.{Counted};
ghost use Rattle.hpr_io.specs.Files.{files_in, bytes_of};
ghost use Rattle.hpr_io.specs.Fakes.{shelf_at_start, fetch_fails, after_fetch};

use crate::files::{file_bytes, front_of};
use crate::{FetchError, Shelf};
use std::alloc::Global;
use std::marker::Model;

/// Keeps files in memory, and serves every name.
///
/// A fetch fails where its number, from 0, is in the list of failing calls, or where no file has the name. Of two files
/// with one name the first counts. The numbers of calls and of failures stop at the last value of a u64.
#[derive(Drop)]
pub struct MemoryShelf {
    files: Vec<(String, Vec<u8>)>,
    failing: Vec<u64>,
    calls: u64,
    faults: u64,
}

impl Model for MemoryShelf {
    ghost use Rattle.hpr_io.specs.Fakes.{ShelfState};
    ghost use Rattle.hpr_io.specs.Files.{files_in};

    ghost Value = { ShelfState };

    ghost view = { λ s. record {
      files = files_in s.files.items;
      failing = s.failing.items;
      calls = s.calls;
      faults = s.faults;
    } };
}

impl MemoryShelf {
    /// A shelf of these files, with no call yet. The calls with these numbers, from 0, will fail.
    pub fn new(files: Vec<(String, Vec<u8>)>, failing: Vec<u64>) -> MemoryShelf
        ensures { result ≡ shelf_at_start (files_in files.items) failing.items }
    {
        MemoryShelf {
            files,
            failing,
            calls: 0,
            faults: 0,
        }
    }
}

impl Shelf for MemoryShelf {
    ghost files = { λ s. Some s.files };

    ghost serves = { λ _ _. true };

    ghost faults = { λ s. s.faults };

    fn fetch(&mut self, alloc: Global, name: &str, most: usize) -> Result<Vec<u8>, FetchError>
        ensures bytes { IfOk result (λ v. v.items ≡ take most (bytes_of self.old.files name.now)) }
        ensures short { IfOk result (λ v. vec_len v ≤ most) }
        ensures same_files { self.new.files ≡ self.old.files }
        ensures count { Counted self.old.faults self.new.faults (IsErrOf result FetchError.Failed) }

        // A call fails exactly where it is to fail or the name is absent, and every call is counted.
        ensures failed { IsErrOf result FetchError.Failed ↔ IsTrue (fetch_fails self.old name.now) }
        ensures after { self.new ≡ after_fetch self.old name.now }
    {
        let call = self.calls;
        self.calls = call.saturating_add(1);
        match file_bytes(self.files.as_slice(), name) {
            Some(bytes) if !self.failing.contains(&call) => front_of(alloc, bytes, most),
            _ => {
                self.faults = self.faults.saturating_add(1);
                Err(FetchError::Failed)
            }
        }
    }
}
