//! A shelf in memory that never fails.
ghost use Rattle.std.specs.Prelude.{◌≡◌, ◌≤◌, take, vec_len, Some, true, IfOk, IsOkUnless};
ghost use Rattle.hpr_io.specs.Files.{bytes_of, files_in};

use crate::files::{file_bytes, front_of};
use crate::{FetchError, Shelf};
use std::alloc::Global;
use std::marker::Model;

/// Holds files, serves every name, and answers no bytes where a name is absent.
///
/// Of two files with one name the first counts. No call fails, so its count of failures is always 0.
#[derive(Drop)]
pub struct SteadyShelf {
    files: Vec<(String, Vec<u8>)>,
}

impl Model for SteadyShelf {
    ghost use Rattle.hpr_io.specs.Files.{Files, files_in};

    ghost Value = { Files };

    ghost view = { λ s. files_in s.files.items };
}

impl SteadyShelf {
    /// A shelf of these files.
    pub fn new(files: Vec<(String, Vec<u8>)>) -> SteadyShelf
        ensures { result ≡ files_in files.items }
    {
        SteadyShelf { files }
    }
}

impl Shelf for SteadyShelf {
    ghost files = { λ s. Some s };

    ghost serves = { λ _ _. true };

    ghost faults = { λ _. 0 };

    fn fetch(&mut self, alloc: Global, name: &str, most: usize) -> Result<Vec<u8>, FetchError>
        ensures bytes { IfOk result (λ v. v.items ≡ take most (bytes_of self.old name.now)) }
        ensures short { IfOk result (λ v. vec_len v ≤ most) }
        ensures same { self.new ≡ self.old }
        ensures memory { IsOkUnless result FetchError.Memory }
    {
        match file_bytes(self.files.as_slice(), name) {
            Some(bytes) => front_of(alloc, bytes, most),
            None => Ok(Vec::new(alloc)),
        }
    }
}
