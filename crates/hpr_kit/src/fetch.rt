//! What is read of a file.
ghost use Rattle.std.specs.Prelude.{◌≡◌, ℕ, List, IsTrue};
ghost use Rattle.hpr_kit.specs.Private.Replies.{Fetches};

use crate::reply::Stop;
use hpr_io::{FetchError, Shelf};
use hpr_terms::limits::MAX_FILE;
use std::alloc::Global;

/// The bytes of a file; of one that is too long the first of them, one more than the limit.
pub(crate) fn fetch<S: Shelf>(alloc: Global, file: &str, shelf: &mut S) -> Result<Vec<u8>, Stop>
    requires { IsTrue (S.serves shelf.old file.now) }
    ensures fetches { Fetches (S.files shelf.old) file.now (S.faults shelf.old) (S.faults shelf.new) result }
    ensures same_files { S.files shelf.new ≡ S.files shelf.old }
    ensures same_names { (n : List ℕ) → S.serves shelf.new n ≡ S.serves shelf.old n }
{
    match shelf.fetch(alloc, file, MAX_FILE + 1) {
        Ok(bytes) => Ok(bytes),
        Err(FetchError::Failed) => {
            let message = format!(in alloc; "hprkit: cannot read {file}\n")?;
            Err(Stop::ReadFault(message))
        }
        Err(FetchError::Memory) => Err(Stop::Memory),
    }
}
