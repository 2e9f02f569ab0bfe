//! A shelf that notes what it is asked for.
ghost use Rattle.std.specs.Prelude.{Some, true};

use hpr_io::{FetchError, MemoryShelf, Shelf};
use std::alloc::Global;

/// Fetches from a shelf in memory, and notes of each fetch its name and the most bytes that it asks for.
#[derive(Drop)]
pub(crate) struct NotingShelf {
    shelf: MemoryShelf,
    pub(crate) notes: String,
}

impl NotingShelf {
    /// The shelf, with no fetch noted yet.
    pub(crate) fn new(alloc: Global, shelf: MemoryShelf) -> NotingShelf {
        NotingShelf {
            shelf,
            notes: String::new(alloc),
        }
    }
}

impl Shelf for NotingShelf {
    ghost files = { λ s. Some s.shelf.files };

    ghost serves = { λ _ _. true };

    ghost faults = { λ s. s.shelf.faults };

    fn fetch(&mut self, alloc: Global, name: &str, most: usize) -> Result<Vec<u8>, FetchError> {
        if write!(self.notes, "fetch {name} {most}\n").is_err() {
            return Err(FetchError::Memory);
        }
        self.shelf.fetch(alloc, name, most)
    }
}
