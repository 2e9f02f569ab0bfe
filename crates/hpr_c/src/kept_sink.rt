//! A sink that keeps all that it takes.
ghost use Rattle.std.specs.Prelude.{◌≡◌, [], Some};

use hpr_io::{PutError, Sink};
use std::alloc::Global;

/// Takes every piece whole, where memory is found for it: what it keeps grows as the text does.
#[derive(Drop)]
pub(crate) struct KeptSink {
    pub(crate) taken: Vec<u8>,
    pub(crate) faults: u64,
}

impl KeptSink {
    /// A sink that took nothing.
    pub(crate) fn new(alloc: Global) -> KeptSink
        ensures taken { result.taken.items ≡ [] }
        ensures faults { result.faults ≡ 0 }
    {
        KeptSink {
            taken: Vec::new(alloc),
            faults: 0,
        }
    }
}

impl Sink for KeptSink {
    ghost taken = { λ s. Some s.taken.items };

    ghost faults = { λ s. s.faults };

    fn put(&mut self, piece: &[u8]) -> Result<usize, PutError> {
        match self.taken.extend_from_slice(piece) {
            Ok(()) => Ok(piece.len()),
            Err(_) => {
                self.faults = self.faults.saturating_add(1);
                Err(PutError::Failed)
            }
        }
    }
}
