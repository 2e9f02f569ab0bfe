//! A sink that never fails and keeps nothing.
ghost use Rattle.std.specs.Prelude.{◌≡◌, length, None, Ok};

use crate::{PutError, Sink};

/// Takes every piece whole, keeps no bytes and tells none.
///
/// No call fails, so its count of failures is always 0.
#[derive(Clone, Copy, Drop)]
pub struct SteadySink;

impl SteadySink {
    /// A sink, ready to take pieces.
    pub fn new() -> SteadySink {
        SteadySink
    }
}

impl Sink for SteadySink {
    ghost taken = { λ _. None };

    ghost faults = { λ _. 0 };

    fn put(&mut self, piece: &[u8]) -> Result<usize, PutError>
        ensures whole { result ≡ Ok (length piece.now) }
    {
        Ok(piece.len())
    }
}
