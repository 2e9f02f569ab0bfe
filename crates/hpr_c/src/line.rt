//! What a call tells as data.
ghost use Rattle.std.specs.Prelude.{◌≡◌, []};

use std::alloc::Global;

/// How a call ended, and its text: one line of JSON, or nothing.
#[derive(Drop)]
pub(crate) struct Line {
    pub(crate) number: u32,
    pub(crate) text: Vec<u8>,
}

impl Line {
    /// A call that has no text.
    pub(crate) fn empty(alloc: Global, number: u32) -> Line
        ensures number { result.number ≡ number }
        ensures text { result.text.items ≡ [] }
    {
        Line {
            number,
            text: Vec::new(alloc),
        }
    }
}
