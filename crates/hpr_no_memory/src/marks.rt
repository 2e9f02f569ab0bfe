//! Marks between calls.

use std::alloc::Global;

/// How many bytes a mark asks for.
const MARK: usize = 100_003;

/// For how many marks there is room.
const MARKS: usize = 200;

/// The marks that were set, and the call before each, with whether it answered as it should. Each mark keeps what it asked for, so that
/// the request is made.
pub(crate) struct Marks {
    alloc: Global,
    blocks: Vec<Vec<u8>>,
    calls: Vec<(&'static str, bool)>,
}

impl Drop for Marks {
    fn drop(self) {
        let Marks {
            alloc: _,
            blocks: _,
            calls: _,
        } = self;
    }
}

impl Marks {
    /// No mark, and room for all.
    pub(crate) fn new(alloc: Global) -> Option<Marks> {
        Some(Marks {
            alloc,
            blocks: Vec::with_capacity(alloc, MARKS).ok()?,
            calls: Vec::with_capacity(alloc, MARKS).ok()?,
        })
    }

    /// Sets a mark behind what the calls that follow need.
    pub(crate) fn ready(&mut self) -> Option<()> {
        self.after("made ready", true)
    }

    /// Sets a mark behind a call, which is the one since the mark before.
    pub(crate) fn after(&mut self, call: &'static str, is_right: bool) -> Option<()> {
        let block = Vec::with_capacity(self.alloc, MARK).ok()?;
        self.blocks.push(block).ok()?;
        self.calls.push((call, is_right)).ok()
    }

    /// What was called before each mark, in order.
    pub(crate) fn calls(&self) -> &[(&'static str, bool)] {
        &self.calls
    }
}
