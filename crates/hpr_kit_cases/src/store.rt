//! A store in memory.
ghost use Rattle.std.specs.Prelude.{◌≡◌, ◌++◌, ◌∷◌, [], Some, OnErr, OnOk, map};
ghost use Rattle.hpr_kit_cases.specs.Stored.{rewrite_of};

use hpr_kit::{RewriteError, Store};
use std::alloc::{AllocError, Global};

/// A file that got other bytes.
#[derive(Drop)]
pub(crate) struct Renewal {
    pub(crate) file: String,
    /// Those that it was said to have had.
    pub(crate) had: Vec<u8>,
    pub(crate) bytes: Vec<u8>,
}

/// Keeps which files got which bytes, or gives none any.
#[derive(Drop)]
pub(crate) struct MemoryStore {
    renewals: Vec<Renewal>,
    fails: bool,
    faults: u64,
}

impl MemoryStore {
    /// A store that fails each time, or never.
    pub(crate) fn new(alloc: Global, fails: bool) -> Self {
        MemoryStore {
            renewals: Vec::new(alloc),
            fails,
            faults: 0,
        }
    }

    /// Which files got which bytes, in order.
    pub(crate) fn renewals(&self) -> &[Renewal] {
        self.renewals.as_slice()
    }
}

impl Store for MemoryStore {
    ghost rewritten = { λ s. Some (map rewrite_of s.renewals.items) };

    ghost faults = { λ s. s.faults };

    fn rewrite(
        &mut self,
        alloc: Global,
        name: &str,
        had: &[u8],
        bytes: &[u8],
    ) -> Result<(), RewriteError> {
        if self.fails {
            self.faults = self.faults.saturating_add(1);
            return Err(RewriteError::Failed);
        }
        match push(alloc, &mut self.renewals, name, had, bytes) {
            Ok(()) => Ok(()),
            Err(_) => Err(RewriteError::Memory),
        }
    }
}

// Puts a file behind the others.
fn push(
    alloc: Global,
    renewals: &mut Vec<Renewal>,
    name: &str,
    had: &[u8],
    bytes: &[u8],
) -> Result<(), AllocError>
    ensures put { OnOk result (map rewrite_of renewals.new.items ≡ map rewrite_of renewals.old.items
        ++ record { file = name.now; had = had.now; bytes = bytes.now } ∷ []) }
    ensures kept { OnErr result (renewals.new.items ≡ renewals.old.items) }
{
    let file = String::from_str(alloc, name)?;
    let had = Vec::from_slice(alloc, had)?;
    let bytes = Vec::from_slice(alloc, bytes)?;
    renewals.push(Renewal { file, had, bytes })?;
    Ok(())
}
