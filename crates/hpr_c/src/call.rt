//! The call over files in memory.
ghost use Rattle.std.specs.Prelude.{◌≡◌, [], All, IsTrue, map, string_bytes};
ghost use Rattle.hpr_decisions.specs.Asked.{asked_by};
ghost use Rattle.hpr_decisions.specs.Reads.{files_of_taken};
ghost use Rattle.hpr_c.specs.Call.{Tells, change};
ghost use Rattle.hpr_c.specs.Ends.{EndsAsHpr};

use crate::kept_sink::KeptSink;
use hpr_app::{Status, hpr};
use hpr_io::Shelf;
use std::alloc::Global;

/// The number for want of memory.
pub(crate) const MEMORY: u32 = 8;

/// How a call ended, and its texts.
#[derive(Drop)]
pub(crate) struct Told {
    pub(crate) number: u32,
    pub(crate) out: Vec<u8>,
    pub(crate) err: Vec<u8>,
}

impl Told {
    /// A call that has no text.
    pub(crate) fn without_text(alloc: Global, number: u32) -> Told
        ensures number { result.number ≡ number }
        ensures out { result.out.items ≡ [] }
        ensures err { result.err.items ≡ [] }
    {
        Told {
            number,
            out: Vec::new(alloc),
            err: Vec::new(alloc),
        }
    }
}

/// Makes the call with these words over a shelf. Where there is no memory for its texts, it has none.
pub(crate) fn tell<S: Shelf>(alloc: Global, words: &[String], shelf: &mut S) -> Told
    requires { All (λ name. IsTrue (S.serves shelf.old name)) (files_of_taken (asked_by words.now)) }
    ensures { Tells (map string_bytes words.now) (S.files shelf.old) (S.faults shelf.old) (S.faults shelf.new)
        result.number result.out.items result.err.items }
{
    let mut out = KeptSink::new(alloc);
    let mut err = KeptSink::new(alloc);
    let status = call_hpr(alloc, words, shelf, &mut out, &mut err);
    if out.faults > 0 || err.faults > 0 {
        return Told::without_text(alloc, MEMORY);
    }
    Told {
        number: u32::from(status.number()),
        out: out.taken,
        err: err.taken,
    }
}

/// Makes the call with these words over a shelf, into two sinks.
fn call_hpr<S: Shelf>(
    alloc: Global,
    words: &[String],
    shelf: &mut S,
    out: &mut KeptSink,
    err: &mut KeptSink,
) -> Status
    requires { All (λ name. IsTrue (S.serves shelf.old name)) (files_of_taken (asked_by words.now)) }
    ensures { EndsAsHpr (map string_bytes words.now) (S.files shelf.old) result
        (S.faults shelf.old) (S.faults shelf.new)
        (change out.old.faults out.new.faults out.old.taken.items out.new.taken.items)
        (change err.old.faults err.new.faults err.old.taken.items err.new.taken.items) }
{
    hpr(alloc, words, shelf, out, err)
}
