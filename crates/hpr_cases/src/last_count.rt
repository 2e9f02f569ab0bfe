//! A call whose `err` has failed as often as can be counted.
ghost use Rattle.std.specs.Prelude.{◌≡◌, ◌≢◌, ◌⊎◌, ◌-◌, ◌^◌, Some};
ghost use Rattle.hpr_io.specs.Taken.{taken_then, TookStrictPrefix};
ghost use Rattle.hpr_decisions.specs.Ends.{cannot_write};

use hpr_app::{Status, hpr};
use hpr_io::{MemoryShelf, MemorySink, PutError, Sink};
use std::alloc::Global;

/// Puts to a sink in memory. Its count of failures stands at the last value of a u64, before each call and behind it.
#[derive(Drop)]
pub(crate) struct LastCountSink {
    sink: MemorySink,
}

impl LastCountSink {
    /// The sink, with a count that can't rise.
    pub(crate) fn new(sink: MemorySink) -> LastCountSink {
        LastCountSink { sink }
    }

    /// The bytes that it took, in order.
    pub(crate) fn bytes(&self) -> &[u8] {
        self.sink.bytes()
    }
}

impl Sink for LastCountSink {
    ghost taken = { λ s. Some s.sink.taken };

    ghost faults = { λ _. 2 ^ 64 - 1 };

    fn put(&mut self, piece: &[u8]) -> Result<usize, PutError> {
        self.sink.put(piece)
    }
}

/// Makes a call. Where it ends by a failed write, `err` took all of the message or first bytes of it, and nothing else:
/// no count tells which.
pub(crate) fn call_at_last_count(
    alloc: Global,
    words: &[String],
    shelf: &mut MemoryShelf,
    out: &mut MemorySink,
    err: &mut LastCountSink,
) -> Status
    ensures says { result ≡ Status.WriteFault
        → (Some err.new.sink.taken ≡ taken_then (Some err.old.sink.taken) cannot_write)
        ⊎ TookStrictPrefix (Some err.old.sink.taken) (Some err.new.sink.taken) cannot_write }
{
    hpr(alloc, words, shelf, out, err)
}
