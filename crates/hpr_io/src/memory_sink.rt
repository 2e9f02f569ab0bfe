//! A sink in memory, which takes short pieces, runs out of room and fails where it is told to.
ghost use Rattle.std.specs.Prelude.{◌≡◌, ◌++◌, ◌<◌, ◌≤◌, ◌↔◌, length, take, Some, IfOk, OnErr, IsErr, IsOkUnless, IsTrue};
ghost use Rattle.hpr_io.specs.Counts.{Counted};
ghost use Rattle.hpr_io.specs.Fakes.{sink_at_start, put_fails, put_count, after_put};

use crate::{FetchError, PutError, Sink};
use std::alloc::Global;
use std::marker::Model;

/// Keeps the bytes that it takes, at most `step` of them in a call and at most `room` in all.
///
/// A put fails where its number, from 0, is in the list of failing calls, or where the piece is not empty and no room
/// is left. The numbers of calls and of failures stop at the last value of a u64.
#[derive(Drop)]
pub struct MemorySink {
    taken: Vec<u8>,
    step: usize,
    room: usize,
    failing: Vec<u64>,
    calls: u64,
    faults: u64,
}

impl Model for MemorySink {
    ghost use Rattle.std.specs.Prelude.{◌≤◌, vec_len, vec_capacity};
    ghost use Rattle.hpr_io.specs.Fakes.{SinkState};

    ghost Value = { SinkState };

    ghost view = { λ s. record {
      taken = s.taken.items;
      step = s.step;
      room = s.room;
      failing = s.failing.items;
      calls = s.calls;
      faults = s.faults;
    } };

    ghost invariant = { λ s. (1 ≤ s.step) × (s.room ≤ vec_capacity s.taken) × (vec_len s.taken ≤ s.room) };
}

impl MemorySink {
    /// A sink with no call yet, which takes at most `step` bytes in a call and `room` in all. The calls with these
    /// numbers, from 0, will fail. All its room is reserved here, and want of memory for it is the only refusal.
    pub fn new(
        alloc: Global,
        step: usize,
        room: usize,
        failing: Vec<u64>,
    ) -> Result<MemorySink, FetchError>
        requires { 1 ≤ step }
        ensures start { IfOk result (λ s. s ≡ sink_at_start step room failing.items) }
        ensures memory { IsOkUnless result FetchError.Memory }
    {
        let taken = Vec::with_capacity(alloc, room).map_err(|_| FetchError::Memory)?;
        Ok(MemorySink {
            taken,
            step,
            room,
            failing,
            calls: 0,
            faults: 0,
        })
    }

    /// The bytes that it took, in order.
    pub fn bytes(&self) -> &[u8]
        ensures { result.now ≡ self.now.taken }
    {
        self.taken.as_slice()
    }
}

impl Sink for MemorySink {
    ghost taken = { λ s. Some s.taken };

    ghost faults = { λ s. s.faults };

    fn put(&mut self, piece: &[u8]) -> Result<usize, PutError>
        ensures within { IfOk result (λ n. n ≤ length piece.now) }
        ensures moves { IfOk result (λ n. 0 < length piece.now → 0 < n) }
        ensures bytes { IfOk result (λ n. self.new.taken ≡ self.old.taken ++ take n piece.now) }
        ensures nothing { OnErr result (self.new.taken ≡ self.old.taken) }
        ensures count { Counted self.old.faults self.new.faults (IsErr result) }

        // A call fails exactly where it is to fail or finds no room, takes all it may otherwise, and every call is counted.
        ensures failed { IsErr result ↔ IsTrue (put_fails self.old piece.now) }
        ensures most { IfOk result (λ n. n ≡ put_count self.old piece.now) }
        ensures after { self.new ≡ after_put self.old piece.now }
    {
        let call = self.calls;
        self.calls = call.saturating_add(1);
        let left = self.room - self.taken.len();
        if self.failing.contains(&call) || (!piece.is_empty() && left == 0) {
            self.faults = self.faults.saturating_add(1);
            return Err(PutError::Failed);
        }
        let count = piece.len().min(self.step).min(left);
        match self.taken.extend_from_slice(&piece[..count]) {
            Ok(()) => Ok(count),
            Err(_) => unreachable!(),
        }
    }
}
