// A sink in memory.

ghost use Rattle.std.specs.Prelude.{◌≡◌, ◌<◌, ◌≤◌, ℕ, [], length, Some, IfOk};
ghost use Rattle.std.specs.Io.KnownBytes.{WriteAppends};
ghost use Rattle.lg_io.specs.Counts.{HasCause};
ghost use Rattle.lg_io.specs.MemorySinks.{write_answer, after_write};

use crate::calls::FailingCalls;
use crate::sink::{Sink, SinkFault};
use lg_base::OutOfMemory;
use std::alloc::Global;
use std::marker::Model;

/// Takes bytes up to a room, and fails at the calls that it is set to fail at.
#[derive(Drop)]
pub struct MemorySink {
    bytes: Vec<u8>,
    room: usize,
    calls: FailingCalls,
}

impl Model for MemorySink {
    ghost use Rattle.std.specs.Prelude.{◌+◌, ◌≤◌, vec_len, vec_capacity};
    ghost use Rattle.lg_io.specs.MemorySinks.{SinkState};

    ghost Value = { SinkState };

    ghost view = { λ sink. record { taken = sink.bytes.items; room = sink.room; calls = sink.calls } };

    ghost invariant = { λ sink. vec_len sink.bytes + sink.room ≤ vec_capacity sink.bytes };
}

impl MemorySink {
    /// Returns a sink that has taken no bytes and has room for this many. The k-th write, from 1, fails where k is in the list, or where no
    /// room is left. It takes its memory here.
    pub fn new(alloc: Global, room: usize, fail_at: &[u64]) -> Result<MemorySink, OutOfMemory>
        ensures { IfOk result (λ sink. sink ≡ record { taken = []; room = room; calls = record { fail_at = fail_at.now; made = 0; faults = 0 } }) }
    {
        Ok(MemorySink {
            bytes: Vec::with_capacity(alloc, room)?,
            room,
            calls: FailingCalls::new(alloc, fail_at)?,
        })
    }

    /// Returns the bytes taken so far.
    pub fn bytes(&self) -> &[u8]
        ensures { result.now ≡ self.now.taken }
    {
        self.bytes.as_slice()
    }

    /// Returns how many writes failed.
    pub fn faults(&self) -> u64
        ensures { result ≡ self.now.calls.faults }
    {
        self.calls.faults()
    }
}

impl Sink for MemorySink {
    ghost taken = { λ sink. Some sink.taken };

    ghost faults = { λ sink. sink.calls.faults };

    /// Takes as many bytes as there is room for.
    fn write(&mut self, bytes: &[u8]) -> Result<usize, SinkFault>
        ensures bound { IfOk result (λ n. n ≤ length bytes.now) }
        ensures some { IfOk result (λ n. 0 < length bytes.now → 0 < n) }
        ensures bytes { WriteAppends (Some self.old.taken) (Some self.new.taken) result bytes.now }
        ensures cause { HasCause self.old.calls.faults self.new.calls.faults result }
        ensures answer { result ≡ write_answer self.old bytes.now }
        ensures after { self.new ≡ after_write self.old bytes.now }
    {
        let fails = self.calls.fails_next() || self.room == 0;
        self.calls.count(fails);
        if fails {
            return Err(SinkFault::Failed);
        }
        let count = bytes.len().min(self.room);
        match self.bytes.extend_from_slice(&bytes[..count]) {
            Ok(()) => {
                self.room -= count;
                Ok(count)
            }
            Err(_) => unreachable!(),
        }
    }
}
