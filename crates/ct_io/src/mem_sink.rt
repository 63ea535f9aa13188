ghost use Rattle.std.specs.Prelude.{◌≡◌, [], true, false, length, IfOk, IsErr};
ghost use Rattle.ct_io.specs.Counts.{HasCause};
ghost use Rattle.ct_io.specs.InMemory.{refuses, after_put};

use crate::calls::is_listed;
use crate::{Calls, PutFailed, Sink};
use ct_value::Memory;
use std::alloc::Global;
use std::marker::Model;

/// Written bytes in memory. The listed calls of `put` fail, and a piece for which there is no room; nothing else
/// raises its count of faults.
#[derive(Drop)]
pub struct MemSink {
    bytes: Vec<u8>,
    fails: Calls,
    calls: u64,
    faults: u64,
}

impl Model for MemSink {
    ghost use Rattle.std.specs.Prelude.{◌≤◌, vec_len, vec_capacity};
    ghost use Rattle.ct_io.specs.InMemory.{SinkState, room};

    ghost Value = { SinkState };

    ghost view = { λ s. record { bytes = s.bytes.items; fails = s.fails; calls = s.calls; faults = s.faults } };

    ghost invariant = { λ s. (room ≤ vec_capacity s.bytes) × (vec_len s.bytes ≤ room) };
}

impl MemSink {
    /// How many bytes it takes in all: 1 MiB, reserved when it is made.
    pub const ROOM: usize = 1048576;

    /// A sink with nothing written, of which the listed calls are to fail, counted from 1.
    pub fn new(alloc: Global, fails: Calls) -> Result<MemSink, Memory>
        ensures { IfOk result (λ sink. sink ≡ record { bytes = []; fails = fails; calls = 0; faults = 0 }) }
    {
        Ok(MemSink {
            bytes: Vec::with_capacity(alloc, Self::ROOM)?,
            fails,
            calls: 0,
            faults: 0,
        })
    }

    /// The bytes that were written. It takes no memory.
    pub fn written(&self) -> &[u8]
        ensures { result.now ≡ self.now.bytes }
    {
        self.bytes.as_slice()
    }
}

impl Sink for MemSink {
    ghost use Rattle.std.specs.Prelude.{Some, false};

    ghost written = { λ s. Some s.bytes };

    ghost faults = { λ s. s.faults };

    ghost last = { λ s. false };

    fn is_last(&self) -> bool {
        false
    }

    fn put(&mut self, piece: &[u8]) -> Result<usize, PutFailed>
        ensures refused { refuses self.old piece.now ≡ true → IsErr result }
        ensures taken { refuses self.old piece.now ≡ false → result ≡ Ok (length piece.now) }
        ensures state { self.new ≡ after_put self.old piece.now }
        ensures cause { HasCause self.old.faults self.new.faults result }
    {
        self.calls = self.calls.saturating_add(1);
        let room = Self::ROOM - self.bytes.len();
        if is_listed(&self.fails, self.calls) || room < piece.len() {
            self.faults = self.faults.saturating_add(1);
            return Err(PutFailed);
        }
        match self.bytes.extend_from_slice(piece) {
            Ok(()) => Ok(piece.len()),
            Err(_) => unreachable!(),
        }
    }
}
