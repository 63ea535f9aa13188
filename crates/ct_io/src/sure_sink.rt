ghost use Rattle.std.specs.Prelude.{◌≡◌, [], true, length, IfOk};
ghost use Rattle.ct_io.specs.InMemory.{after_sure_put};

use crate::{MemSink, PutFailed, Sink};
use ct_value::Memory;
use std::alloc::Global;
use std::marker::Model;

/// Written bytes in memory. It never fails: a piece for which there is no room is taken and not held, and from
/// then on it doesn't tell what was written.
#[derive(Drop)]
pub struct SureSink {
    bytes: Vec<u8>,
    told: bool,
}

impl Model for SureSink {
    ghost use Rattle.std.specs.Prelude.{◌≤◌, vec_len, vec_capacity};
    ghost use Rattle.ct_io.specs.InMemory.{SureState, room};

    ghost Value = { SureState };

    ghost view = { λ s. record { bytes = s.bytes.items; told = s.told } };

    ghost invariant = { λ s. (room ≤ vec_capacity s.bytes) × (vec_len s.bytes ≤ room) };
}

impl SureSink {
    /// A sink with nothing written, which holds up to `MemSink::ROOM` bytes.
    pub fn new(alloc: Global) -> Result<SureSink, Memory>
        ensures { IfOk result (λ sink. sink ≡ record { bytes = []; told = true }) }
    {
        Ok(SureSink {
            bytes: Vec::with_capacity(alloc, MemSink::ROOM)?,
            told: true,
        })
    }

    /// The bytes that it holds. It takes no memory.
    pub fn written(&self) -> &[u8]
        ensures { result.now ≡ self.now.bytes }
    {
        self.bytes.as_slice()
    }
}

impl Sink for SureSink {
    ghost use Rattle.std.specs.Prelude.{false};
    ghost use Rattle.ct_io.specs.InMemory.{told_bytes};

    ghost written = { told_bytes };

    ghost faults = { λ s. 0 };

    ghost last = { λ s. false };

    fn is_last(&self) -> bool {
        false
    }

    fn put(&mut self, piece: &[u8]) -> Result<usize, PutFailed>
        ensures taken { result ≡ Ok (length piece.now) }
        ensures state { self.new ≡ after_sure_put self.old piece.now }
    {
        let room = MemSink::ROOM - self.bytes.len();
        if room < piece.len() {
            self.told = false;
            return Ok(piece.len());
        }
        match self.bytes.extend_from_slice(piece) {
            Ok(()) => Ok(piece.len()),
            Err(_) => unreachable!(),
        }
    }
}
