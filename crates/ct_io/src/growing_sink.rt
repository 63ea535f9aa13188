ghost use Rattle.std.specs.Prelude.{◌≡◌, ◌++◌, [], length, IfOk, OnOk, OnErr};
ghost use Rattle.ct_io.specs.Counts.{HasCause, next};

use crate::{PutFailed, Sink};
use std::alloc::Global;
use std::marker::Model;

/// Written bytes in memory, as many as that has room for. Only a piece for which it has none is refused, and nothing else raises the count
/// of faults.
#[derive(Drop)]
pub struct GrowingSink {
    bytes: Vec<u8>,
    faults: u64,
}

impl Model for GrowingSink {
    ghost use Rattle.ct_io.specs.InMemory.{GrowingState};

    ghost Value = { GrowingState };

    ghost view = { λ s. record { bytes = s.bytes.items; faults = s.faults } };
}

impl GrowingSink {
    /// A sink with nothing written. It takes no memory.
    pub fn new(alloc: Global) -> GrowingSink
        ensures { result ≡ record { bytes = []; faults = 0 } }
    {
        GrowingSink {
            bytes: Vec::new(alloc),
            faults: 0,
        }
    }

    /// The bytes that were written. It takes no memory.
    pub fn written(&self) -> &[u8]
        ensures { result.now ≡ self.now.bytes }
    {
        self.bytes.as_slice()
    }

    /// The bytes that were written, handed over.
    pub fn into_bytes(self) -> Vec<u8>
        ensures { result.items ≡ self.bytes }
    {
        let GrowingSink { bytes, .. } = self;
        bytes
    }
}

impl Sink for GrowingSink {
    ghost use Rattle.std.specs.Prelude.{Some, false};

    ghost written = { λ s. Some s.bytes };

    ghost faults = { λ s. s.faults };

    ghost last = { λ s. false };

    fn is_last(&self) -> bool {
        false
    }

    fn put(&mut self, piece: &[u8]) -> Result<usize, PutFailed>
        ensures whole { IfOk result (λ count. count ≡ length piece.now) }
        ensures taken { OnOk result (self.new ≡ record self.old { bytes = self.old.bytes ++ piece.now }) }
        ensures refused { OnErr result (self.new ≡ record self.old { faults = next self.old.faults }) }
        ensures cause { HasCause self.old.faults self.new.faults result }
    {
        match self.bytes.extend_from_slice(piece) {
            Ok(()) => Ok(piece.len()),
            Err(_) => {
                self.faults = self.faults.saturating_add(1);
                Err(PutFailed)
            }
        }
    }
}
