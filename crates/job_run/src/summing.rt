//! A sink that sums what it takes.
ghost use Rattle.std.specs.Prelude.{◌≡◌, [], IfOk, IfErr};
ghost use Rattle.job_ending.specs.Endings.{IsPrintable};
ghost use Rattle.job_ending.specs.Runs.{IsBefore, ending_of_halt};
ghost use Rattle.job_ending.specs.declared.ending.Ending.TheVariants.{Done};
ghost use Rattle.job_run.specs.Outcome.{summed};

use crate::log::grown;
use crate::running_sums::Sums;
use ct_io::{PutFailed, Sink};
use ct_value::Bytes;
use job_ending::Halt;
use std::alloc::Global;
use std::marker::Model;
use std::mem;
use std::snapshot::Snapshot;

/// Sums over what is written, of which it keeps the last bytes alone. It fails only where memory is wanting.
#[derive(Drop)]
pub(crate) struct SummingSink {
    sums: Sums,
    log: Snapshot<Bytes>,
    faults: u64,
    last: bool,
}

impl Model for SummingSink {
    ghost use Rattle.job_run.specs.Printing.{Printing};
    ghost use Rattle.job_run.specs.Sums.{AreSums};

    ghost Value = { Printing };

    ghost view = { λ s. record { bytes = s.log.value; faults = s.faults; last = s.last } };

    ghost invariant = { λ s. AreSums s.sums s.log.value };
}

impl SummingSink {
    /// Nothing is written yet; with it the process may end.
    pub(crate) fn new(alloc: Global, last: bool) -> Self
        ensures { result ≡ record { bytes = []; faults = 0; last = last } }
    {
        let nothing = Bytes::new(alloc);
        SummingSink {
            sums: Sums::new(alloc),
            log: Snapshot::of(&nothing),
            faults: 0,
            last,
        }
    }

    /// The line of a load of so many lines that has written this.
    pub(crate) fn sum_up(self, lines: u64) -> Result<Vec<u8>, Halt>
        ensures ok { IfOk result (λ line. summed lines self.bytes ≡ record { ending = Done; bytes = line.items }) }
        ensures halts { IfErr result (λ halt. IsBefore halt (summed lines self.bytes)) }
        ensures printable { IfErr result (λ halt. IsPrintable (ending_of_halt halt)) }
    {
        let SummingSink { sums, .. } = self;
        sums.sum_up(lines)
    }
}

impl Sink for SummingSink {
    ghost use Rattle.std.specs.Prelude.{Some};

    ghost written = { λ s. Some s.bytes };

    ghost faults = { λ s. s.faults };

    ghost last = { λ s. s.last };

    fn is_last(&self) -> bool {
        self.last
    }

    fn put(&mut self, piece: &[u8]) -> Result<usize, PutFailed> {
        match self.sums.push(piece) {
            Ok(()) => {
                let nothing = Bytes::new(self.sums.alloc);
                let log = mem::replace(&mut self.log, Snapshot::of(&nothing));
                self.log = grown(log, piece);
                Ok(piece.len())
            }
            Err(_) => {
                self.faults = self.faults.saturating_add(1);
                Err(PutFailed)
            }
        }
    }
}
