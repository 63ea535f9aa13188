ghost use Rattle.std.specs.Prelude.{◌≡◌, ◌≤◌, Some, true, false, length, IfOk, IsErrOf};
ghost use Rattle.ct_io.specs.Holdings.{loaded, Whole, Long, Missing};
ghost use Rattle.ct_io.specs.InMemory.{after_load, fails_next, holdings_of};

use crate::calls::is_listed;
use crate::shelf::copy_within;
use crate::{Calls, Files, LoadFault, Shelf};
use ct_value::{Bytes, Text};
use std::alloc::Global;
use std::marker::Model;

/// Files in memory, and no other name. The listed calls of `load` fail; nothing else raises its count of faults.
#[derive(Drop)]
pub struct MemShelf {
    files: Files,
    fails: Calls,
    calls: u64,
    faults: u64,
}

impl Model for MemShelf {
    ghost use Rattle.ct_io.specs.InMemory.{ShelfState, coded_shelf};

    ghost Value = { ShelfState };

    ghost coded = { coded_shelf };

    ghost view = { λ s. record { files = s.files; fails = s.fails; calls = s.calls; faults = s.faults } };
}

impl MemShelf {
    /// A shelf of these files of which the listed calls are to fail, counted from 1.
    pub fn new(files: Files, fails: Calls) -> MemShelf
        ensures { result ≡ record { files = files; fails = fails; calls = 0; faults = 0 } }
    {
        MemShelf {
            files,
            fails,
            calls: 0,
            faults: 0,
        }
    }
}

impl Shelf for MemShelf {
    ghost use Rattle.std.specs.Prelude.{Some};
    ghost use Rattle.ct_io.specs.InMemory.{holdings_of};

    ghost holdings = { λ s. Some (holdings_of s) };

    ghost faults = { λ s. s.faults };

    fn load(&mut self, alloc: Global, name: &Text, limit: u64) -> Result<Bytes, LoadFault>
        ensures listed { fails_next self.old ≡ true → result ≡ Err LoadFault.Failed }
        ensures failed { IsErrOf result LoadFault.Failed → fails_next self.old ≡ false → loaded (holdings_of self.old) name.now limit ≡ Missing }
        ensures whole { IfOk result (λ bytes. loaded (holdings_of self.old) name.now limit ≡ Whole bytes) }
        ensures too_long { IsErrOf result LoadFault.TooLong → loaded (holdings_of self.old) name.now limit ≡ Long }
        ensures state { self.new ≡ after_load self.old }
        ensures within { IfOk result (λ bytes. length bytes ≤ limit) }
        ensures later { self.old.faults ≤ self.new.faults }
    {
        let _ = alloc;
        self.calls = self.calls.saturating_add(1);
        if is_listed(&self.fails, self.calls) {
            self.faults = self.faults.saturating_add(1);
            return Err(LoadFault::Failed);
        }
        match self.files.get(name) {
            Some(bytes) => copy_within(bytes, limit),
            None => Err(LoadFault::Failed),
        }
    }
}
