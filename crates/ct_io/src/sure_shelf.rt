ghost use Rattle.std.specs.Prelude.{◌≡◌, ◌≤◌, length, IfOk, IsErrOf};
ghost use Rattle.ct_io.specs.Holdings.{loaded, Whole, Long};

use crate::shelf::copy_within;
use crate::{Files, LoadFault, Shelf};
use ct_value::{Bytes, Text};
use std::alloc::Global;
use std::marker::Model;

/// Files in memory, and every other name with no bytes. No call fails.
#[derive(Drop)]
pub struct SureShelf {
    files: Files,
}

impl Model for SureShelf {
    ghost use Rattle.std.specs.Prelude.{true};
    ghost use Rattle.ct_io.specs.Holdings.{Holdings, coded_holdings};

    ghost Value = { Holdings };

    ghost coded = { coded_holdings };

    ghost view = { λ s. record { files = s.files; others = true } };
}

impl SureShelf {
    ghost use Rattle.std.specs.Prelude.{true};

    /// A shelf of these files.
    pub fn new(files: Files) -> SureShelf
        ensures { result ≡ record { files = files; others = true } }
    {
        SureShelf { files }
    }
}

impl Shelf for SureShelf {
    ghost use Rattle.std.specs.Prelude.{Some};

    ghost holdings = { λ s. Some s };

    ghost faults = { λ s. 0 };

    fn load(&mut self, alloc: Global, name: &Text, limit: u64) -> Result<Bytes, LoadFault>
        ensures whole { IfOk result (λ bytes. loaded self.old name.now limit ≡ Whole bytes) }
        ensures too_long { IsErrOf result LoadFault.TooLong → loaded self.old name.now limit ≡ Long }
        ensures never { IsErrOf result LoadFault.Failed → ⊥ }
        ensures within { IfOk result (λ bytes. length bytes ≤ limit) }
        ensures same { self.new ≡ self.old }
    {
        match self.files.get(name) {
            Some(bytes) => copy_within(bytes, limit),
            None => Ok(Bytes::new(alloc)),
        }
    }
}
