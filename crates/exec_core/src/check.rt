ghost use Rattle.exec_core.specs.Checked.{HasChecked};

use ct_catalog::TableDef;
use ct_change::Change;
use ct_value::Memory;
use session_core::{SourceCheck, SourceFault};
use session_open::PlanSource;
use source_lines::{SourceChecks, SourceFault as CheckFault};
use std::alloc::Global;

/// The test of the changes of a table, one after the other, with their number. It takes no more than 18,446,744,073,709,551,614 of
/// them: one more is want of memory.
#[derive(Drop)]
pub struct TableCheck {
    pub checks: SourceChecks,
    pub taken: u64,
}

impl SourceCheck for TableCheck {
    ghost stands_for = { λ s table before. HasChecked s table before };

    fn check(&mut self, change: &Change) -> Result<(), SourceFault> {
        if self.taken == u64::MAX {
            return Err(SourceFault::Memory);
        }
        match self.checks.check(change) {
            Ok(()) => {
                self.taken += 1;
                Ok(())
            }
            Err(CheckFault::Refused(code)) => Err(SourceFault::Refused(code)),
            Err(CheckFault::Memory) => Err(SourceFault::Memory),
        }
    }
}

impl PlanSource for TableCheck {
    fn open(alloc: Global, table: &TableDef) -> Result<TableCheck, Memory> {
        Ok(TableCheck {
            checks: SourceChecks::new(alloc, table)?,
            taken: 0,
        })
    }
}
