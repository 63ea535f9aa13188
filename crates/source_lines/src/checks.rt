ghost use Rattle.std.specs.Prelude.{◌≡◌, ◌+◌, ◌<◌, ◌^◌, ◌++◌, ◌∷◌, [], List, Some, None, length, IfOk, OnOk, OnErr, IsErrOf};
ghost use Rattle.ct_value.specs.declared.codes.ChangeCode.{ChangeCode};
ghost use Rattle.ct_change.specs.declared.change.Change.{Change};
ghost use Rattle.ct_catalog.specs.declared.table.TableDef.{TableDef};
ghost use Rattle.source_lines.specs.Folding.{ChecksStand};
ghost use Rattle.source_lines.specs.Kept.{refusal_after};
ghost use Rattle.source_lines.specs.declared.refusals.SourceFault.TheVariants.{Refused};

use crate::kept::{Kept, kept_for_refusals, take};
use crate::refusals::SourceFault;
use ct_catalog::TableDef;
use ct_change::Change;
use ct_value::Memory;
use std::alloc::Global;

/// The checks of a source's changes, one after another. Of the changes taken it keeps no more than the checks need: nothing of an
/// append table without a key and of an upsert table, the rows that stand of another.
#[derive(Drop)]
pub struct SourceChecks {
    table: TableDef,
    kept: Kept,
}

impl SourceChecks {
    /// The checks of a table's changes, none of which was taken.
    pub fn new(alloc: Global, table: &TableDef) -> Result<SourceChecks, Memory>
        ensures { IfOk result (λ checks. ChecksStand table.now checks []) }
    {
        let kept = kept_for_refusals(alloc, table);
        Ok(SourceChecks {
            table: table.dup()?,
            kept,
        })
    }

    /// Takes a change, unless it is refused after the changes taken before: by KindNotDeclared, NullNotAllowed, RowAbsent or
    /// KeyPresent, the first of them that holds. After an error all is as before.
    pub fn check(&mut self, change: &Change) -> Result<(), SourceFault>
        requires { (table : TableDef) × (changes : List Change) × ChecksStand table self.old changes × (length changes + 1 < 2 ^ 64) }
        ensures ok { OnOk result ((table : TableDef) (changes : List Change) → ChecksStand table self.old changes → (refusal_after table changes change.now ≡ None) × ChecksStand table self.new (changes ++ change.now ∷ [])) }
        ensures refused { (code : ChangeCode) → IsErrOf result (Refused code) → (table : TableDef) (changes : List Change) → ChecksStand table self.old changes → refusal_after table changes change.now ≡ Some code }
        ensures err { OnErr result (self.new ≡ self.old) }
    {
        take(&self.table, &mut self.kept, change)
    }
}
