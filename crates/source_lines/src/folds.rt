ghost use Rattle.std.specs.Prelude.{◌≡◌, ◌+◌, ◌<◌, ◌^◌, ◌++◌, ◌∷◌, [], List, Some, None, length, IfOk, OnOk, OnErr, IsErrOf};
ghost use Rattle.ct_value.specs.declared.codes.ChangeCode.{ChangeCode};
ghost use Rattle.ct_change.specs.declared.change.Change.{Change};
ghost use Rattle.ct_change.specs.Changelog.{fold};
ghost use Rattle.ct_catalog.specs.declared.table.TableDef.{TableDef};
ghost use Rattle.ct_catalog.specs.Columns.{table_mode};
ghost use Rattle.source_lines.specs.Folding.{FoldStands};
ghost use Rattle.source_lines.specs.Kept.{refusal_after};
ghost use Rattle.source_lines.specs.declared.refusals.SourceFault.TheVariants.{Refused};

use crate::kept::{Kept, kept_for_rows, take_own};
use crate::refusals::SourceFault;
use ct_catalog::TableDef;
use ct_change::{Bag, Change};
use ct_value::Memory;
use std::alloc::Global;

/// The rows of a source as its changes are taken, one after another. A row that has a key is kept by it.
#[derive(Drop)]
pub struct SourceFold {
    table: TableDef,
    kept: Kept,
}

impl SourceFold {
    /// The fold of a table of which no change was taken.
    pub fn new(alloc: Global, table: &TableDef) -> Result<SourceFold, Memory>
        ensures { IfOk result (λ folded. FoldStands table.now folded []) }
    {
        let kept = kept_for_rows(alloc, table);
        Ok(SourceFold {
            table: table.dup()?,
            kept,
        })
    }

    /// Takes a change, unless it is refused after the changes taken before: by KindNotDeclared, NullNotAllowed, RowAbsent or
    /// KeyPresent, the first of them that holds. After an error all is as before.
    pub fn check(&mut self, change: Change) -> Result<(), SourceFault>
        requires { (table : TableDef) × (changes : List Change) × FoldStands table self.old changes × (length changes + 1 < 2 ^ 64) }
        ensures ok { OnOk result ((table : TableDef) (changes : List Change) → FoldStands table self.old changes → (refusal_after table changes change ≡ None) × FoldStands table self.new (changes ++ change ∷ [])) }
        ensures refused { (code : ChangeCode) → IsErrOf result (Refused code) → (table : TableDef) (changes : List Change) → FoldStands table self.old changes → refusal_after table changes change ≡ Some code }
        ensures err { OnErr result (self.new ≡ self.old) }
    {
        take_own(&self.table, &mut self.kept, change)
    }

    /// The bag of the rows that the changes leave.
    pub fn into_bag(self) -> Result<Bag, Memory>
        requires { (table : TableDef) × (changes : List Change) × FoldStands table self changes }
        ensures { IfOk result (λ bag. (table : TableDef) (changes : List Change) → FoldStands table self changes → bag ≡ fold (table_mode table) changes) }
    {
        let SourceFold { kept, .. } = self;
        match kept {
            Kept::Nothing => unreachable!(),
            Kept::Rows(rows) => Ok(rows),
            Kept::Keyed(rows) => rows.into_bag(),
        }
    }
}
