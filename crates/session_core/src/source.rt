ghost use Rattle.std.specs.Prelude.{◌≡◌, ◌∷◌, ◌++◌, [], List, None, Some, true, OnOk};
ghost use Rattle.ct_change.specs.Changelog.{fold};
ghost use Rattle.ct_change.specs.declared.change.Change.{Change};
ghost use Rattle.stream_model.specs.Tables.{Table, refusal};
ghost use Rattle.session_core.specs.Faults.{IfRefused};

use ct_change::Change;
use ct_value::{ChangeCode, Memory};

/// Why a source doesn't take a change: it is refused, or memory was wanting.
#[derive(Debug, Drop)]
pub enum SourceFault {
    Refused(ChangeCode),
    Memory,
}

impl From<Memory> for SourceFault {
    ghost use Rattle.std.specs.Prelude.{◌≡◌};
    ghost use Rattle.session_core.specs.declared.source.SourceFault.TheVariants.{Memory as Wanting};

    ghost from_gives = { λ _ fault. fault ≡ Wanting };

    fn from(_: Memory) -> Self {
        SourceFault::Memory
    }
}

/// What tests the changes of a table, one after the other. It stands for the changes of the table that it took.
pub trait SourceCheck: Drop {
    /// Whether what it keeps is what it needs of these changes of the table.
    ghost stands_for: { Self → Table → List Change → Type 0 };

    /// Tests a change and takes it: its kind, then NULL where none may stand, which of a `-D` of an upsert table is asked of the
    /// key's columns alone, then the rows that stand. It has to have as many values as the table has columns, each NULL or of
    /// its column's type, and such a `-D` NULL outside the key. After an error nothing more is promised of it.
    fn check(&mut self, change: &Change) -> Result<(), SourceFault>
        requires { (table : Table) × (before : List Change) × stands_for self.old table before × (table.fits change.now ≡ true) }
        ensures ok { OnOk result ((table : Table) (before : List Change) → stands_for self.old table before → table.fits change.now ≡ true → (refusal table (fold table.mode before) change.now ≡ None) × stands_for self.new table (before ++ change.now ∷ [])) }
        ensures refused { IfRefused result (λ code. (table : Table) (before : List Change) → stands_for self.old table before → table.fits change.now ≡ true → refusal table (fold table.mode before) change.now ≡ Some code) };
}
