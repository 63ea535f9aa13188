ghost use Rattle.std.specs.Prelude.{◌≡◌, ◌++◌, [], false, IfOk, OnOk};
ghost use Rattle.ct_change.specs.Changelog.{Rows, upsert, apply, MayCome, HasKey};
ghost use Rattle.ct_change.specs.Emission.{row_of};
ghost use Rattle.ct_change.specs.LastRows.{AreLast};
ghost use Rattle.emission_rules.specs.Normalize.{normalized, TellsKey};

use ct_change::{Change, Changes, InMode, LastRows, OutMode, Steps, UpsertBy};
use ct_value::{Cols, Memory, Row};
use op_rules::{OpFault, Operator};
use std::alloc::Global;
use std::sync::ledger::Ledger;

/// The operator that turns the changes of an upsert table into changes with the rows that go (Flink documentation,
/// "ChangelogNormalize"). It keeps the last row of each key.
#[derive(Drop)]
pub struct NormalizeOp<O: OutMode> {
    alloc: Global,
    input: UpsertBy,
    output: O,
    kept: LastRows,
    broken: bool,
}

impl<O: OutMode> NormalizeOp<O> {
    ghost use Rattle.emission_rules.specs.Normalize.{normalize_rule};

    /// The normalizer by this key, with no rows. Its output has to be able to tell that the row of a key gives way to another:
    /// both rows of an update, or the row of the same key.
    pub fn new(alloc: Global, key: Cols, output: O) -> Result<NormalizeOp<O>, Memory>
        requires { TellsKey key (O.mode output) }
        ensures rule { IfOk result (λ made. ⟦<NormalizeOp<O> as Operator>⟧.rule made ≡ normalize_rule (record { key = key; output = O.mode output })) }
        ensures stands { IfOk result (λ made. ⟦<NormalizeOp<O> as Operator>⟧.stands_for made []) }
        ensures whole { IfOk result (λ made. ⟦<NormalizeOp<O> as Operator>⟧.broken made ≡ false) }
    {
        let input = UpsertBy { alloc, key };
        let kept = input.fresh()?;
        Ok(NormalizeOp {
            alloc,
            input,
            output,
            kept,
            broken: false,
        })
    }

    // Takes a change, and puts what is emitted for it behind the others.
    fn take(&mut self, change: Change, to: &mut Changes) -> Result<(), Memory>
        requires may { (rows : Rows) × AreLast self.old.input.key self.old.kept rows × MayCome (upsert self.old.input.key) rows change }
        requires key { HasKey (upsert self.old.input.key) change.row }
        requires tells { TellsKey self.old.input.key (O.mode self.old.output) }
        ensures sent { OnOk result ((rows : Rows) → AreLast self.old.input.key self.old.kept rows → MayCome (upsert self.old.input.key) rows change → to.new ≡ to.old ++ normalized (record { key = self.old.input.key; output = O.mode self.old.output }) rows change) }
        ensures kept { OnOk result ((rows : Rows) → AreLast self.old.input.key self.old.kept rows → MayCome (upsert self.old.input.key) rows change → AreLast self.new.input.key self.new.kept (apply (upsert self.old.input.key) rows change)) }
        ensures same { (self.new.input ≡ self.old.input) × (self.new.output ≡ self.old.output) × (self.new.broken ≡ self.old.broken) }
    {
        let diff = self.input.absorb(&mut self.kept, change)?;
        self.output.emit(row_in(diff.gone), row_in(diff.come), to)?;
        Ok(())
    }
}

impl<O: OutMode> Operator for NormalizeOp<O> {
    ghost use Rattle.ct_change.specs.Changelog.{fold};
    ghost use Rattle.emission_rules.specs.Changes.{changes_of};
    ghost use Rattle.emission_rules.specs.Normalize.{normalize_rule};

    ghost rule = { λ s. normalize_rule (record { key = s.input.key; output = O.mode s.output }) };

    ghost broken = { λ s. s.broken };

    ghost stands_for = { λ s before.
        TellsKey s.input.key (O.mode s.output)
        × AreLast s.input.key s.kept (fold (upsert s.input.key) (changes_of before)) };

    fn opening(&mut self, _subtask: u32) -> Result<Changes, Memory> {
        Ok(Changes::new(self.alloc))
    }

    fn consume<L: Ledger>(
        &mut self,
        _port: u32,
        change: Change,
        to: &mut Changes,
        _steps: &mut Steps<L>,
    ) -> Result<(), OpFault> {
        self.broken = true;
        match self.take(change, to) {
            Ok(()) => {
                self.broken = false;
                Ok(())
            }
            Err(Memory) => Err(OpFault::Memory),
        }
    }

    fn is_broken(&self) -> bool {
        self.broken
    }
}

// The row of a change.
fn row_in(change: Option<Change>) -> Option<Row>
    ensures { result ≡ row_of change }
{
    match change {
        None => None,
        Some(change) => Some(change.row),
    }
}
