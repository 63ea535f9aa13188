ghost use Rattle.std.specs.Prelude.{◌≡◌, ◌++◌, List, [], ◌∷◌, true, false, Ok, IfOk, OnOk};
ghost use Rattle.ct_change.specs.Changelog.{adds, mode_of};
ghost use Rattle.ct_change.specs.KeyRows.{row_told};
ghost use Rattle.emission_rules.specs.Changes.{after_key};
ghost use Rattle.emission_rules.specs.Sink as r;
ghost use Rattle.op_rules.specs.History.{Arrival};
ghost use Rattle.op_sink.specs.Relays.{relays};

use ct_change::{Change, Changes, Declared, Kind, Steps, Update, key_row};
use ct_value::{Cols, Memory, Row};
use op_rules::{OpFault, Operator};
use std::alloc::Global;
use std::sync::ledger::Ledger;

/// The operator that prints the changes of the sink's table (Flink documentation, "Table to Stream Conversion"): into an upsert
/// table, a row that goes by its key alone. It keeps no rows.
#[derive(Drop)]
pub struct SinkWriter {
    alloc: Global,
    declared: Declared,
    update: Update,
    key: Cols,
    broken: bool,
}

impl SinkWriter {
    /// The writer of a sink that is declared so, over an edge that tells updates so. The key is that of an upsert table; for the
    /// other modes it is not looked at.
    pub fn new(
        alloc: Global,
        declared: Declared,
        update: Update,
        key: Cols,
    ) -> Result<SinkWriter, Memory>
        ensures rule { IfOk result (λ made. ⟦<SinkWriter as Operator>⟧.rule made ≡ r.sink_rule (record { declared = declared; key = key; after = after_key update })) }
        ensures stands { IfOk result (λ made. ⟦<SinkWriter as Operator>⟧.stands_for made []) }
        ensures whole { IfOk result (λ made. ⟦<SinkWriter as Operator>⟧.broken made ≡ false) }
    {
        Ok(SinkWriter {
            alloc,
            declared,
            update,
            key,
            broken: false,
        })
    }

    /// Whether it prints each change as it comes, as all writers do but that of an upsert table.
    pub fn relays(&self) -> bool
        ensures declared { (sink : r.Sink) × (⟦<SinkWriter as Operator>⟧.rule self.now ≡ r.sink_rule sink) × (result ≡ relays sink.declared) }
        ensures emits { result ≡ true → (before : List Arrival) (a : Arrival) → (⟦<SinkWriter as Operator>⟧.rule self.now).emits before (a ∷ []) ≡ Ok (a.change ∷ []) }
        ensures stands { (before : List Arrival) → ⟦<SinkWriter as Operator>⟧.stands_for self.now before }
    {
        match self.declared {
            Declared::Append => true,
            Declared::Retract => true,
            Declared::Upsert => false,
        }
    }
}

impl Operator for SinkWriter {
    ghost rule = { λ s. r.sink_rule (record { declared = s.declared; key = s.key; after = after_key s.update }) };

    ghost broken = { λ s. s.broken };

    ghost stands_for = { λ s before. Unit {0} };

    fn opening(&mut self, _subtask: u32) -> Result<Changes, Memory> {
        Ok(Changes::new(self.alloc))
    }

    fn consume<L: Ledger>(
        &mut self,
        _port: u32,
        change: Change,
        to: &mut Changes,
        _steps: &mut Steps<L>,
    ) -> Result<(), OpFault> {
        self.broken = true;
        let split = splits(self.declared, &self.update);
        print(self.alloc, self.declared, &self.key, split, change, to)?;
        self.broken = false;
        Ok(())
    }

    fn is_broken(&self) -> bool {
        self.broken
    }
}

// Whether an update is printed as a row that goes and a row that comes: an upsert sink takes an edge that isn't after-only.
fn splits(declared: Declared, update: &Update) -> bool
    ensures { result ≡ r.splits declared (after_key update.now) }
{
    match (declared, update) {
        (Declared::Append, _) => false,
        (Declared::Retract, _) => false,
        (Declared::Upsert, Update::Absent) => true,
        (Declared::Upsert, Update::After(_)) => false,
        (Declared::Upsert, Update::Both) => true,
    }
}

// The kind that is printed for a change of this kind.
fn kind_printed(split: bool, kind: Kind) -> Kind
    ensures { result ≡ r.kind_printed split kind }
{
    if !split {
        return kind;
    }
    match kind {
        Kind::I => Kind::I,
        Kind::UB => Kind::D,
        Kind::UA => Kind::I,
        Kind::D => Kind::D,
    }
}

// A change that comes or goes gets the row that is printed for it.
fn retell(alloc: Global, declared: Declared, key: &Cols, change: &mut Change) -> Result<(), Memory>
    ensures { OnOk result (change.new ≡ record { kind = change.old.kind; row = row_told (mode_of declared key.now) (adds change.old.kind) change.old.row }) }
{
    if change.kind.is_addition() {
        return Ok(());
    }
    match declared {
        Declared::Append => Ok(()),
        Declared::Retract => Ok(()),
        Declared::Upsert => {
            change.row = key_row(alloc, &change.row, key)?;
            Ok(())
        }
    }
}

// Puts the change as it is printed behind the others.
fn print(
    alloc: Global,
    declared: Declared,
    key: &Cols,
    split: bool,
    change: Change,
    to: &mut Changes,
) -> Result<(), Memory>
    ensures { OnOk result (to.new ≡ to.old ++ record { kind = r.kind_printed split change.kind; row = row_told (mode_of declared key.now) (adds change.kind) change.row } ∷ []) }
{
    let mut printed = change;
    retell(alloc, declared, key, &mut printed)?;
    printed.kind = kind_printed(split, printed.kind);
    to.push(printed)
}
