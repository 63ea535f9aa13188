ghost use Rattle.std.specs.Prelude.{◌≡◌, ◌+◌, ◌≤◌, [], ◌∷◌, ◌++◌, List, None, Some, cond, false, length, min, IfOk, OnOk, option_copied};
ghost use Rattle.std.specs.BTreeMap.{get};
ghost use Rattle.std.specs.List.{last_or};
ghost use Rattle.ct_value.specs.Bag.{drop_one};
ghost use Rattle.ct_value.specs.Order.{row_cmp};
ghost use Rattle.ct_value.specs.Rows.{project};
ghost use Rattle.ct_value.specs.declared.row.Row.{Row as Line};
ghost use Rattle.ct_change.specs.Changelog.{upsert, same_row, HasKey};
ghost use Rattle.ct_change.specs.Emission.{emission};
ghost use Rattle.emission_rules.specs.Materialize.{stands_after, under, materialized};
ghost use Rattle.op_sink.specs.Kept.{rows_at, AreKept};

use crate::standing::Standing;
use ct_change::{Change, Changes, Kind, Steps, key_row};
use ct_value::{Cols, Memory, Row};
use op_rules::{OpFault, Operator};
use std::alloc::Global;
use std::collections::BTreeMap;
use std::sync::ledger::Ledger;

/// The operator that makes last rows of a key of changes that may leave several rows under it for a moment (Flink documentation,
/// "table.exec.sink.upsert-materialize"). It keeps the rows that stand under each key in order of arrival, found by key, and shows
/// the last.
#[derive(Drop)]
pub struct Materialize {
    alloc: Global,
    key: Cols,
    kept: BTreeMap<Row, Standing>,
    broken: bool,
}

impl Materialize {
    ghost use Rattle.emission_rules.specs.Materialize.{materialize_rule};

    /// The materializer by this key, with no rows.
    pub fn new(alloc: Global, key: Cols) -> Result<Materialize, Memory>
        ensures rule { IfOk result (λ made. ⟦<Materialize as Operator>⟧.rule made ≡ materialize_rule key) }
        ensures stands { IfOk result (λ made. ⟦<Materialize as Operator>⟧.stands_for made []) }
        ensures whole { IfOk result (λ made. ⟦<Materialize as Operator>⟧.broken made ≡ false) }
    {
        Ok(Materialize {
            alloc,
            key,
            kept: BTreeMap::new(alloc),
            broken: false,
        })
    }

    // Takes a change, and answers what is emitted for it.
    fn take<L: Ledger>(&mut self, change: Change, steps: &mut Steps<L>) -> Result<Changes, Memory>
        requires { HasKey (upsert self.old.key) change.row }
        ensures sent { IfOk result (λ sent. (rows : List Line) → AreKept self.old.key self.old.kept rows → sent ≡ materialized self.old.key rows change) }
        ensures kept { OnOk result ((rows : List Line) → AreKept self.old.key self.old.kept rows → AreKept self.old.key self.new.kept (stands_after rows change)) }
        ensures same { (self.new.key ≡ self.old.key) × (self.new.broken ≡ self.old.broken) }
        ensures cost { (rows : List Line) → AreKept self.old.key self.old.kept rows → steps.new ≤ steps.old + (2 + length (under self.old.key (project self.old.key change.row) rows)) }
    {
        let values = change.row.project(&self.key)?;
        let sent = turn_key(self.alloc, &self.key, &mut self.kept, values, change, steps)?;
        Ok(sent)
    }
}

impl Operator for Materialize {
    ghost use Rattle.emission_rules.specs.Changes.{changes_of};
    ghost use Rattle.emission_rules.specs.Materialize.{standing, materialize_rule};

    ghost rule = { λ s. materialize_rule s.key };

    ghost broken = { λ s. s.broken };

    ghost stands_for = { λ s before. AreKept s.key s.kept (standing (changes_of before)) };

    fn opening(&mut self, _subtask: u32) -> Result<Changes, Memory> {
        Ok(Changes::new(self.alloc))
    }

    fn consume<L: Ledger>(
        &mut self,
        _port: u32,
        change: Change,
        to: &mut Changes,
        steps: &mut Steps<L>,
    ) -> Result<(), OpFault> {
        self.broken = true;
        let sent = self.take(change, steps)?;
        to.append(sent)?;
        self.broken = false;
        Ok(())
    }

    fn is_broken(&self) -> bool {
        self.broken
    }
}

// Takes a change into the rows that stand under its key, and answers what is told of it. A key that then has no row isn't kept.
fn turn_key<L: Ledger>(
    alloc: Global,
    key: &Cols,
    kept: &mut BTreeMap<Row, Standing>,
    values: Row,
    change: Change,
    steps: &mut Steps<L>,
) -> Result<Changes, Memory>
    ensures sent { IfOk result (λ sent. sent ≡ emission (upsert key.now) (last_or None (rows_at kept.old values)) (last_or None (stands_after (rows_at kept.old values) change))) }
    ensures kept { OnOk result ((other : Line) → rows_at kept.new other ≡ cond (same_row values other) (stands_after (rows_at kept.old values) change) (rows_at kept.old other)) }
    ensures cost { steps.new ≤ steps.old + (2 + length (rows_at kept.old values)) }
{
    steps.tick();
    let Some(standing) = kept.get_mut(&values) else {
        return start_key(alloc, key, kept, values, change, steps);
    };
    let sent = turn(alloc, key, standing, change, steps)?;
    if standing.len() == 0 {
        steps.tick();
        forget(kept, &values);
    }
    Ok(sent)
}

// Takes a change of a key that isn't kept.
fn start_key<L: Ledger>(
    alloc: Global,
    key: &Cols,
    kept: &mut BTreeMap<Row, Standing>,
    values: Row,
    change: Change,
    steps: &mut Steps<L>,
) -> Result<Changes, Memory>
    requires { get row_cmp kept.old values ≡ None }
    ensures sent { IfOk result (λ sent. sent ≡ emission (upsert key.now) None (last_or None (stands_after [] change))) }
    ensures kept { OnOk result ((other : Line) → rows_at kept.new other ≡ cond (same_row values other) (stands_after [] change) (rows_at kept.old other)) }
    ensures cost { steps.new ≤ steps.old + 1 }
{
    let mut standing = Standing::new(alloc);
    let sent = turn(alloc, key, &mut standing, change, steps)?;
    if standing.len() == 0 {
        return Ok(sent);
    }
    steps.tick();
    kept.insert(values, standing)?;
    Ok(sent)
}

// Lets the key and its rows go.
fn forget(kept: &mut BTreeMap<Row, Standing>, values: &Row)
    ensures { (other : Line) → get row_cmp kept.new other ≡ cond (same_row values.now other) None (get row_cmp kept.old other) }
{
    kept.remove(values);
}

// Takes a change into the rows under its key, and answers what is told of it. Each row that stands is read at most once, and the one that
// is shown then once more: a step each.
fn turn<L: Ledger>(
    alloc: Global,
    key: &Cols,
    standing: &mut Standing,
    change: Change,
    steps: &mut Steps<L>,
) -> Result<Changes, Memory>
    ensures sent { IfOk result (λ sent. sent ≡ emission (upsert key.now) (last_or None standing.old) (last_or None (stands_after standing.old change))) }
    ensures kept { OnOk result (standing.new ≡ stands_after standing.old change) }
    ensures cost { steps.new ≤ steps.old + (length standing.old + min (length standing.old) (min 1 (length standing.new))) }
{
    if change.kind.is_addition() {
        come(alloc, key, standing, change.row, steps)
    } else {
        go(alloc, key, standing, &change.row, steps)
    }
}

// A row comes behind the others and is shown.
fn come<L: Ledger>(
    alloc: Global,
    key: &Cols,
    standing: &mut Standing,
    row: Row,
    steps: &mut Steps<L>,
) -> Result<Changes, Memory>
    ensures sent { IfOk result (λ sent. sent ≡ emission (upsert key.now) (last_or None standing.old) (Some row)) }
    ensures kept { OnOk result (standing.new ≡ standing.old ++ row ∷ []) }
    ensures cost { steps.new ≤ steps.old + length standing.old }
{
    let sent = told(alloc, key, standing.last(steps), Some(&row))?;
    standing.push(row)?;
    Ok(sent)
}

// The first copy of a row goes. Where it was the last of all, the one before it is shown.
fn go<L: Ledger>(
    alloc: Global,
    key: &Cols,
    standing: &mut Standing,
    row: &Row,
    steps: &mut Steps<L>,
) -> Result<Changes, Memory>
    ensures sent { IfOk result (λ sent. sent ≡ emission (upsert key.now) (last_or None standing.old) (last_or None standing.new)) }
    ensures kept { OnOk result (standing.new ≡ drop_one row_cmp row.now standing.old) }
    ensures cost { steps.new ≤ steps.old + (length standing.old + min (length standing.old) (min 1 (length standing.new))) }
{
    let Some(place) = standing.take_first(row, steps) else {
        return Ok(Changes::new(alloc));
    };
    if place < standing.len() {
        return Ok(Changes::new(alloc));
    }
    told(alloc, key, Some(row), standing.last(steps))
}

// The changes by which a changelog of last rows tells that a row, or none, gives way to another, or none.
fn told(
    alloc: Global,
    key: &Cols,
    old: Option<&Row>,
    fresh: Option<&Row>,
) -> Result<Changes, Memory>
    ensures { IfOk result (λ sent. sent ≡ emission (upsert key.now) (option_copied old.entry) (option_copied fresh.entry)) }
{
    match (old, fresh) {
        (None, None) => Ok(Changes::new(alloc)),
        (None, Some(fresh)) => alone(alloc, Kind::I, fresh.dup()?),
        (Some(old), None) => alone(alloc, Kind::D, key_row(alloc, old, key)?),
        (Some(old), Some(fresh)) => {
            if old == fresh {
                return Ok(Changes::new(alloc));
            }
            alone(alloc, Kind::UA, fresh.dup()?)
        }
    }
}

// One change.
fn alone(alloc: Global, kind: Kind, row: Row) -> Result<Changes, Memory>
    ensures { IfOk result (λ sent. sent ≡ record { kind = kind; row = row } ∷ []) }
{
    let mut sent = Changes::new(alloc);
    sent.push(Change::new(kind, row))?;
    Ok(sent)
}
