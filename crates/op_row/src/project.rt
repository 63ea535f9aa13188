ghost use Rattle.std.specs.Prelude.{◌≡◌, [], false, map, option_map, IfOk, OnOk, IsErrOf, Some, None, Ok, Err};
ghost use Rattle.ct_expr.specs.Eval as e;
ghost use Rattle.ct_expr.specs.View.{exprs_view};
ghost use Rattle.rel_algebra.specs.Clauses.{row_of};
ghost use Rattle.op_rules.specs.Faults.{IfRange};
ghost use Rattle.op_rules.specs.Rules.{appended};
ghost use Rattle.emission_rules.specs.Project.{with_row, project_change};
ghost use Rattle.op_row.specs.Gone.{TellsGone, key_of};

use crate::gone::{Gone, gone_by};
use ct_change::{Change, Changes, Steps};
use ct_expr::{EvalFault, Exprs, eval};
use ct_value::{Cols, Memory, Row, Values};
use op_rules::{OpFault, Operator};
use std::alloc::Global;
use std::sync::ledger::Ledger;

/// The operator that makes a row of the values of its items at each row (Flink documentation, "SELECT clause"). Over an edge that
/// is after-only by a key, a row that goes becomes the key row of the key's columns among the items, and no item is evaluated.
/// It keeps no rows.
#[derive(Drop)]
pub struct ProjectOp {
    alloc: Global,
    items: Exprs,
    after: Option<Gone>,
    broken: bool,
}

impl ProjectOp {
    ghost use Rattle.emission_rules.specs.Project.{project_rule};

    /// The project of these items, over an edge that is after-only by the key `after`, or over one that isn't after-only.
    pub fn new(alloc: Global, items: Exprs, after: Option<Cols>) -> Result<ProjectOp, Memory>
        ensures rule { IfOk result (λ made. ⟦<ProjectOp as Operator>⟧.rule made ≡ project_rule (record { items = exprs_view items; after = after })) }
        ensures stands { IfOk result (λ made. ⟦<ProjectOp as Operator>⟧.stands_for made []) }
        ensures whole { IfOk result (λ made. ⟦<ProjectOp as Operator>⟧.broken made ≡ false) }
    {
        let after = gone_by(alloc, &items, after)?;
        Ok(ProjectOp {
            alloc,
            items,
            after,
            broken: false,
        })
    }
}

impl Operator for ProjectOp {
    ghost use Rattle.emission_rules.specs.Project.{project_rule};

    ghost rule = { λ s. project_rule (record { items = exprs_view s.items; after = option_map key_of s.after }) };

    ghost broken = { λ s. s.broken };

    ghost stands_for = { λ s before. TellsGone (exprs_view s.items) s.after };

    fn opening(&mut self, _subtask: u32) -> Result<Changes, Memory> {
        Ok(Changes::new(self.alloc))
    }

    #[tactic(auto, using(crate::proofs::Answers::answer_onto, crate::proofs::Answers::answer_alone))]
    fn consume<L: Ledger>(
        &mut self,
        _port: u32,
        change: Change,
        to: &mut Changes,
        _steps: &mut Steps<L>,
    ) -> Result<(), OpFault> {
        self.broken = true;
        send(self.alloc, &self.items, &self.after, change, to)?;
        self.broken = false;
        Ok(())
    }

    fn is_broken(&self) -> bool {
        self.broken
    }
}

// Puts what is sent for a change behind the others.
fn send(
    alloc: Global,
    items: &Exprs,
    after: &Option<Gone>,
    change: Change,
    to: &mut Changes,
) -> Result<(), OpFault>
    requires tells { TellsGone (exprs_view items.now) after.now }
    ensures ok { OnOk result (appended (Ok to.old) (project_change (record { items = exprs_view items.now; after = option_map key_of after.now }) change) ≡ Ok to.new) }
    ensures range { IfRange result (λ row. project_change (record { items = exprs_view items.now; after = option_map key_of after.now }) change ≡ Err row) }
{
    match after {
        None => project(alloc, items, change, to),
        Some(gone) => send_by_key(alloc, items, gone, change, to),
    }
}

// The same over an edge that is after-only by a key.
#[tactic(auto, using(crate::proofs::Sent::comes, crate::proofs::Sent::goes))]
fn send_by_key(
    alloc: Global,
    items: &Exprs,
    gone: &Gone,
    change: Change,
    to: &mut Changes,
) -> Result<(), OpFault>
    requires tells { TellsGone (exprs_view items.now) (Some gone.now) }
    ensures ok { OnOk result (appended (Ok to.old) (project_change (record { items = exprs_view items.now; after = Some gone.now.key }) change) ≡ Ok to.new) }
    ensures range { IfRange result (λ row. project_change (record { items = exprs_view items.now; after = Some gone.now.key }) change ≡ Err row) }
{
    if change.kind.is_addition() {
        project(alloc, items, change, to)
    } else {
        let row = gone.row(alloc, &change.row)?;
        Ok(to.push(Change::new(change.kind, row))?)
    }
}

// Puts the change with the items' row behind the others.
fn project(alloc: Global, items: &Exprs, change: Change, to: &mut Changes) -> Result<(), OpFault>
    ensures ok { OnOk result (appended (Ok to.old) (with_row change (row_of (map e.eval (exprs_view items.now)) change.row)) ≡ Ok to.new) }
    ensures range { IfRange result (λ row. with_row change (row_of (map e.eval (exprs_view items.now)) change.row) ≡ Err row) }
{
    match values_of(alloc, items, &change.row) {
        Ok(row) => Ok(to.push(Change::new(change.kind, row))?),
        Err(EvalFault::Out) => Err(OpFault::Range(change.row)),
        Err(EvalFault::Memory) => Err(OpFault::Memory),
    }
}

// The values of the items at a row.
#[tactic(auto, using(crate::proofs::Values::row_begins, crate::proofs::Values::row_goes_on, crate::proofs::Values::row_ends, crate::proofs::Values::row_out))]
fn values_of(alloc: Global, items: &Exprs, row: &Row) -> Result<Row, EvalFault>
    ensures value { IfOk result (λ made. row_of (map e.eval (exprs_view items.now)) row.now ≡ Some made) }
    ensures out { IsErrOf result EvalFault.Out → row_of (map e.eval (exprs_view items.now)) row.now ≡ None }
{
    let mut values = Values::with_capacity(alloc, items.len())?;
    for item in items.as_slice() {
        values.push(eval(alloc, item, row)?)?;
    }
    Ok(Row::from_values(values))
}
