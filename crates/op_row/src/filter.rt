ghost use Rattle.std.specs.Prelude.{◌≡◌, [], false, OnOk, Some, Ok, Err};
ghost use Rattle.ct_field.specs.Typed as t;
ghost use Rattle.ct_expr.specs.View.{expr_view};
ghost use Rattle.op_rules.specs.Faults.{IfRange};
ghost use Rattle.op_rules.specs.Rules.{appended};
ghost use Rattle.emission_rules.specs.Filter.{kept_where, filter_change};

use ct_change::{Change, Changes, Steps};
use ct_expr::{EvalFault, Expr, eval};
use ct_value::{Memory, Value};
use op_rules::{OpFault, Operator};
use std::alloc::Global;
use std::sync::ledger::Ledger;

/// The operator that hands on the changes on whose rows a condition is TRUE (Flink documentation, "WHERE clause"). It keeps
/// no rows.
#[derive(Drop)]
pub struct FilterOp {
    alloc: Global,
    cond: Expr,
    broken: bool,
}

impl FilterOp {
    ghost use Rattle.emission_rules.specs.Filter.{filter_rule};

    /// The filter by this condition. It takes no memory.
    pub fn new(alloc: Global, cond: Expr) -> FilterOp
        ensures rule { ⟦<FilterOp as Operator>⟧.rule result ≡ filter_rule (record { condition = expr_view cond }) }
        ensures stands { ⟦<FilterOp as Operator>⟧.stands_for result [] }
        ensures whole { ⟦<FilterOp as Operator>⟧.broken result ≡ false }
    {
        FilterOp {
            alloc,
            cond,
            broken: false,
        }
    }
}

impl Operator for FilterOp {
    ghost use Rattle.emission_rules.specs.Filter.{filter_rule};

    ghost rule = { λ s. filter_rule (record { condition = expr_view s.cond }) };

    ghost broken = { λ s. s.broken };

    ghost stands_for = { λ s before. Unit {0} };

    fn opening(&mut self, _subtask: u32) -> Result<Changes, Memory> {
        Ok(Changes::new(self.alloc))
    }

    #[tactic(auto, using(crate::proofs::Answers::answer_onto, crate::proofs::Answers::answer_alone))]
    fn consume<L: Ledger>(
        &mut self,
        _port: u32,
        change: Change,
        to: &mut Changes,
        _steps: &mut Steps<L>,
    ) -> Result<(), OpFault> {
        self.broken = true;
        pass_on(self.alloc, &self.cond, change, to)?;
        self.broken = false;
        Ok(())
    }

    fn is_broken(&self) -> bool {
        self.broken
    }
}

// Puts the change behind the others, where the condition is TRUE on its row.
fn pass_on(alloc: Global, cond: &Expr, change: Change, to: &mut Changes) -> Result<(), OpFault>
    ensures ok { OnOk result (appended (Ok to.old) (filter_change (record { condition = expr_view cond.now }) change) ≡ Ok to.new) }
    ensures range { IfRange result (λ row. filter_change (record { condition = expr_view cond.now }) change ≡ Err row) }
{
    match eval(alloc, cond, &change.row) {
        Ok(value) => Ok(keep(is_true(&value), change, to)?),
        Err(EvalFault::Out) => Err(OpFault::Range(change.row)),
        Err(EvalFault::Memory) => Err(OpFault::Memory),
    }
}

// Puts the change behind the others, where it passes.
fn keep(passes: bool, change: Change, to: &mut Changes) -> Result<(), Memory>
    ensures { OnOk result (appended (Ok to.old) (kept_where change (Some passes)) ≡ Ok to.new) }
{
    if passes {
        to.push(change)?;
    }
    Ok(())
}

// Neither FALSE nor NULL.
fn is_true(value: &Value) -> bool
    ensures { result ≡ t.is_true value.now }
{
    matches!(value, Value::Bool(true))
}
