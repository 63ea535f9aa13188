//! Filter, Project and Union.
ghost use Rattle.std.specs.Prelude.{◌≡◌, ◌<◌, ◌≤◌, ◌+◌, ◌^◌, Bool, true, None, Some, cond, map, IfOk, OnOk, IsErrOf};
ghost use Rattle.ct_value.specs.Bag as bag;
ghost use Rattle.ct_expr.specs.Eval as e;
ghost use Rattle.ct_expr.specs.View.{expr_view, exprs_view};
ghost use Rattle.ct_field.specs.Typed as typed;
ghost use Rattle.rel_algebra.specs.Batch.{filter_answer, project_answer};
ghost use Rattle.rel_algebra.specs.Clauses as clauses;
ghost use Rattle.rel_algebra.specs.Sums.{together};
ghost use Rattle.batch_answer.specs.Tallies.{Unfit};

use crate::Tally;
use ct_expr::{EvalFault, Expr, Exprs, eval};
use ct_value::{Row, Value, Values};
use std::alloc::Global;

/// The rows on which the condition is TRUE.
pub fn filter_rows(alloc: Global, cond: &Expr, rows: Tally) -> Result<Tally, EvalFault>
    ensures value { IfOk result (λ kept. filter_answer (expr_view cond.now) rows ≡ Some kept) }
    ensures out { IsErrOf result EvalFault.Out → Unfit (filter_answer (expr_view cond.now) rows) }
{
    let mut kept = Tally::new(alloc);
    for (row, count) in rows.into_counts() {
        let passes = holds(alloc, cond, &row)?;
        add_if(&mut kept, passes, row, count)?;
    }
    Ok(kept)
}

/// For each row, the row of the items' values.
pub fn project_rows(alloc: Global, items: &Exprs, rows: Tally) -> Result<Tally, EvalFault>
    ensures value { IfOk result (λ made. project_answer (exprs_view items.now) rows ≡ Some made) }
    ensures out { IsErrOf result EvalFault.Out → Unfit (project_answer (exprs_view items.now) rows) }
{
    let mut made = Tally::new(alloc);
    for (row, count) in rows.into_counts() {
        let values = values_at(alloc, items, &row)?;
        made.add(values, count)?;
    }
    Ok(made)
}

/// The rows of both.
pub fn union_rows(rows: Tally, others: Tally) -> Result<Tally, EvalFault>
    ensures value { IfOk result (λ all. together rows others ≡ all) }
    ensures out { IsErrOf result EvalFault.Out → Unfit (Some (together rows others)) }
{
    let mut all = rows;
    for (row, count) in others.into_counts() {
        all.add(row, count)?;
    }
    Ok(all)
}

// Adds the copies of a row where they are kept.
fn add_if(rows: &mut Tally, keeps: bool, row: Row, count: u64) -> Result<(), EvalFault>
    requires { 0 < count }
    ensures ok { OnOk result (rows.new ≡ cond keeps (bag.add_many rows.old row count) rows.old) }
    ensures out_kept { IsErrOf result EvalFault.Out → keeps ≡ true }
    ensures out { IsErrOf result EvalFault.Out → 2 ^ 64 ≤ bag.copies rows.old row + count }
{
    if keeps {
        rows.add(row, count)?;
    }
    Ok(())
}

/// The same of a row that stays where it is.
pub(crate) fn add_copy_if(
    rows: &mut Tally,
    keeps: bool,
    row: &Row,
    count: u64,
) -> Result<(), EvalFault>
    requires { 0 < count }
    ensures ok { OnOk result (rows.new ≡ cond keeps (bag.add_many rows.old row.now count) rows.old) }
    ensures out_kept { IsErrOf result EvalFault.Out → keeps ≡ true }
    ensures out { IsErrOf result EvalFault.Out → 2 ^ 64 ≤ bag.copies rows.old row.now + count }
{
    if keeps {
        let row = row.dup()?;
        rows.add(row, count)?;
    }
    Ok(())
}

/// Whether a condition is TRUE at a row.
pub(crate) fn holds(alloc: Global, cond: &Expr, row: &Row) -> Result<bool, EvalFault>
    ensures value { IfOk result (λ passes. clauses.holds (e.eval (expr_view cond.now)) row.now ≡ Some passes) }
    ensures out { IsErrOf result EvalFault.Out → clauses.holds (e.eval (expr_view cond.now)) row.now ≡ None }
{
    let value = eval(alloc, cond, row)?;
    Ok(is_true(&value))
}

/// Neither FALSE nor NULL.
pub(crate) fn is_true(value: &Value) -> bool
    ensures { result ≡ typed.is_true value.now }
{
    matches!(value, Value::Bool(true))
}

// The values of the items at a row.
fn values_at(alloc: Global, items: &Exprs, row: &Row) -> Result<Row, EvalFault>
    ensures value { IfOk result (λ values. clauses.row_of (map e.eval (exprs_view items.now)) row.now ≡ Some values) }
    ensures out { IsErrOf result EvalFault.Out → clauses.row_of (map e.eval (exprs_view items.now)) row.now ≡ None }
{
    let mut values = Values::with_capacity(alloc, items.len())?;
    for item in items.as_slice() {
        values.push(eval(alloc, item, row)?)?;
    }
    Ok(Row::from_values(values))
}
