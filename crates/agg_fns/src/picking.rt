//! The value that a row has for a call.
ghost use Rattle.std.specs.Prelude.{◌≡◌, option_copied};
ghost use Rattle.ct_value.specs.declared.value.Value.TheVariants.{Null};
ghost use Rattle.ct_field.specs.Typed.{cell, is_true};
ghost use Rattle.rel_algebra.specs.Aggregates.{argument, passes};
ghost use Rattle.agg_fns.specs.Picked.{picked};

use ct_value::{Row, Value};
use rel_algebra::Agg;

/// The value that a row has for a call; none where there is no row, or it doesn't count. `null` has to be NULL.
pub fn picked<'a>(agg: &Agg, row: Option<&'a Row>, null: &'a Value) -> Option<&'a Value>
    requires { null.now ≡ Null }
    ensures { option_copied result ≡ picked agg.now (option_copied row.entry) }
{
    let row = row?;
    if passes(agg.filter, row, null) {
        Some(argument(agg.arg, row, null))
    } else {
        None
    }
}

// Whether a row counts: the filter's column, if there is one, is TRUE.
fn passes(filter: Option<u32>, row: &Row, null: &Value) -> bool
    requires { null.now ≡ Null }
    ensures { result ≡ passes filter row.now }
{
    match filter {
        None => true,
        Some(column) => is_true(cell(row, column, null)),
    }
}

// The value that a call takes of a row, NULL where it looks at none.
fn argument<'a>(arg: Option<u32>, row: &'a Row, null: &'a Value) -> &'a Value
    requires { null.now ≡ Null }
    ensures { result.now ≡ argument arg row.now }
{
    match arg {
        None => null,
        Some(column) => cell(row, column, null),
    }
}

// The value of a column.
#[tactic(auto, using(crate::proofs::Unwrapped::unwrapped))]
fn cell<'a>(row: &'a Row, column: u32, null: &'a Value) -> &'a Value
    requires { null.now ≡ Null }
    ensures { result.now ≡ cell column row.now }
{
    match row.get(column as usize) {
        Some(value) => value,
        None => null,
    }
}

// Whether a value is TRUE.
fn is_true(value: &Value) -> bool
    ensures { result ≡ is_true value.now }
{
    match value {
        Value::Bool(truth) => *truth,
        _ => false,
    }
}
