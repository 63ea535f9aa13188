//! Numbers that may be below 0: what has come less what has gone.
ghost use Rattle.std.specs.Prelude.{◌≡◌, pos, neg_ℤ, ◌+ℤ◌, ◌-ℤ◌, ◌<ℤ◌, ◌≤ℤ◌, ◌^◌, cond, IfOk, [], ◌∷◌};
ghost use Rattle.ct_field.specs.Typed.{is_null};
ghost use Rattle.ct_value.specs.declared.value.Value.TheVariants.{Num};

use ct_value::{Memory, Row, Value, Values};
use std::alloc::Global;

// A count with a value come, which counts unless it is NULL.
pub(crate) fn count_with(count: i64, value: &Value) -> i64
    requires { (count +ℤ pos 1) <ℤ pos (2 ^ 63) }
    ensures { result ≡ pos (cond (is_null value.now) 0 1) +ℤ count }
{
    match value {
        Value::Null => count,
        _ => count + 1,
    }
}

// A count with a value gone, which counts unless it is NULL.
pub(crate) fn count_without(count: i64, value: &Value) -> i64
    requires { neg_ℤ (pos (2 ^ 63)) ≤ℤ (count -ℤ pos 1) }
    ensures { result ≡ count -ℤ pos (cond (is_null value.now) 0 1) }
{
    match value {
        Value::Null => count,
        _ => count - 1,
    }
}

// The row of one value.
pub(crate) fn row_of(alloc: Global, value: Value) -> Result<Row, Memory>
    ensures { IfOk result (λ row. row ≡ value ∷ []) }
{
    Row::from_values(Values::new(alloc)).with(value)
}

// The row of a count and a sum.
pub(crate) fn row_of_numbers(alloc: Global, count: i64, sum: i128) -> Result<Row, Memory>
    ensures { IfOk result (λ row. row ≡ Num count ∷ Num sum ∷ []) }
{
    row_of(alloc, Value::Num(count as i128))?.with(Value::Num(sum))
}
