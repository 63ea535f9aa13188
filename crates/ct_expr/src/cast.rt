//! CAST.
ghost use Rattle.std.specs.Prelude.{◌≡◌, IfOk, option_and_then};
ghost use Rattle.ct_field.specs.Numbers.{rescale};
ghost use Rattle.ct_field.specs.Fields.{number_text};
ghost use Rattle.ct_expr.specs.Types.{scale};
ghost use Rattle.ct_expr.specs.Values.{cast_of, cast_number, cast_truth, ranged};

use crate::types::scale;
use crate::values::{ranged, truncated};
use ct_field::{number_text, rescale};
use ct_value::{Memory, Text, Ty, Value};
use std::alloc::Global;

/// A value of one type as one of another; None where it is out of range.
pub(crate) fn cast_of(
    alloc: Global,
    from: Ty,
    to: Ty,
    value: &Value,
) -> Result<Option<Value>, Memory>
    ensures { IfOk result (λ o. o ≡ cast_of from to value.now) }
{
    match value {
        Value::Null => Ok(Some(Value::Null)),
        Value::Num(num) => cast_number(alloc, from, to, *num),
        Value::Bool(truth) => Ok(Some(cast_truth(alloc, to, *truth)?)),
        Value::Text(text) => match to {
            Ty::Text => Ok(Some(Value::Text(text.dup()?))),
            _ => Ok(Some(Value::Null)),
        },
    }
}

fn cast_number(alloc: Global, from: Ty, to: Ty, num: i128) -> Result<Option<Value>, Memory>
    ensures { IfOk result (λ o. o ≡ cast_number from to num) }
{
    match to {
        Ty::Bool => Ok(Some(Value::Null)),
        Ty::Int | Ty::BigInt => Ok(ranged(to, truncated(num, scale(from)))),
        Ty::Decimal { .. } => Ok(rescaled(from, to, num)),
        Ty::Text => Ok(Some(Value::Text(number_text(alloc, scale(from), num)?))),
    }
}

// A number at the scale of a type.
fn rescaled(from: Ty, to: Ty, num: i128) -> Option<Value>
    ensures { result ≡ option_and_then (ranged to) (rescale num (scale from) (scale to)) }
{
    ranged(to, rescale(num, scale(from), scale(to))?)
}

fn cast_truth(alloc: Global, to: Ty, truth: bool) -> Result<Value, Memory>
    ensures { IfOk result (λ v. v ≡ cast_truth to truth) }
{
    match to {
        Ty::Bool => Ok(Value::Bool(truth)),
        Ty::Text => Ok(Value::Text(Text::from_str(alloc, if truth { "TRUE" } else { "FALSE" })?)),
        _ => Ok(Value::Null),
    }
}
