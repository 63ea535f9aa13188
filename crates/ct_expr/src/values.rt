//! The values of expressions, of the values of their operands.
ghost use Rattle.std.specs.Prelude.{◌≡◌, ◌≤◌, ◌*ℤ◌, ◌+ℤ◌, ◌-ℤ◌, ◌^◌, pos, Some, None, length, IfOk};
ghost use Rattle.std.specs.Str.{chars};
ghost use Rattle.ct_field.specs.Numbers.{has_38_digits};
ghost use Rattle.std.specs.Ordering.{int_cmp};
ghost use Rattle.ct_expr.specs.Types.{scale, is_null};
ghost use Rattle.ct_expr.specs.Values.{and_of, or_of, not_of, is_true, ranged, minus_of, arith_of, numbers_arith, holds, number_cmp, compare_of, concat_of, char_length_of, truncated};

use crate::ArithOp;
use crate::types::{arith_ty, scale};
use ct_field::{MAX_FIELD, in_range, power_of_ten, rescale, signed};
use ct_value::{CompareOp, Memory, Text, Ty, Value};
use std::alloc::Global;
use std::cmp::Ordering;

pub(crate) fn is_null(value: &Value) -> bool
    ensures { result ≡ is_null value.now }
{
    matches!(value, Value::Null)
}

pub(crate) fn is_true(value: &Value) -> bool
    ensures { result ≡ is_true value.now }
{
    matches!(value, Value::Bool(true))
}

// AND in three-valued logic.
pub(crate) fn and_of(left: &Value, right: &Value) -> Value
    ensures { result ≡ and_of left.now right.now }
{
    match (left, right) {
        (Value::Bool(false), _) | (_, Value::Bool(false)) => Value::Bool(false),
        (Value::Bool(true), Value::Bool(true)) => Value::Bool(true),
        _ => Value::Null,
    }
}

// OR in three-valued logic.
pub(crate) fn or_of(left: &Value, right: &Value) -> Value
    ensures { result ≡ or_of left.now right.now }
{
    match (left, right) {
        (Value::Bool(true), _) | (_, Value::Bool(true)) => Value::Bool(true),
        (Value::Bool(false), Value::Bool(false)) => Value::Bool(false),
        _ => Value::Null,
    }
}

pub(crate) fn not_of(value: &Value) -> Value
    ensures { result ≡ not_of value.now }
{
    match value {
        Value::Bool(truth) => Value::Bool(!*truth),
        _ => Value::Null,
    }
}

// A number of at most 38 digits that is one of the type.
pub(crate) fn ranged(ty: Ty, num: i128) -> Option<Value>
    ensures { result ≡ ranged ty num }
{
    if has_38_digits(num) && in_range(ty, num) {
        Some(Value::Num(num))
    } else {
        None
    }
}

fn has_38_digits(num: i128) -> bool
    ensures { result ≡ has_38_digits num }
{
    num.unsigned_abs() < power_of_ten(38)
}

// The number with the other sign.
#[tactic(auto, using(crate::proofs::Numbers::ranged_beyond))]
pub(crate) fn minus_of(ty: Ty, value: &Value) -> Option<Value>
    ensures { result ≡ minus_of ty value.now }
{
    match value {
        Value::Num(num) => ranged(ty, num.checked_neg()?),
        _ => Some(Value::Null),
    }
}

// A sum, a difference or a product.
pub(crate) fn arith_of(
    op: ArithOp,
    left_ty: Ty,
    right_ty: Ty,
    left: &Value,
    right: &Value,
) -> Option<Value>
    ensures { result ≡ arith_of op left_ty right_ty left.now right.now }
{
    match (left, right) {
        (Value::Num(left), Value::Num(right)) => numbers_arith(
            op, left_ty, right_ty, *left, *right,
        ),
        _ => Some(Value::Null),
    }
}

fn numbers_arith(op: ArithOp, left_ty: Ty, right_ty: Ty, left: i128, right: i128) -> Option<Value>
    ensures { result ≡ numbers_arith op left_ty right_ty left right }
{
    match op {
        ArithOp::Add => sum(left_ty, right_ty, left, right),
        ArithOp::Sub => difference(left_ty, right_ty, left, right),
        ArithOp::Mul => multiplied(arith_ty(op, left_ty, right_ty), left, right),
    }
}

fn sum(left_ty: Ty, right_ty: Ty, left: i128, right: i128) -> Option<Value>
    ensures { result ≡ numbers_arith ArithOp.Add left_ty right_ty left right }
{
    let larger = scale(left_ty).max(scale(right_ty));
    let left = rescale(left, scale(left_ty), larger)?;
    let right = rescale(right, scale(right_ty), larger)?;
    added(arith_ty(ArithOp::Add, left_ty, right_ty), left, right)
}

fn difference(left_ty: Ty, right_ty: Ty, left: i128, right: i128) -> Option<Value>
    ensures { result ≡ numbers_arith ArithOp.Sub left_ty right_ty left right }
{
    let larger = scale(left_ty).max(scale(right_ty));
    let left = rescale(left, scale(left_ty), larger)?;
    let right = rescale(right, scale(right_ty), larger)?;
    subtracted(arith_ty(ArithOp::Sub, left_ty, right_ty), left, right)
}

// A result beyond 128 bits has more than 38 digits.
#[tactic(auto, using(crate::proofs::Numbers::ranged_beyond))]
fn added(ty: Ty, left: i128, right: i128) -> Option<Value>
    ensures { result ≡ ranged ty (left +ℤ right) }
{
    ranged(ty, left.checked_add(right)?)
}

#[tactic(auto, using(crate::proofs::Numbers::ranged_beyond))]
fn subtracted(ty: Ty, left: i128, right: i128) -> Option<Value>
    ensures { result ≡ ranged ty (left -ℤ right) }
{
    ranged(ty, left.checked_sub(right)?)
}

#[tactic(auto, using(crate::proofs::Numbers::ranged_beyond))]
fn multiplied(ty: Ty, left: i128, right: i128) -> Option<Value>
    ensures { result ≡ ranged ty (left *ℤ right) }
{
    ranged(ty, left.checked_mul(right)?)
}

fn holds(op: CompareOp, order: Ordering) -> bool
    ensures { result ≡ holds op order }
{
    match op {
        CompareOp::Eq => order.is_eq(),
        CompareOp::Ne => order.is_ne(),
        CompareOp::Lt => order.is_lt(),
        CompareOp::Le => order.is_le(),
        CompareOp::Gt => order.is_gt(),
        CompareOp::Ge => order.is_ge(),
    }
}

// Numbers of two scales in their order by value.
#[tactic(auto, using(crate::proofs::Numbers::same_scale, crate::proofs::Numbers::smaller_scale, crate::proofs::Numbers::larger_scale))]
fn number_cmp(left_scale: u32, right_scale: u32, left: i128, right: i128) -> Ordering
    requires left { left_scale ≤ 38 }
    requires right { right_scale ≤ 38 }
    ensures { result ≡ number_cmp left_scale right_scale left right }
{
    if left_scale == right_scale {
        left.cmp(&right)
    } else if left_scale < right_scale {
        raised_cmp(left, right_scale - left_scale, right)
    } else {
        raised_cmp(right, left_scale - right_scale, left).reverse()
    }
}

// A number with so many more decimals, compared. Beyond 128 bits its sign decides.
#[tactic(auto, using(crate::proofs::Numbers::beyond_below, crate::proofs::Numbers::beyond_above))]
fn raised_cmp(num: i128, decimals: u32, other: i128) -> Ordering
    requires { decimals ≤ 38 }
    ensures { result ≡ int_cmp (num *ℤ pos (10 ^ decimals)) other }
{
    match num.checked_mul(power_of_ten(decimals) as i128) {
        Some(product) => product.cmp(&other),
        None if num < 0 => Ordering::Less,
        None => Ordering::Greater,
    }
}

// Whether a comparison holds, and NULL beside NULL.
pub(crate) fn compare_of(
    op: CompareOp,
    left_ty: Ty,
    right_ty: Ty,
    left: &Value,
    right: &Value,
) -> Value
    ensures { result ≡ compare_of op left_ty right_ty left.now right.now }
{
    match (left, right) {
        (Value::Num(left), Value::Num(right)) => {
            Value::Bool(holds(
                op,
                number_cmp(scale(left_ty), scale(right_ty), *left, *right),
            ))
        }
        (Value::Text(_), Value::Text(_)) | (Value::Bool(_), Value::Bool(_)) => {
            Value::Bool(holds(op, left.cmp(right)))
        }
        _ => Value::Null,
    }
}

// One text behind the other; None where that is longer than a text may be.
pub(crate) fn concat_of(alloc: Global, left: &Value, right: &Value) -> Result<Option<Value>, Memory>
    ensures { IfOk result (λ o. o ≡ concat_of left.now right.now) }
{
    match (left, right) {
        (Value::Text(left), Value::Text(right)) => joined(alloc, left, right),
        _ => Ok(Some(Value::Null)),
    }
}

fn joined(alloc: Global, left: &Text, right: &Text) -> Result<Option<Value>, Memory>
    ensures { IfOk result (λ o. o ≡ concat_of (Value.Text left.now) (Value.Text right.now)) }
{
    let (left_len, right_len) = (left.as_slice().len(), right.as_slice().len());
    if left_len > MAX_FIELD || right_len > MAX_FIELD - left_len {
        return Ok(None);
    }
    Ok(Some(Value::Text(Text::concat(alloc, left, right)?)))
}

// The number of characters, which is an INT.
pub(crate) fn char_length_of(value: &Value) -> Option<Value>
    ensures { result ≡ char_length_of value.now }
{
    match value {
        Value::Text(text) => ranged(Ty::Int, char_count(text.as_str()) as i128),
        _ => Some(Value::Null),
    }
}

#[tactic(auto, using(crate::proofs::Texts::counted))]
fn char_count(text: &str) -> usize
    ensures { result ≡ length (chars text.now) }
{
    text.chars().count()
}

// A number with so many decimals less, toward zero.
#[tactic(auto, using(crate::proofs::Numbers::divided_small))]
pub(crate) fn truncated(num: i128, decimals: u32) -> i128
    requires { decimals ≤ 38 }
    ensures { result ≡ truncated num decimals }
{
    if decimals == 0 {
        return num;
    }
    signed(
        num.is_negative(),
        num.unsigned_abs() / power_of_ten(decimals),
    )
}
