//! The numbers that accumulators keep: counts, sums and what is made of them.
ghost use Rattle.std.specs.Prelude.{◌≡◌, ◌<◌, ◌≤◌, ◌^◌, ◌==◌, ◌+ℤ◌, ◌-ℤ◌, true, false, cond, unsigned_abs, FitsSigned, SomeIff, IfSome, IfNone, IfOk, OnErr, Some, None};
ghost use Rattle.std.specs.Int.{w128};
ghost use Rattle.ct_field.specs.Numbers.{in_range, has_38_digits, signed, nearest_magnitude};
ghost use Rattle.ct_field.specs.Typed.{is_null};
ghost use Rattle.ct_value.specs.Order.{number_of};
ghost use Rattle.ct_value.specs.declared.value.Value.TheVariants.{Null};
ghost use Rattle.ct_value.specs.declared.ty.Ty.TheVariants.{Decimal};
ghost use Rattle.rel_algebra.specs.Aggregates.{sum_type, in_type, count_value, average, rounded, truncated};

use crate::acc::AccFault;
use ct_field::{in_range, rescale};
use ct_value::{Ty, Value};

// 1 for a value, 0 for NULL.
pub(crate) fn known_count(value: &Value) -> u64
    ensures { result ≡ cond (is_null value.now) 0 1 }
{
    match value {
        Value::Null => 0,
        _ => 1,
    }
}

// The number that a value adds to a sum.
pub(crate) fn number_of(value: &Value) -> i128
    ensures { result ≡ number_of value.now }
{
    match value {
        Value::Num(number) => *number,
        _ => 0,
    }
}

// The type in which a sum of values of a type stands.
pub(crate) fn sum_type(ty: Ty) -> Ty
    ensures { result ≡ sum_type ty }
{
    match ty {
        Ty::Decimal { s, .. } => Ty::Decimal { p: 38, s },
        _ => ty,
    }
}

// A sum with a number more, where it stays within the limit of sums of the type.
pub(crate) fn sum_with(ty: Ty, sum: i128, number: i128) -> Option<i128>
    ensures some { IfSome result (λ n. (n ≡ number +ℤ sum) × (in_range (sum_type ty) n ≡ true)) }
    ensures none { IfNone result (in_range (sum_type ty) (number +ℤ sum) ≡ false) }
{
    let total = number.checked_add(sum)?;
    if in_range(sum_type(ty), total) {
        Some(total)
    } else {
        None
    }
}

// A sum with a number less, where it stays within the limit of sums of the type.
pub(crate) fn sum_without(ty: Ty, sum: i128, number: i128) -> Option<i128>
    ensures some { IfSome result (λ n. (n ≡ sum -ℤ number) × (in_range (sum_type ty) n ≡ true)) }
    ensures none { IfNone result (in_range (sum_type ty) (sum -ℤ number) ≡ false) }
{
    let total = sum.checked_sub(number)?;
    if in_range(sum_type(ty), total) {
        Some(total)
    } else {
        None
    }
}

// A sum with a number in the place of another, where it stays within the limit of sums of the type.
pub(crate) fn sum_replaced(ty: Ty, sum: i128, old: i128, fresh: i128) -> Option<i128>
    ensures some { IfSome result (λ n. (n ≡ fresh +ℤ (sum -ℤ old)) × (in_range (sum_type ty) n ≡ true)) }
    ensures none { IfNone result (in_range (sum_type ty) (fresh +ℤ (sum -ℤ old)) ≡ false) }
{
    let total = replaced(sum, old, fresh)?;
    if in_range(sum_type(ty), total) {
        Some(total)
    } else {
        None
    }
}

// The same without a limit, where it can be told: in whichever order the parts can be added.
fn replaced(sum: i128, old: i128, fresh: i128) -> Option<i128>
    ensures { SomeIff result (FitsSigned w128 (fresh +ℤ (sum -ℤ old))) (fresh +ℤ (sum -ℤ old)) }
{
    match sum.checked_sub(old) {
        Some(rest) => fresh.checked_add(rest),
        None => sum.checked_add(fresh)?.checked_sub(old),
    }
}

// A number as a value of the type.
pub(crate) fn in_type(ty: Ty, number: i128) -> Option<Value>
    ensures { result ≡ in_type ty number }
{
    if in_range(ty, number) {
        Some(Value::Num(number))
    } else {
        None
    }
}

// The sum of so many values, and NULL of none.
pub(crate) fn sum_value(ty: Ty, count: u64, sum: i128) -> Option<Value>
    ensures { result ≡ cond (count == 0) (Some Null) (in_type (sum_type ty) sum) }
{
    if count == 0 {
        return Some(Value::Null);
    }
    in_type(sum_type(ty), sum)
}

// The average of so many values, and NULL of none.
pub(crate) fn average_value(ty: Ty, count: u64, sum: i128) -> Option<Value>
    requires { has_38_digits sum ≡ true }
    ensures { result ≡ cond (count == 0) (Some Null) (average ty sum count) }
{
    if count == 0 {
        return Some(Value::Null);
    }
    match ty {
        Ty::Decimal { s, .. } => average_decimal(s, count, sum),
        _ => Some(Value::Num(truncated(sum, count))),
    }
}

// The average of decimals, with at least 6 decimals.
fn average_decimal(s: u32, count: u64, sum: i128) -> Option<Value>
    requires digits { has_38_digits sum ≡ true }
    requires some { 0 < count }
    ensures { result ≡ average (Decimal 38 s) sum count }
{
    let raised = rescale(sum, 0, 6u32.saturating_sub(s))?;
    Some(Value::Num(rounded(raised, count)))
}

// The quotient, toward zero.
fn truncated(number: i128, count: u64) -> i128
    requires digits { has_38_digits number ≡ true }
    requires some { 0 < count }
    ensures { result ≡ truncated number count }
{
    signed(number.is_negative(), number.unsigned_abs() / count as u128)
}

// The nearest quotient, and of two equally near ones the one farther from zero.
fn rounded(number: i128, count: u64) -> i128
    requires digits { has_38_digits number ≡ true }
    requires some { 0 < count }
    ensures { result ≡ rounded number count }
{
    signed(
        number.is_negative(),
        nearest_magnitude(number.unsigned_abs(), count as u128),
    )
}

// A quotient, rounded up from a half on.
fn nearest_magnitude(magnitude: u128, divisor: u128) -> u128
    requires divisor { 0 < divisor }
    requires small { divisor < 2 ^ 64 }
    requires bound { magnitude < 10 ^ 38 }
    ensures value { result ≡ nearest_magnitude magnitude divisor }
    ensures bound { result ≤ 10 ^ 38 }
{
    let (whole, rest) = (magnitude / divisor, magnitude % divisor);
    if rest < divisor - rest {
        whole
    } else {
        whole + 1
    }
}

// A number of this magnitude, negative or not.
fn signed(negative: bool, magnitude: u128) -> i128
    requires { magnitude ≤ 10 ^ 38 }
    ensures { result ≡ signed negative magnitude }
{
    let number = magnitude as i128;
    if negative { -number } else { number }
}

// A count as a BIGINT, or out of range.
pub(crate) fn counted(count: u64) -> Result<Value, AccFault>
    ensures value { IfOk result (λ value. count_value count ≡ Some value) }
    ensures out { OnErr result (count_value count ≡ None) }
{
    in_type(Ty::BigInt, count as i128).ok_or(AccFault::Out)
}
