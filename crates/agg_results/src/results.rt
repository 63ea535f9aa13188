//! Counts, sums and averages, of totals.
ghost use Rattle.std.specs.Prelude.{◌≡◌, ◌==◌, ◌+◌, ◌*◌, ◌<◌, ◌≤◌, ◌^◌, ◌-◌, ◌+ℤ◌, ℕ, ℤ, pos, neg_ℤ, unsigned_abs, cond, None, Some, IfSome, IfNone};
ghost use Rattle.ct_value.specs.declared.value.Value.TheVariants as v;
ghost use Rattle.ct_field.specs.Numbers as n;
ghost use Rattle.ct_value.specs.declared.ty.Ty.TheVariants as ty;
ghost use Rattle.rel_algebra.specs.Aggregates as a;
ghost use Rattle.agg_results.specs.Sums.{IsBeyond};
ghost use Rattle.agg_results.specs.Wide.{wide_number};

use crate::totals::Totals;
use crate::wide::Wide;
use ct_field::{in_range, rescale, signed};
use ct_value::{Ty, Value};

// 2^127.
const BEYOND: u128 = 1 << 127;

// 10^38, the least number of 39 digits.
const DIGITS_39: u128 = 100_000_000_000_000_000_000_000_000_000_000_000_000;

/// A count, where it is a BIGINT.
pub(crate) fn count_value(count: u128) -> Option<Value>
    ensures { result ≡ a.count_value count }
{
    if count < 1 << 63 {
        Some(Value::Num(count as i128))
    } else {
        None
    }
}

/// The sum of the values, where it is of its type; NULL where there is no value.
pub(crate) fn sum_value(ty: Ty, totals: Totals) -> Option<Value>
    ensures { (sum : ℤ) → sum +ℤ pos (wide_number totals.below) ≡ pos (wide_number totals.above) → result ≡ cond (totals.known == 0) (Some v.Null) (a.in_type (a.sum_type ty) sum) }
{
    if totals.known == 0 {
        return Some(Value::Null);
    }
    match sum_number(totals.above, totals.below) {
        None => None,
        Some(sum) => in_type(sum_type(ty), sum),
    }
}

// A number of the type, where it is one.
fn in_type(ty: Ty, number: i128) -> Option<Value>
    ensures { result ≡ a.in_type ty number }
{
    if in_range(ty, number) {
        Some(Value::Num(number))
    } else {
        None
    }
}

// The type in which a sum of values of a type stands.
fn sum_type(ty: Ty) -> Ty
    ensures { result ≡ a.sum_type ty }
{
    match ty {
        Ty::Decimal { s, .. } => Ty::Decimal { p: 38, s },
        other => other,
    }
}

// The difference, where it lies within 127 bits.
fn sum_number(above: Wide, below: Wide) -> Option<i128>
    ensures within { IfSome result (λ sum. sum +ℤ pos (wide_number below) ≡ pos (wide_number above)) }
    ensures beyond { IfNone result (IsBeyond (wide_number above) (wide_number below)) }
{
    if above.is_below(below) {
        let magnitude = narrow(below.minus(above))?;
        Some(-magnitude)
    } else {
        narrow(above.minus(below))
    }
}

// The number, where it is below 2^127.
fn narrow(number: Wide) -> Option<i128>
    ensures within { IfSome result (λ narrowed. narrowed ≡ pos (wide_number number)) }
    ensures beyond { IfNone result (2 ^ 127 ≤ wide_number number) }
{
    if number.high == 0 && number.low < BEYOND {
        Some(number.low as i128)
    } else {
        None
    }
}

/// The average of the values, a whole number truncated and a decimal rounded; NULL where there is no value.
pub(crate) fn average_value(ty: Ty, totals: Totals) -> Option<Value>
    requires above_most { wide_number totals.above ≤ 170141183460469231731687303715884105727 * totals.known }
    requires below_most { wide_number totals.below ≤ 2 ^ 127 * totals.known }
    ensures { (sum : ℤ) → sum +ℤ pos (wide_number totals.below) ≡ pos (wide_number totals.above) → result ≡ cond (totals.known == 0) (Some v.Null) (a.average ty sum totals.known) }
{
    if totals.known == 0 {
        return Some(Value::Null);
    }
    match ty {
        Ty::Decimal { s, .. } => decimal_average(s, totals),
        _ => Some(Value::Num(whole_average(totals))),
    }
}

// The average of whole numbers, toward zero.
fn whole_average(totals: Totals) -> i128
    requires some { 0 < totals.known }
    requires above_most { wide_number totals.above ≤ 170141183460469231731687303715884105727 * totals.known }
    requires below_most { wide_number totals.below ≤ 2 ^ 127 * totals.known }
    ensures { (sum : ℤ) → sum +ℤ pos (wide_number totals.below) ≡ pos (wide_number totals.above) → result ≡ a.truncated sum totals.known }
{
    if totals.above.is_below(totals.below) {
        let magnitude = totals.below.minus(totals.above);
        negated(magnitude.quotient(totals.known))
    } else {
        let magnitude = totals.above.minus(totals.below);
        magnitude.quotient(totals.known) as i128
    }
}

// A number of this magnitude, at most 2^127, below 0.
fn negated(magnitude: u128) -> i128
    requires { magnitude ≤ 2 ^ 127 }
    ensures { result ≡ neg_ℤ (pos magnitude) }
{
    if magnitude == BEYOND {
        i128::MIN
    } else {
        -(magnitude as i128)
    }
}

// The average of decimals with so many digits behind the point.
fn decimal_average(scale: u32, totals: Totals) -> Option<Value>
    requires some { 0 < totals.known }
    ensures { (digits : ℕ) (sum : ℤ) → sum +ℤ pos (wide_number totals.below) ≡ pos (wide_number totals.above) → result ≡ a.average (ty.Decimal digits scale) sum totals.known }
{
    let sum = sum_number(totals.above, totals.below)?;
    let raised = raised_sum(scale, sum)?;
    Some(Value::Num(rounded(raised, totals.known)))
}

// A sum with the decimals of its average, where both have at most 38 digits.
fn raised_sum(scale: u32, sum: i128) -> Option<i128>
    ensures value { result ≡ cond (n.has_38_digits sum) (n.raised sum (a.avg_scale scale - scale)) None }
    ensures small { IfSome result (λ raised. unsigned_abs raised < 10 ^ 38) }
{
    if sum.unsigned_abs() >= DIGITS_39 {
        return None;
    }
    if scale < 6 {
        rescale(sum, scale, 6)
    } else {
        Some(sum)
    }
}

// A number parted into so many, to the nearest, and of two equally near ones the one farther from zero.
fn rounded(number: i128, count: u128) -> i128
    requires some { 0 < count }
    requires small { unsigned_abs number < 10 ^ 38 }
    ensures { result ≡ a.rounded number count }
{
    signed(number < 0, nearest(number.unsigned_abs(), count))
}

// The same without a sign.
fn nearest(number: u128, count: u128) -> u128
    requires some { 0 < count }
    requires small { number < 10 ^ 38 }
    ensures value { result ≡ n.nearest_magnitude number count }
    ensures fits { result < 2 ^ 127 }
{
    let quotient = number / count;
    let rest = number % count;
    if rest < count - rest {
        quotient
    } else {
        quotient + 1
    }
}
