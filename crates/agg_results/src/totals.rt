//! Numbers of the values that a call takes: how many, and how much above and below 0.
ghost use Rattle.std.specs.Prelude.{◌≡◌, ◌+◌, ◌*◌, ◌<◌, ◌≤◌, ◌^◌, ◌-◌, option_copied, unsigned_abs};
ghost use Rattle.ct_field.specs.Typed as typed;
ghost use Rattle.ct_value.specs.Order.{number_of};
ghost use Rattle.rel_algebra.specs.Aggregates as a;
ghost use Rattle.agg_results.specs.Taken as t;
ghost use Rattle.agg_results.specs.Wide.{wide_number};

use crate::wide::Wide;
use ct_value::{Row, Value};
use rel_algebra::Agg;

/// What the values of a call come to.
#[derive(Clone, Copy, Debug)]
pub(crate) struct Totals {
    /// How many rows count.
    pub(crate) rows: u128,
    /// Of how many a value is known.
    pub(crate) known: u128,
    /// The sum of the numbers above 0.
    pub(crate) above: Wide,
    /// How far the numbers below 0 lie below it together.
    pub(crate) below: Wide,
}

/// The totals of a call over rows with counts.
pub(crate) fn total_of(agg: &Agg, members: &[(Row, u64)]) -> Totals
    requires { t.AreCounted members.now }
    ensures rows { result.rows ≡ t.together_weigh (t.counts agg.now) members.now }
    ensures known { result.known ≡ t.together_weigh (t.known_in agg.now) members.now }
    ensures above { wide_number result.above ≡ t.together_weigh (t.above_in agg.now) members.now }
    ensures below { wide_number result.below ≡ t.together_weigh (t.below_in agg.now) members.now }
    ensures above_most { wide_number result.above ≤ 170141183460469231731687303715884105727 * result.known }
    ensures below_most { wide_number result.below ≤ 2 ^ 127 * result.known }
{
    let mut sum = Totals {
        rows: 0,
        known: 0,
        above: Wide::zero(),
        below: Wide::zero(),
    };
    for (row, count) in members {
        sum = with_row(sum, agg, row, *count);
    }
    sum
}

// The totals with so many copies of a row.
fn with_row(before: Totals, agg: &Agg, row: &Row, count: u64) -> Totals
    requires rows_fit { before.rows + count < 2 ^ 128 }
    requires known_fits { before.known + count < 2 ^ 128 }
    requires above_most { wide_number before.above ≤ 170141183460469231731687303715884105727 * before.known }
    requires below_most { wide_number before.below ≤ 2 ^ 127 * before.known }
    ensures rows { result.rows ≡ before.rows + count * t.counts agg.now row.now }
    ensures known { result.known ≡ before.known + count * t.known_in agg.now row.now }
    ensures above { wide_number result.above ≡ wide_number before.above + count * t.above_in agg.now row.now }
    ensures below { wide_number result.below ≡ wide_number before.below + count * t.below_in agg.now row.now }
    ensures above_most { wide_number result.above ≤ 170141183460469231731687303715884105727 * result.known }
    ensures below_most { wide_number result.below ≤ 2 ^ 127 * result.known }
{
    if !passes(agg.filter, row) {
        return before;
    }
    let counted = Totals {
        rows: before.rows + count as u128,
        ..before
    };
    match taken(agg, row) {
        None => counted,
        Some(value) => with_value(counted, value, count),
    }
}

// The totals with so many copies of a value.
fn with_value(before: Totals, value: &Value, count: u64) -> Totals
    requires known_fits { before.known + count < 2 ^ 128 }
    requires above_most { wide_number before.above ≤ 170141183460469231731687303715884105727 * before.known }
    requires below_most { wide_number before.below ≤ 2 ^ 127 * before.known }
    ensures rows { result.rows ≡ before.rows }
    ensures known { result.known ≡ before.known + count }
    ensures above { wide_number result.above ≡ wide_number before.above + count * t.above value.now }
    ensures below { wide_number result.below ≡ wide_number before.below + count * t.below value.now }
    ensures above_most { wide_number result.above ≤ 170141183460469231731687303715884105727 * result.known }
    ensures below_most { wide_number result.below ≤ 2 ^ 127 * result.known }
{
    let number = number_in(value);
    let magnitude = Wide::product(count as u128, number.unsigned_abs());
    let known = before.known + count as u128;
    if number < 0 {
        Totals {
            known,
            below: before.below.plus(magnitude),
            ..before
        }
    } else {
        Totals {
            known,
            above: before.above.plus(magnitude),
            ..before
        }
    }
}

// The number that a value is, and 0 for others.
fn number_in(value: &Value) -> i128
    ensures { result ≡ number_of value.now }
{
    match value {
        Value::Num(number) => *number,
        _ => 0,
    }
}

/// The value that a call takes of a row; none where the row doesn't count or the value is NULL.
pub(crate) fn taken<'a>(agg: &Agg, row: &'a Row) -> Option<&'a Value>
    ensures { option_copied result ≡ t.taken agg.now row.now }
{
    if !passes(agg.filter, row) {
        return None;
    }
    known(row.get(agg.arg? as usize))
}

// The value, where there is one and it isn't NULL.
fn known(value: Option<&Value>) -> Option<&Value>
    ensures { option_copied result ≡ t.unless_null (option_copied value.entry) }
{
    match value {
        Some(Value::Null) | None => None,
        Some(value) => Some(value),
    }
}

// Whether a row counts.
fn passes(filter: Option<u32>, row: &Row) -> bool
    ensures { result ≡ a.passes filter row.now }
{
    match filter {
        None => true,
        Some(column) => is_true(row.get(column as usize)),
    }
}

// Whether a value is there and TRUE.
fn is_true(value: Option<&Value>) -> bool
    ensures { result ≡ typed.is_true (t.or_null (option_copied value.entry)) }
{
    matches!(value, Some(Value::Bool(true)))
}
