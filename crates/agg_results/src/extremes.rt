//! The least and the greatest of the values that a call takes.
ghost use Rattle.std.specs.Prelude.{◌≡◌, option_copied};
ghost use Rattle.ct_value.specs.Bag as bag;
ghost use Rattle.rel_algebra.specs.Aggregates as a;
ghost use Rattle.agg_results.specs.Extremes.{lesser, greater};
ghost use Rattle.agg_results.specs.Taken as t;

use crate::totals::taken;
use ct_value::{Row, Value};
use rel_algebra::Agg;

/// The least value that a call takes; none where there is none.
pub(crate) fn least<'a>(agg: &Agg, members: &'a [(Row, u64)]) -> Option<&'a Value>
    requires { t.AreCounted members.now }
    ensures { t.or_null (option_copied result) ≡ a.first_value (bag.items (a.known (a.values_of agg.now (bag.bag_of_counts members.now)))) }
{
    let mut best: Option<&Value> = None;
    let mut place = members.len();
    'rows: while place > 0 {
        place -= 1;
        let (row, _) = &members[place];
        best = lesser(taken(agg, row), best);
    }
    best
}

/// The greatest value that a call takes; none where there is none.
pub(crate) fn greatest<'a>(agg: &Agg, members: &'a [(Row, u64)]) -> Option<&'a Value>
    requires { t.AreCounted members.now }
    ensures { t.or_null (option_copied result) ≡ a.last_value (bag.items (a.known (a.values_of agg.now (bag.bag_of_counts members.now)))) }
{
    let mut best: Option<&Value> = None;
    let mut place = members.len();
    'rows: while place > 0 {
        place -= 1;
        let (row, _) = &members[place];
        best = greater(taken(agg, row), best);
    }
    best
}

// The lesser of two values, where both are there.
fn lesser<'a>(value: Option<&'a Value>, best: Option<&'a Value>) -> Option<&'a Value>
    ensures { option_copied result ≡ lesser (option_copied value.entry) (option_copied best.entry) }
{
    match (value, best) {
        (Some(value), Some(other)) => {
            if value.cmp(other).is_gt() {
                Some(other)
            } else {
                Some(value)
            }
        }
        (Some(value), None) => Some(value),
        (None, best) => best,
    }
}

// The greater of two values, where both are there.
fn greater<'a>(value: Option<&'a Value>, best: Option<&'a Value>) -> Option<&'a Value>
    ensures { option_copied result ≡ greater (option_copied value.entry) (option_copied best.entry) }
{
    match (value, best) {
        (Some(value), Some(other)) => {
            if value.cmp(other).is_gt() {
                Some(value)
            } else {
                Some(other)
            }
        }
        (Some(value), None) => Some(value),
        (None, best) => best,
    }
}
