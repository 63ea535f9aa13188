//! What is read of the partials that are merged.
ghost use Rattle.std.specs.Prelude.{◌≡◌, ◌+ℤ◌, slice_get, option_copied, IfOk, OnOk, OnErr};
ghost use Rattle.ct_value.specs.Bag as bag;
ghost use Rattle.ct_value.specs.Order.{number_of};
ghost use Rattle.ct_field.specs.Typed.{cell};
ghost use Rattle.rel_algebra.specs.Aggregates.{Values, known};
ghost use Rattle.agg_fns.specs.Standing.{first_item, last_item};

use crate::kept::{lower, raise};
use crate::number::number_of;
use ct_value::{Memory, Value};

// The number in a column, 0 where there is none.
#[tactic(auto, using(crate::proofs::Merges::unwrapped))]
pub(crate) fn number_at(partial: &[Value], column: usize) -> i128
    ensures { result ≡ number_of (cell column partial.now) }
{
    match partial.get(column) {
        Some(value) => number_of(value),
        None => 0,
    }
}

// The value of the first column, none where there is none.
fn first(partial: &[Value]) -> Option<&Value>
    ensures { option_copied result ≡ slice_get partial.now 0 }
{
    partial.get(0)
}

// Two counts together, for which there is room unless they are of more than 2^127 rows.
pub(crate) fn counts_together(count: i128, more: i128) -> Result<i128, Memory>
    ensures { IfOk result (λ both. both ≡ more +ℤ count) }
{
    more.checked_add(count).ok_or(Memory)
}

// Puts the value of the first column in the place of a greater one.
pub(crate) fn lower_by(least: &mut Option<Value>, partial: &[Value]) -> Result<(), Memory>
    ensures ok { OnOk result ((values : Values) → least.old ≡ first_item (bag.items (known values)) → least.new ≡ first_item (bag.items (known (bag.add values (cell 0 partial.now))))) }
    ensures err { OnErr result (least.new ≡ least.old) }
{
    match first(partial) {
        Some(value) => lower(least, value),
        None => Ok(()),
    }
}

// Puts the value of the first column in the place of a lesser one.
pub(crate) fn raise_by(greatest: &mut Option<Value>, partial: &[Value]) -> Result<(), Memory>
    ensures ok { OnOk result ((values : Values) → greatest.old ≡ last_item (bag.items (known values)) → greatest.new ≡ last_item (bag.items (known (bag.add values (cell 0 partial.now))))) }
    ensures err { OnErr result (greatest.new ≡ greatest.old) }
{
    match first(partial) {
        Some(value) => raise(greatest, value),
        None => Ok(()),
    }
}
