//! What is kept of the values come and gone of one call.
ghost use Rattle.std.specs.Prelude.{◌≡◌, ◌+◌, ◌<◌, ◌^◌, true, false, cond, not, is_some, IfErr, OnOk};
ghost use Rattle.ct_value.specs.Bag as bag;
ghost use Rattle.ct_change.specs.Changelog.{Rows};
ghost use Rattle.rel_algebra.specs.declared.agg.AggCall.{AggCall};
ghost use Rattle.rel_algebra.specs.Aggregates.{Values, size, values_of};
ghost use Rattle.agg_fns.specs.ComeAndGone.{StandsForBoth};
ghost use Rattle.agg_fns.specs.Partial.{has_partial, is_signed, partial_fits, partial_of};
ghost use Rattle.agg_fns.specs.Reading.{all_blank, parts_by};
ghost use Rattle.agg_fns.specs.declared.acc.AccFault.TheVariants.{Out};
ghost use Rattle.emission_rules.specs.Grouping.{row_count};
ghost use Rattle.op_local.specs.Amounting.{Stands, with_come, with_gone};

use agg_fns::{AccFault, LocalAcc, picked};
use ct_value::{Row, Value};
use rel_algebra::Agg;

/// A call of an aggregate function, with what it keeps of values come and gone.
#[derive(Drop)]
pub struct Tally {
    pub agg: Agg,
    pub acc: LocalAcc,
}

impl Tally {
    // The tally of a call that has partials, of no rows.
    pub(crate) fn new(agg: Agg) -> Tally
        requires { has_partial agg.call ≡ true }
        ensures agg { result.agg ≡ agg }
        ensures stands { Stands bag.none bag.none result }
    {
        Tally {
            agg,
            acc: LocalAcc::new(agg.call),
        }
    }

    // Takes a row come, or else gone. It is out of range exactly where the sum then has more than 38 digits.
    pub(crate) fn take(&mut self, comes: bool, row: &Row) -> Result<(), AccFault>
        requires signed { comes ≡ false → is_signed self.old.agg.call ≡ true }
        requires stands { (come : Rows) × (gone : Rows) × Stands come gone self.old × (row_count come + row_count gone + 1 < 2 ^ 63) }
        ensures agg { self.new.agg ≡ self.old.agg }
        ensures stands { OnOk result ((come gone : Rows) → Stands come gone self.old → Stands (with_come come comes row.now) (with_gone gone comes row.now) self.new) }
        ensures out { IfErr result (λ fault. fault ≡ Out → (come gone : Rows) → Stands come gone self.old → partial_fits self.old.agg.call (values_of self.old.agg (with_come come comes row.now)) (values_of self.old.agg (with_gone gone comes row.now)) ≡ false) }
    {
        let null = Value::Null;
        let agg = self.agg;
        match picked(&agg, Some(row), &null) {
            None => Ok(()),
            Some(value) => take_value(&mut self.acc, comes, value),
        }
    }
}

// Takes a value come, or else gone.
fn take_value(acc: &mut LocalAcc, comes: bool, value: &Value) -> Result<(), AccFault>
    requires { (call : AggCall) × (come : Values) × (gone : Values) × StandsForBoth call acc.old come gone × (comes ≡ false → is_signed call ≡ true) × (size come + size gone + 1 < 2 ^ 63) }
    ensures stands { OnOk result ((call : AggCall) (come gone : Values) → StandsForBoth call acc.old come gone → StandsForBoth call acc.new (cond comes (bag.add come value.now) come) (cond comes gone (bag.add gone value.now))) }
    ensures out { IfErr result (λ fault. fault ≡ Out → (call : AggCall) (come gone : Values) → StandsForBoth call acc.old come gone → partial_fits call (cond comes (bag.add come value.now) come) (cond comes gone (bag.add gone value.now)) ≡ false) }
{
    if comes {
        acc.add(value)
    } else {
        acc.remove(value)
    }
}

// Whether the partial tells nothing: its numbers are 0, and no least or greatest value stands.
pub(crate) fn is_blank(acc: &LocalAcc) -> bool
    ensures { (call : AggCall) (come gone : Values) → StandsForBoth call acc.now come gone → result ≡ all_blank (parts_by call) (partial_of call come gone) }
{
    match acc {
        LocalAcc::RowCount(count) => *count == 0,
        LocalAcc::ValueCount(count) => *count == 0,
        LocalAcc::Total(numbers) => numbers.count == 0 && numbers.sum == 0,
        LocalAcc::Average(numbers) => numbers.count == 0 && numbers.sum == 0,
        LocalAcc::Least(kept) => has_none(kept),
        LocalAcc::Greatest(kept) => has_none(kept),
    }
}

// Whether no least or greatest value stands.
fn has_none(kept: &Option<Value>) -> bool
    ensures { result ≡ not (is_some kept.now) }
{
    match kept {
        Some(_) => false,
        None => true,
    }
}
