ghost use Rattle.std.specs.Prelude.{◌≡◌, ◌+◌, ◌<◌, ◌^◌, true, false, IfOk, IfErr, OnErr};
ghost use Rattle.ct_value.specs.Bag as bag;
ghost use Rattle.rel_algebra.specs.declared.agg.AggCall.{AggCall};
ghost use Rattle.rel_algebra.specs.Aggregates.{Values, size};
ghost use Rattle.agg_fns.specs.ComeAndGone.{StandsForBoth};
ghost use Rattle.agg_fns.specs.Partial.{has_partial, is_signed, partial_of, partial_fits};
ghost use Rattle.agg_fns.specs.declared.acc.AccFault.TheVariants.{Out};

use crate::acc::AccFault;
use crate::kept::{lower, or_null, raise};
use crate::net::{count_with, count_without, row_of, row_of_numbers};
use crate::net_numbers::NetNumbers;
use ct_value::{Memory, Row, Value};
use rel_algebra::AggCall;
use std::alloc::Global;

/// What one aggregate keeps of values come and gone, until its partial goes to where the values of all are merged.
#[derive(Drop)]
pub enum LocalAcc {
    /// `COUNT(*)`: how many more rows have come than gone.
    RowCount(i64),
    /// `COUNT(x)`: how many more values that aren't NULL have come than gone.
    ValueCount(i64),
    /// `SUM(x)`.
    Total(NetNumbers),
    /// `AVG(x)`.
    Average(NetNumbers),
    /// `MIN(x)` of values that stay.
    Least(Option<Value>),
    /// `MAX(x)` of values that stay.
    Greatest(Option<Value>),
}

impl LocalAcc {
    /// The accumulator of a call that has partials, of no values.
    #[tactic(auto, using(crate::proofs::Locals::net_none, crate::proofs::Locals::net_known_none, crate::proofs::Locals::net_sum_none, crate::proofs::Stands::first_none, crate::proofs::Stands::last_none))]
    pub fn new(call: AggCall) -> LocalAcc
        requires { has_partial call ≡ true }
        ensures { StandsForBoth call result bag.none bag.none }
    {
        match call {
            AggCall::CountAll => LocalAcc::RowCount(0),
            AggCall::Count => LocalAcc::ValueCount(0),
            AggCall::CountDistinct => unreachable!(),
            AggCall::Sum => LocalAcc::Total(NetNumbers::new()),
            AggCall::Avg => LocalAcc::Average(NetNumbers::new()),
            AggCall::Min => LocalAcc::Least(None),
            AggCall::Max => LocalAcc::Greatest(None),
        }
    }

    /// Takes a value come. It is out of range exactly where the sum then has more than 38 digits; after an error the accumulator is
    /// as before.
    #[tactic(auto, using(crate::proofs::Locals::net_come, crate::proofs::Locals::net_known_come, crate::proofs::Locals::net_sum_come, crate::proofs::Locals::rows_above, crate::proofs::Locals::values_above, crate::proofs::Locals::total_above, crate::proofs::Locals::average_above, crate::proofs::Added::known_add))]
    pub fn add(&mut self, value: &Value) -> Result<(), AccFault>
        requires { (call : AggCall) × (come : Values) × (gone : Values) × StandsForBoth call self.old come gone × (size come + size gone + 1 < 2 ^ 63) }
        ensures stands { IfOk result (λ _. (call : AggCall) (come gone : Values) → StandsForBoth call self.old come gone → StandsForBoth call self.new (bag.add come value.now) gone) }
        ensures fits { IfOk result (λ _. (call : AggCall) (come gone : Values) → StandsForBoth call self.old come gone → partial_fits call (bag.add come value.now) gone ≡ true) }
        ensures out { IfErr result (λ fault. fault ≡ Out → (call : AggCall) (come gone : Values) → StandsForBoth call self.old come gone → partial_fits call (bag.add come value.now) gone ≡ false) }
        ensures same { OnErr result (self.new ≡ self.old) }
    {
        match self {
            LocalAcc::RowCount(count) => {
                *count += 1;
                Ok(())
            }
            LocalAcc::ValueCount(count) => {
                *count = count_with(*count, value);
                Ok(())
            }
            LocalAcc::Total(numbers) => numbers.add(value),
            LocalAcc::Average(numbers) => numbers.add(value),
            LocalAcc::Least(kept) => Ok(lower(kept, value)?),
            LocalAcc::Greatest(kept) => Ok(raise(kept, value)?),
        }
    }

    /// Takes a value gone, whether or not it came here; of MIN and MAX none may go. It is out of range exactly where the sum then has
    /// more than 38 digits; after an error the accumulator is as before.
    #[tactic(auto, using(crate::proofs::Locals::net_gone, crate::proofs::Locals::net_known_gone, crate::proofs::Locals::net_sum_gone, crate::proofs::Locals::rows_below, crate::proofs::Locals::values_below, crate::proofs::Locals::total_below, crate::proofs::Locals::average_below))]
    pub fn remove(&mut self, value: &Value) -> Result<(), AccFault>
        requires { (call : AggCall) × (come : Values) × (gone : Values) × StandsForBoth call self.old come gone × (is_signed call ≡ true) × (size come + size gone + 1 < 2 ^ 63) }
        ensures stands { IfOk result (λ _. (call : AggCall) (come gone : Values) → StandsForBoth call self.old come gone → StandsForBoth call self.new come (bag.add gone value.now)) }
        ensures fits { IfOk result (λ _. (call : AggCall) (come gone : Values) → StandsForBoth call self.old come gone → partial_fits call come (bag.add gone value.now) ≡ true) }
        ensures out { IfErr result (λ fault. fault ≡ Out → (call : AggCall) (come gone : Values) → StandsForBoth call self.old come gone → partial_fits call come (bag.add gone value.now) ≡ false) }
        ensures same { OnErr result (self.new ≡ self.old) }
    {
        match self {
            LocalAcc::RowCount(count) => {
                *count -= 1;
                Ok(())
            }
            LocalAcc::ValueCount(count) => {
                *count = count_without(*count, value);
                Ok(())
            }
            LocalAcc::Total(numbers) => numbers.remove(value),
            LocalAcc::Average(numbers) => numbers.remove(value),
            LocalAcc::Least(_) | LocalAcc::Greatest(_) => unreachable!(),
        }
    }

    /// The partial of the values come and gone.
    #[tactic(auto, using(crate::proofs::Stands::first_unwrapped, crate::proofs::Stands::last_unwrapped))]
    pub fn partial(&self, alloc: Global) -> Result<Row, Memory>
        requires { (call : AggCall) × (come : Values) × (gone : Values) × StandsForBoth call self.now come gone }
        ensures { IfOk result (λ partial. (call : AggCall) (come gone : Values) → StandsForBoth call self.now come gone → partial ≡ partial_of call come gone) }
    {
        match self {
            LocalAcc::RowCount(count) => row_of(alloc, Value::Num(*count as i128)),
            LocalAcc::ValueCount(count) => row_of(alloc, Value::Num(*count as i128)),
            LocalAcc::Total(numbers) => row_of_numbers(alloc, numbers.count, numbers.sum),
            LocalAcc::Average(numbers) => row_of_numbers(alloc, numbers.count, numbers.sum),
            LocalAcc::Least(kept) => row_of(alloc, or_null(kept.as_ref())?),
            LocalAcc::Greatest(kept) => row_of(alloc, or_null(kept.as_ref())?),
        }
    }
}
