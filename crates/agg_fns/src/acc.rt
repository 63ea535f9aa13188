ghost use Rattle.std.specs.Prelude.{◌≡◌, ◌+◌, ◌<◌, ◌^◌, true, false, None, Some, IfOk, IfErr, OnErr};
ghost use Rattle.ct_value.specs.Bag as bag;
ghost use Rattle.ct_value.specs.declared.value.Value.{Value};
ghost use Rattle.ct_value.specs.declared.ty.Ty.{Ty};
ghost use Rattle.rel_algebra.specs.declared.agg.AggCall.{AggCall};
ghost use Rattle.rel_algebra.specs.Aggregates.{Values, size, agg_value, sum_fits};
ghost use Rattle.agg_fns.specs.Standing.{StandsFor, retracts};
ghost use Rattle.agg_fns.specs.declared.acc.AccFault.TheVariants.{Out};

use crate::distinct::Distinct;
use crate::kept::{keep, keep_for, lose, lower, or_null, raise};
use crate::number::{counted, known_count};
use crate::numbers::Numbers;
use crate::value_bag::ValueBag;
use ct_value::{Memory, Ty, Value};
use rel_algebra::AggCall;
use std::alloc::Global;

/// Why an accumulator refused: a number is out of range, or memory was wanting.
#[derive(Clone, Copy, Debug, PartialEq, Eq)]
pub enum AccFault {
    Out,
    Memory,
}

impl From<Memory> for AccFault {
    ghost use Rattle.std.specs.Prelude.{◌≡◌};
    ghost use Rattle.agg_fns.specs.declared.acc.AccFault.TheVariants.{Memory as Wanting};

    ghost from_gives = { λ _ fault. fault ≡ Wanting };

    fn from(_: Memory) -> Self {
        AccFault::Memory
    }
}

/// What one aggregate keeps of the values of a group (Flink documentation, "Group Aggregation").
pub enum Acc {
    /// `COUNT(*)`.
    RowCount(u64),
    /// `COUNT(x)`: the values that aren't NULL.
    ValueCount(u64),
    /// `COUNT(DISTINCT x)`: the values that aren't NULL, and how many different ones.
    DistinctCount(Distinct),
    /// `SUM(x)`.
    Total(Numbers),
    /// `AVG(x)`.
    Average(Numbers),
    /// `MIN(x)` of values that stay.
    Least(Option<Value>),
    /// `MAX(x)` of values that stay.
    Greatest(Option<Value>),
    /// `MIN(x)` of values that may be removed.
    LeastOf(ValueBag),
    /// `MAX(x)` of values that may be removed.
    GreatestOf(ValueBag),
}

// By hand, so that whoever keeps accumulators doesn't prove again how each kind of them is dropped.
impl Drop for Acc {
    fn drop(self) {
        match self {
            Acc::RowCount(_count) | Acc::ValueCount(_count) => {}
            Acc::Total(_numbers) | Acc::Average(_numbers) => {}
            Acc::DistinctCount(distinct) => drop(distinct),
            Acc::Least(kept) | Acc::Greatest(kept) => drop(kept),
            Acc::LeastOf(values) | Acc::GreatestOf(values) => drop(values),
        }
    }
}

// The type whose numbers have at most 38 digits.
const DIGITS: Ty = Ty::Decimal { p: 38, s: 0 };

impl Acc {
    /// The accumulator of a call on a type, of no values. Values can be removed from it again where `retracting` is true.
    #[tactic(auto, using(crate::proofs::Stands::size_none, crate::proofs::Stands::known_none, crate::proofs::Stands::known_size_none, crate::proofs::Stands::distinct_size_none, crate::proofs::Stands::known_sum_none, crate::proofs::Stands::first_none, crate::proofs::Stands::last_none))]
    pub fn new(alloc: Global, call: AggCall, ty: Ty, retracting: bool) -> Acc
        ensures stands { StandsFor call ty result bag.none }
        ensures retracts { retracting ≡ true → retracts result ≡ true }
    {
        match call {
            AggCall::CountAll => Acc::RowCount(0),
            AggCall::Count => Acc::ValueCount(0),
            AggCall::CountDistinct => Acc::DistinctCount(Distinct::new(alloc)),
            AggCall::Sum => Acc::Total(Numbers::new(ty)),
            AggCall::Avg => Acc::Average(Numbers::new(ty)),
            AggCall::Min if retracting => Acc::LeastOf(ValueBag::new(alloc)),
            AggCall::Min => Acc::Least(None),
            AggCall::Max if retracting => Acc::GreatestOf(ValueBag::new(alloc)),
            AggCall::Max => Acc::Greatest(None),
        }
    }

    /// Takes a value more. It is out of range exactly where a SUM leaves its type or the sum of an AVG leaves 38 digits;
    /// after an error the accumulator is as before.
    #[tactic(auto, using(crate::proofs::Added::size_add, crate::proofs::Added::known_size_add, crate::proofs::Added::known_add, crate::proofs::Added::known_sum_add, crate::proofs::Added::known_few))]
    pub fn add(&mut self, value: &Value) -> Result<(), AccFault>
        requires { (call : AggCall) × (ty : Ty) × (values : Values) × StandsFor call ty self.old values × (size values + 1 < 2 ^ 63) }
        ensures stands { IfOk result (λ _. (call : AggCall) (ty : Ty) (values : Values) → StandsFor call ty self.old values → StandsFor call ty self.new (bag.add values value.now)) }
        ensures fits { IfOk result (λ _. (call : AggCall) (ty : Ty) (values : Values) → StandsFor call ty self.old values → sum_fits call ty (bag.add values value.now) ≡ true) }
        ensures out { IfErr result (λ fault. fault ≡ Out → (call : AggCall) (ty : Ty) (values : Values) → StandsFor call ty self.old values → sum_fits call ty (bag.add values value.now) ≡ false) }
        ensures same { OnErr result (self.new ≡ self.old) }
        ensures retracts { retracts self.new ≡ retracts self.old }
    {
        match self {
            Acc::RowCount(count) => {
                *count += 1;
                Ok(())
            }
            Acc::ValueCount(count) => {
                *count += known_count(value);
                Ok(())
            }
            Acc::DistinctCount(distinct) => Ok(distinct.add(value)?),
            Acc::Total(numbers) => {
                let limit = numbers.ty;
                numbers.add(limit, value)
            }
            Acc::Average(numbers) => numbers.add(DIGITS, value),
            Acc::Least(kept) => Ok(lower(kept, value)?),
            Acc::Greatest(kept) => Ok(raise(kept, value)?),
            Acc::LeastOf(kept) => Ok(keep(kept, value)?),
            Acc::GreatestOf(kept) => Ok(keep(kept, value)?),
        }
    }

    /// Takes a value away, one of which has to stand. It is out of range exactly where a SUM leaves its type or the sum
    /// of an AVG leaves 38 digits; after an error the accumulator is as before.
    #[tactic(auto, using(crate::proofs::Stands::size_remove, crate::proofs::Stands::known_size_remove, crate::proofs::Stands::known_sum_remove, crate::proofs::Added::known_remove, crate::proofs::Added::copies_known))]
    pub fn remove(&mut self, value: &Value) -> Result<(), AccFault>
        requires retracts { retracts self.old ≡ true }
        requires stands { (call : AggCall) × (ty : Ty) × (values : Values) × StandsFor call ty self.old values × (0 < bag.copies values value.now) }
        ensures stands { IfOk result (λ _. (call : AggCall) (ty : Ty) (values : Values) → StandsFor call ty self.old values → 0 < bag.copies values value.now → StandsFor call ty self.new (bag.remove values value.now)) }
        ensures fits { IfOk result (λ _. (call : AggCall) (ty : Ty) (values : Values) → StandsFor call ty self.old values → 0 < bag.copies values value.now → sum_fits call ty (bag.remove values value.now) ≡ true) }
        ensures out { IfErr result (λ fault. fault ≡ Out → (call : AggCall) (ty : Ty) (values : Values) → StandsFor call ty self.old values → 0 < bag.copies values value.now → sum_fits call ty (bag.remove values value.now) ≡ false) }
        ensures same { OnErr result (self.new ≡ self.old) }
        ensures retracts { retracts self.new ≡ retracts self.old }
    {
        match self {
            Acc::RowCount(count) => {
                *count -= 1;
                Ok(())
            }
            Acc::ValueCount(count) => {
                *count -= known_count(value);
                Ok(())
            }
            Acc::DistinctCount(distinct) => {
                distinct.remove(value);
                Ok(())
            }
            Acc::Total(numbers) => {
                let limit = numbers.ty;
                numbers.remove(limit, value)
            }
            Acc::Average(numbers) => numbers.remove(DIGITS, value),
            Acc::LeastOf(kept) => {
                lose(kept, value);
                Ok(())
            }
            Acc::GreatestOf(kept) => {
                lose(kept, value);
                Ok(())
            }
            Acc::Least(_) => Ok(()),
            Acc::Greatest(_) => Ok(()),
        }
    }

    /// Takes a value, one of which has to stand, away for another. It is out of range exactly where the SUM then is out of
    /// its type or the sum of the AVG has more than 38 digits; after an error the accumulator is as before.
    #[tactic(auto, using(crate::proofs::Replaced::size_replaced, crate::proofs::Replaced::known_size_replaced, crate::proofs::Replaced::known_replaced, crate::proofs::Replaced::known_sum_replaced))]
    pub fn replace(&mut self, old: &Value, fresh: &Value) -> Result<(), AccFault>
        requires retracts { retracts self.old ≡ true }
        requires stands { (call : AggCall) × (ty : Ty) × (values : Values) × StandsFor call ty self.old values × (0 < bag.copies values old.now) × (size values + 1 < 2 ^ 63) }
        ensures stands { IfOk result (λ _. (call : AggCall) (ty : Ty) (values : Values) → StandsFor call ty self.old values → 0 < bag.copies values old.now → StandsFor call ty self.new (bag.add (bag.remove values old.now) fresh.now)) }
        ensures fits { IfOk result (λ _. (call : AggCall) (ty : Ty) (values : Values) → StandsFor call ty self.old values → 0 < bag.copies values old.now → sum_fits call ty (bag.add (bag.remove values old.now) fresh.now) ≡ true) }
        ensures out { IfErr result (λ fault. fault ≡ Out → (call : AggCall) (ty : Ty) (values : Values) → StandsFor call ty self.old values → 0 < bag.copies values old.now → sum_fits call ty (bag.add (bag.remove values old.now) fresh.now) ≡ false) }
        ensures same { OnErr result (self.new ≡ self.old) }
        ensures retracts { retracts self.new ≡ retracts self.old }
    {
        match self {
            Acc::RowCount(_) => Ok(()),
            Acc::ValueCount(count) => {
                *count -= known_count(old);
                *count += known_count(fresh);
                Ok(())
            }
            Acc::DistinctCount(distinct) => Ok(distinct.replace(old, fresh)?),
            Acc::Total(numbers) => {
                let limit = numbers.ty;
                numbers.replace(limit, old, fresh)
            }
            Acc::Average(numbers) => numbers.replace(DIGITS, old, fresh),
            Acc::LeastOf(kept) => Ok(keep_for(kept, old, fresh)?),
            Acc::GreatestOf(kept) => Ok(keep_for(kept, old, fresh)?),
            Acc::Least(_) => Ok(()),
            Acc::Greatest(_) => Ok(()),
        }
    }

    /// The value of the call on the values. It is out of range exactly where the call is.
    #[tactic(auto, using(crate::proofs::Stands::first_unwrapped, crate::proofs::Stands::last_unwrapped))]
    pub fn result(&self) -> Result<Value, AccFault>
        requires { (call : AggCall) × (ty : Ty) × (values : Values) × StandsFor call ty self.now values }
        ensures value { IfOk result (λ value. (call : AggCall) (ty : Ty) (values : Values) → StandsFor call ty self.now values → agg_value call ty values ≡ Some value) }
        ensures out { IfErr result (λ fault. fault ≡ Out → (call : AggCall) (ty : Ty) (values : Values) → StandsFor call ty self.now values → agg_value call ty values ≡ None) }
    {
        match self {
            Acc::RowCount(count) => counted(*count),
            Acc::ValueCount(count) => counted(*count),
            Acc::DistinctCount(distinct) => counted(distinct.count),
            Acc::Total(numbers) => numbers.total().ok_or(AccFault::Out),
            Acc::Average(numbers) => numbers.average().ok_or(AccFault::Out),
            Acc::Least(kept) => Ok(or_null(kept.as_ref())?),
            Acc::Greatest(kept) => Ok(or_null(kept.as_ref())?),
            Acc::LeastOf(kept) => Ok(or_null(kept.first())?),
            Acc::GreatestOf(kept) => Ok(or_null(kept.last())?),
        }
    }
}
