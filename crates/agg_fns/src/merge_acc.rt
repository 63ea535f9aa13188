ghost use Rattle.std.specs.Prelude.{◌≡◌, ◌++◌, ◌∷◌, [], true, false, List, Some, None, IfOk, IfErr, OnErr};
ghost use Rattle.ct_value.specs.declared.ty.Ty.{Ty};
ghost use Rattle.ct_value.specs.declared.value.Value.{Value};
ghost use Rattle.rel_algebra.specs.declared.agg.AggCall.{AggCall};
ghost use Rattle.agg_fns.specs.MergedPartials.{StandsForPartials};
ghost use Rattle.agg_fns.specs.Partial.{has_partial, partials_sum};
ghost use Rattle.agg_fns.specs.PartialResults.{result_fits, result_of};
ghost use Rattle.agg_fns.specs.Reading.{parts_by, all_blank};
ghost use Rattle.agg_fns.specs.declared.acc.AccFault.TheVariants.{Out};

use crate::acc::AccFault;
use crate::cells::{counts_together, lower_by, number_at, raise_by};
use crate::kept::or_null;
use crate::merged_numbers::MergedNumbers;
use crate::number::in_type;
use ct_value::{Ty, Value};
use rel_algebra::AggCall;

/// What one aggregate keeps of partials: what the values come and gone that they tell of amount to together.
pub enum MergeAcc {
    /// `COUNT(*)`: how many more rows have come than gone.
    RowCount(i128),
    /// `COUNT(x)`: how many more values that aren't NULL have come than gone.
    ValueCount(i128),
    /// `SUM(x)`.
    Total(MergedNumbers),
    /// `AVG(x)`.
    Average(MergedNumbers),
    /// `MIN(x)` of values that stay.
    Least(Option<Value>),
    /// `MAX(x)` of values that stay.
    Greatest(Option<Value>),
}

// By hand, so that whoever keeps accumulators doesn't prove again how each kind of them is dropped.
impl Drop for MergeAcc {
    fn drop(self) {
        match self {
            MergeAcc::RowCount(_count) | MergeAcc::ValueCount(_count) => {}
            MergeAcc::Total(_numbers) | MergeAcc::Average(_numbers) => {}
            MergeAcc::Least(kept) | MergeAcc::Greatest(kept) => drop(kept),
        }
    }
}

// The type whose numbers have at most 38 digits.
const DIGITS: Ty = Ty::Decimal { p: 38, s: 0 };

impl MergeAcc {
    /// The accumulator of a call on a type that has partials, of no partials.
    #[tactic(auto, using(crate::proofs::Merges::no_sum, crate::proofs::Stands::first_none, crate::proofs::Stands::last_none))]
    pub fn new(call: AggCall, ty: Ty) -> MergeAcc
        requires { has_partial call ≡ true }
        ensures { StandsForPartials call ty result [] }
    {
        match call {
            AggCall::CountAll => MergeAcc::RowCount(0),
            AggCall::Count => MergeAcc::ValueCount(0),
            AggCall::CountDistinct => unreachable!(),
            AggCall::Sum => MergeAcc::Total(MergedNumbers::new(ty)),
            AggCall::Avg => MergeAcc::Average(MergedNumbers::new(ty)),
            AggCall::Min => MergeAcc::Least(None),
            AggCall::Max => MergeAcc::Greatest(None),
        }
    }

    /// Takes a partial, behind whose columns there may be others. It is out of range exactly where a SUM then leaves its type or the
    /// sum of an AVG leaves 38 digits; after an error the accumulator is as before.
    #[tactic(auto, using(crate::proofs::Merges::sum_more, crate::proofs::Merges::column_more))]
    pub fn merge(&mut self, partial: &[Value]) -> Result<(), AccFault>
        ensures stands { IfOk result (λ _. (call : AggCall) (ty : Ty) (rows : List (List Value)) → StandsForPartials call ty self.old rows → StandsForPartials call ty self.new (rows ++ partial.now ∷ [])) }
        ensures fits { IfOk result (λ _. (call : AggCall) (ty : Ty) (rows : List (List Value)) → StandsForPartials call ty self.old rows → result_fits call ty (partials_sum call (rows ++ partial.now ∷ [])) ≡ true) }
        ensures out { IfErr result (λ fault. fault ≡ Out → (call : AggCall) (ty : Ty) (rows : List (List Value)) → StandsForPartials call ty self.old rows → result_fits call ty (partials_sum call (rows ++ partial.now ∷ [])) ≡ false) }
        ensures same { OnErr result (self.new ≡ self.old) }
    {
        match self {
            MergeAcc::RowCount(count) => {
                *count = counts_together(*count, number_at(partial, 0))?;
                Ok(())
            }
            MergeAcc::ValueCount(count) => {
                *count = counts_together(*count, number_at(partial, 0))?;
                Ok(())
            }
            MergeAcc::Total(numbers) => {
                let limit = numbers.ty;
                numbers.merge(limit, partial)
            }
            MergeAcc::Average(numbers) => numbers.merge(DIGITS, partial),
            MergeAcc::Least(kept) => Ok(lower_by(kept, partial)?),
            MergeAcc::Greatest(kept) => Ok(raise_by(kept, partial)?),
        }
    }

    /// The value of the call on the values that the partials tell of. It is out of range exactly where the call is.
    #[tactic(auto, using(crate::proofs::Stands::first_unwrapped, crate::proofs::Stands::last_unwrapped))]
    pub fn result(&self) -> Result<Value, AccFault>
        requires { (call : AggCall) × (ty : Ty) × (rows : List (List Value)) × StandsForPartials call ty self.now rows }
        ensures value { IfOk result (λ value. (call : AggCall) (ty : Ty) (rows : List (List Value)) → StandsForPartials call ty self.now rows → result_of call ty (partials_sum call rows) ≡ Some value) }
        ensures out { IfErr result (λ fault. fault ≡ Out → (call : AggCall) (ty : Ty) (rows : List (List Value)) → StandsForPartials call ty self.now rows → result_of call ty (partials_sum call rows) ≡ None) }
    {
        match self {
            MergeAcc::RowCount(count) => in_type(Ty::BigInt, *count).ok_or(AccFault::Out),
            MergeAcc::ValueCount(count) => in_type(Ty::BigInt, *count).ok_or(AccFault::Out),
            MergeAcc::Total(numbers) => numbers.total().ok_or(AccFault::Out),
            MergeAcc::Average(numbers) => numbers.average(),
            MergeAcc::Least(kept) => Ok(or_null(kept.as_ref())?),
            MergeAcc::Greatest(kept) => Ok(or_null(kept.as_ref())?),
        }
    }

    /// Whether all that the partials amount to is worth nothing, as no partials are.
    pub fn is_blank(&self) -> bool
        ensures { (call : AggCall) (ty : Ty) (rows : List (List Value)) → StandsForPartials call ty self.now rows → result ≡ all_blank (parts_by call) (partials_sum call rows) }
    {
        match self {
            MergeAcc::RowCount(count) => *count == 0,
            MergeAcc::ValueCount(count) => *count == 0,
            MergeAcc::Total(numbers) => numbers.are_blank(),
            MergeAcc::Average(numbers) => numbers.are_blank(),
            MergeAcc::Least(kept) => kept.is_none(),
            MergeAcc::Greatest(kept) => kept.is_none(),
        }
    }
}
