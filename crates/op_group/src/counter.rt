ghost use Rattle.std.specs.Prelude.{◌≡◌, ◌+◌, ◌<◌, ◌^◌, true, false, IsSome, IfErr, OnOk, option_copied};
ghost use Rattle.ct_value.specs.Bag as bag;
ghost use Rattle.ct_value.specs.declared.ty.Ty.{Ty};
ghost use Rattle.rel_algebra.specs.declared.agg.AggCall.{AggCall};
ghost use Rattle.rel_algebra.specs.Aggregates.{Values, size, sum_fits};
ghost use Rattle.agg_fns.specs.Standing.{StandsFor, retracts};
ghost use Rattle.agg_fns.specs.declared.acc.AccFault.TheVariants.{Out};
ghost use Rattle.agg_fns.specs.Picked.{picked};
ghost use Rattle.op_group.specs.Kept.{ForPicked, ForValues, HasValue, type_among};

use agg_fns::{Acc, AccFault, picked};
use ct_value::{ColTys, Row, Ty, Value};
use rel_algebra::Agg;
use std::alloc::Global;

/// A call of an aggregate function, with what it keeps of the values of a group.
#[derive(Drop)]
pub struct Counter {
    pub agg: Agg,
    pub acc: Acc,
}

impl Counter {
    // The counter of a call over rows of these columns, of no rows. Rows can be removed again where `retracting` is true.
    pub(crate) fn new(alloc: Global, agg: Agg, tys: &ColTys, retracting: bool) -> Counter
        ensures agg { result.agg ≡ agg }
        ensures stands { StandsFor agg.call (type_among tys.now agg) result.acc bag.none }
        ensures retracts { retracting ≡ true → retracts result.acc ≡ true }
    {
        let ty = type_among(tys, agg);
        Counter {
            agg,
            acc: Acc::new(alloc, agg.call, ty, retracting),
        }
    }

    // Takes away what a row has for the call, which has to stand, and adds what another one has.
    pub(crate) fn shift(&mut self, gone: Option<&Row>, come: Option<&Row>) -> Result<(), AccFault>
        requires retracts { IsSome (picked self.old.agg (option_copied gone)) → retracts self.old.acc ≡ true }
        requires stands { (ty : Ty) × (values : Values) × StandsFor self.old.agg.call ty self.old.acc values × HasValue values (picked self.old.agg (option_copied gone)) × (size values + 1 < 2 ^ 63) }
        ensures agg { self.new.agg ≡ self.old.agg }
        ensures stands { OnOk result (ForPicked self.old (option_copied gone.entry) (option_copied come.entry) (λ ty before after. StandsFor self.old.agg.call ty self.new.acc after)) }
        ensures fits { OnOk result (ForPicked self.old (option_copied gone.entry) (option_copied come.entry) (λ ty before after. sum_fits self.old.agg.call ty before ≡ true → sum_fits self.old.agg.call ty after ≡ true)) }
        ensures out { IfErr result (λ fault. fault ≡ Out → ForPicked self.old (option_copied gone.entry) (option_copied come.entry) (λ ty before after. sum_fits self.old.agg.call ty after ≡ false)) }
        ensures retracts { retracts self.new.acc ≡ retracts self.old.acc }
    {
        let null = Value::Null;
        let agg = self.agg;
        shift_acc(
            &mut self.acc,
            picked(&agg, gone, &null),
            picked(&agg, come, &null),
        )
    }
}

// Takes away a value, which has to stand, and adds another.
fn shift_acc(acc: &mut Acc, old: Option<&Value>, fresh: Option<&Value>) -> Result<(), AccFault>
    requires retracts { IsSome (option_copied old) → retracts acc.old ≡ true }
    requires stands { (call : AggCall) × (ty : Ty) × (values : Values) × StandsFor call ty acc.old values × HasValue values (option_copied old) × (size values + 1 < 2 ^ 63) }
    ensures stands { OnOk result ((call : AggCall) → ForValues call acc.old (option_copied old.entry) (option_copied fresh.entry) (λ ty before after. StandsFor call ty acc.new after)) }
    ensures fits { OnOk result ((call : AggCall) → ForValues call acc.old (option_copied old.entry) (option_copied fresh.entry) (λ ty before after. sum_fits call ty before ≡ true → sum_fits call ty after ≡ true)) }
    ensures out { IfErr result (λ fault. fault ≡ Out → (call : AggCall) → ForValues call acc.old (option_copied old.entry) (option_copied fresh.entry) (λ ty before after. sum_fits call ty after ≡ false)) }
    ensures retracts { retracts acc.new ≡ retracts acc.old }
{
    match (old, fresh) {
        (None, None) => Ok(()),
        (None, Some(fresh)) => acc.add(fresh),
        (Some(old), None) => acc.remove(old),
        (Some(old), Some(fresh)) => acc.replace(old, fresh),
    }
}

// The type of a call's argument among these columns.
fn type_among(tys: &ColTys, agg: Agg) -> Ty
    ensures { result ≡ type_among tys.now agg }
{
    match agg.arg {
        None => Ty::BigInt,
        Some(column) => match tys.get(column as usize) {
            Some(column) => column.ty,
            None => Ty::BigInt,
        },
    }
}
