ghost use Rattle.std.specs.Prelude.{◌≡◌, ◌++◌, ◌∷◌, [], List, drop, length, true, false, IfErr, IfOk, OnOk};
ghost use Rattle.ct_value.specs.declared.ty.Ty.{Ty};
ghost use Rattle.ct_value.specs.declared.value.Value.{Value};
ghost use Rattle.agg_fns.specs.MergedPartials.{StandsForPartials};
ghost use Rattle.agg_fns.specs.Partial.{has_partial, partials_sum};
ghost use Rattle.agg_fns.specs.PartialResults.{result_fits};
ghost use Rattle.agg_fns.specs.Reading.{parts_by};
ghost use Rattle.agg_fns.specs.declared.acc.AccFault.TheVariants.{Out};
ghost use Rattle.phase_rules.specs.Merging.{argument_type};

use agg_fns::{AccFault, MergeAcc};
use ct_value::{ColTys, Ty, Value};
use rel_algebra::{Agg, AggCall};

/// A call of an aggregate function, with what it keeps of the partials of a group.
#[derive(Drop)]
pub struct Merger {
    pub agg: Agg,
    pub acc: MergeAcc,
}

impl Merger {
    // What keeps partials of a call over rows of these columns, of no partials.
    pub(crate) fn new(agg: Agg, tys: &ColTys) -> Merger
        requires { has_partial agg.call ≡ true }
        ensures agg { result.agg ≡ agg }
        ensures stands { StandsForPartials agg.call (argument_type tys.now agg) result.acc [] }
    {
        Merger {
            agg,
            acc: MergeAcc::new(agg.call, argument_type(tys, agg)),
        }
    }

    // Takes a partial, and answers what stands behind its columns.
    pub(crate) fn merge<'a>(&mut self, partials: &'a [Value]) -> Result<&'a [Value], AccFault>
        ensures agg { OnOk result (self.new.agg ≡ self.old.agg) }
        ensures stands { OnOk result ((ty : Ty) (rows : List (List Value)) → StandsForPartials self.old.agg.call ty self.old.acc rows → StandsForPartials self.old.agg.call ty self.new.acc (rows ++ partials.now ∷ [])) }
        ensures fits { OnOk result ((ty : Ty) (rows : List (List Value)) → StandsForPartials self.old.agg.call ty self.old.acc rows → result_fits self.old.agg.call ty (partials_sum self.old.agg.call (rows ++ partials.now ∷ [])) ≡ true) }
        ensures out { IfErr result (λ fault. fault ≡ Out → (ty : Ty) (rows : List (List Value)) → StandsForPartials self.old.agg.call ty self.old.acc rows → result_fits self.old.agg.call ty (partials_sum self.old.agg.call (rows ++ partials.now ∷ [])) ≡ false) }
        ensures rest { IfOk result (λ rest. rest.now ≡ drop (length (parts_by self.old.agg.call)) partials.now) }
    {
        match self.acc.merge(partials) {
            Ok(()) => Ok(behind(partials, width(self.agg.call))),
            Err(fault) => Err(fault),
        }
    }
}

// The type of a call's argument among these columns.
fn argument_type(tys: &ColTys, agg: Agg) -> Ty
    ensures { result ≡ argument_type tys.now agg }
{
    match agg.arg {
        None => Ty::BigInt,
        Some(column) => match tys.get(column as usize) {
            Some(column) => column.ty,
            None => Ty::BigInt,
        },
    }
}

// How many columns the partials of a call have.
fn width(call: AggCall) -> usize
    ensures { result ≡ length (parts_by call) }
{
    match call {
        AggCall::CountAll | AggCall::Count | AggCall::Min | AggCall::Max => 1,
        AggCall::Sum | AggCall::Avg => 2,
        AggCall::CountDistinct => 0,
    }
}

/// The values behind so many first ones, none where there are fewer.
#[tactic(auto, using(std::proofs::lemmas::List::drop_all))]
pub(crate) fn behind(values: &[Value], count: usize) -> &[Value]
    ensures { result.now ≡ drop count values.now }
{
    if count > values.len() {
        return &values[values.len()..];
    }
    &values[count..]
}
