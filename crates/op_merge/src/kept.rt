ghost use Rattle.std.specs.Prelude.{◌≡◌, ◌++◌, ◌∷◌, [], List, true, false, is_some, option_map, Some, IfOk, IfErr, OnOk};
ghost use Rattle.std.specs.List.{AllByRecursion};
ghost use Rattle.ct_value.specs.declared.ty.ColTy.{ColTy};
ghost use Rattle.ct_value.specs.declared.value.Value.{Value};
ghost use Rattle.rel_algebra.specs.Clauses.{collect};
ghost use Rattle.agg_fns.specs.Partial.{has_partial};
ghost use Rattle.agg_fns.specs.Reading.{all_blank};
ghost use Rattle.agg_fns.specs.declared.acc.AccFault.TheVariants.{Out};
ghost use Rattle.phase_rules.specs.LocalGrouping.{LocalGrouping, parts_of_calls};
ghost use Rattle.phase_rules.specs.Merging.{merged, row_from, sums_of_calls, sums_within, values_from};
ghost use Rattle.op_merge.specs.Kept.{ForKept, IsKept, IsOfSome, StandAll, calls, has_results, is_nothing, is_within};

use crate::merger::{Merger, behind};
use agg_fns::{AccFault, MergeAcc};
use ct_value::{ColTys, Memory, Row, Ty, Value};
use rel_algebra::{AggCall, Aggs};
use std::alloc::Global;

/// What is kept of a group: what keeps how many more rows have come than gone, and for each call what keeps its
/// partials.
#[derive(Drop)]
pub struct Kept {
    pub rows: MergeAcc,
    pub mergers: Vec<Merger>,
}

impl Kept {
    /// What is kept of no partial rows.
    pub(crate) fn new(alloc: Global, aggs: &Aggs, tys: &ColTys) -> Result<Kept, Memory>
        requires { AllByRecursion (λ agg. has_partial agg.call ≡ true) aggs.now }
        ensures { IfOk result (λ kept. (l : LocalGrouping) → l.aggs ≡ aggs.now → l.columns ≡ tys.now → IsKept l kept []) }
    {
        let mergers = new_mergers(alloc, aggs, tys)?;
        Ok(Kept {
            rows: MergeAcc::new(AggCall::CountAll, Ty::BigInt),
            mergers,
        })
    }

    /// Takes what a partial row has behind its key. It is out of range exactly where a sum then is.
    pub(crate) fn merge(&mut self, amounts: &[Value]) -> Result<(), AccFault>
        ensures kept { OnOk result (ForKept self.old (λ l rows. IsKept l self.new (rows ++ amounts.now ∷ []))) }
        ensures within { OnOk result (ForKept self.old (λ l rows. is_within l (rows ++ amounts.now ∷ []) ≡ true)) }
        ensures out { IfErr result (λ fault. fault ≡ Out → ForKept self.old (λ l rows. is_within l (rows ++ amounts.now ∷ []) ≡ false)) }
    {
        if let Err(fault) = self.rows.merge(amounts) {
            return Err(fault);
        }
        if let Err(fault) = merge_all(&mut self.mergers, behind(amounts, 1)) {
            return Err(fault);
        }
        Ok(())
    }

    /// The row of a group with this key, none where as many rows have gone as have come. It is out of range exactly
    /// where a call is.
    pub(crate) fn row(&self, key: &Row) -> Result<Option<Row>, AccFault>
        requires { IsOfSome self.now }
        ensures row { IfOk result (λ row. ForKept self.now (λ l rows. row ≡ row_from l key.now (merged l.aggs rows))) }
        ensures results { OnOk result (ForKept self.now (λ l rows. has_results l rows ≡ true)) }
        ensures out { IfErr result (λ fault. fault ≡ Out → ForKept self.now (λ l rows. has_results l rows ≡ false)) }
    {
        let made = key.dup()?;
        let row = match results(&self.mergers, made) {
            Ok(row) => row,
            Err(fault) => return Err(fault),
        };
        let gone = self.rows.is_blank();
        if gone {
            return Ok(None);
        }
        Ok(Some(row))
    }

    /// Whether the partial rows amount to nothing, as none do.
    pub(crate) fn is_blank(&self) -> bool
        ensures { ForKept self.now (λ l rows. result ≡ is_nothing l rows) }
    {
        let empty = self.rows.is_blank();
        if !empty {
            return false;
        }
        are_blank(&self.mergers)
    }
}

// What keeps the partials of each call over rows of these columns, of no partials.
fn new_mergers(alloc: Global, aggs: &Aggs, tys: &ColTys) -> Result<Vec<Merger>, Memory>
    requires { AllByRecursion (λ agg. has_partial agg.call ≡ true) aggs.now }
    ensures stand { IfOk result (λ mergers. StandAll tys.now mergers.items []) }
    ensures calls { IfOk result (λ mergers. calls mergers.items ≡ aggs.now) }
{
    let mut mergers = Vec::new(alloc);
    for agg in aggs.as_slice() {
        mergers.push(Merger::new(*agg, tys))?;
    }
    Ok(mergers)
}

// Each call takes the partials in its columns. It is out of range exactly where one of the sums then is.
fn merge_all(mergers: &mut [Merger], partials: &[Value]) -> Result<(), AccFault>
    ensures stand { OnOk result ((columns : List ColTy) (rows : List (List Value)) → StandAll columns mergers.old rows → StandAll columns mergers.new (rows ++ partials.now ∷ [])) }
    ensures calls { OnOk result (calls mergers.new ≡ calls mergers.old) }
    ensures within { OnOk result ((columns : List ColTy) (rows : List (List Value)) → StandAll columns mergers.old rows → sums_within columns (calls mergers.old) (sums_of_calls (calls mergers.old) (rows ++ partials.now ∷ [])) ≡ true) }
    ensures out { IfErr result (λ fault. fault ≡ Out → (columns : List ColTy) (rows : List (List Value)) → StandAll columns mergers.old rows → sums_within columns (calls mergers.old) (sums_of_calls (calls mergers.old) (rows ++ partials.now ∷ [])) ≡ false) }
{
    let mut rest = partials;
    for merger in mergers.iter_mut() {
        match merger.merge(rest) {
            Ok(others) => rest = others,
            Err(fault) => return Err(fault),
        }
    }
    Ok(())
}

// The row with the results of the calls behind it.
fn results(mergers: &[Merger], row: Row) -> Result<Row, AccFault>
    requires { (columns : List ColTy) × (rows : List (List Value)) × StandAll columns mergers.now rows }
    ensures row { IfOk result (λ made. (columns : List ColTy) (rows : List (List Value)) → StandAll columns mergers.now rows → option_map (λ values. row ++ values) (collect (values_from columns (calls mergers.now) (sums_of_calls (calls mergers.now) rows))) ≡ Some made) }
    ensures out { IfErr result (λ fault. fault ≡ Out → (columns : List ColTy) (rows : List (List Value)) → StandAll columns mergers.now rows → is_some (collect (values_from columns (calls mergers.now) (sums_of_calls (calls mergers.now) rows))) ≡ false) }
{
    let mut made = row;
    for merger in mergers {
        match merger.acc.result() {
            Ok(value) => made = made.with(value)?,
            Err(fault) => return Err(fault),
        }
    }
    Ok(made)
}

// Whether all that the calls keep is worth nothing.
fn are_blank(mergers: &[Merger]) -> bool
    ensures { (columns : List ColTy) (rows : List (List Value)) → StandAll columns mergers.now rows → result ≡ all_blank (parts_of_calls (calls mergers.now)) (sums_of_calls (calls mergers.now) rows) }
{
    for merger in mergers {
        let blank = merger.acc.is_blank();
        if !blank {
            return false;
        }
    }
    true
}
