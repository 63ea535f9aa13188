ghost use Rattle.std.specs.Prelude.{◌≡◌, ◌+◌, ◌<◌, ◌^◌, ◌++◌, true, false, cond, List, is_some, IsSome, Some, option_map, IfOk, IfErr, OnOk, option_copied};
ghost use Rattle.ct_value.specs.Bag.{none};
ghost use Rattle.ct_value.specs.declared.ty.ColTy.{ColTy};
ghost use Rattle.ct_change.specs.Changelog.{Rows};
ghost use Rattle.rel_algebra.specs.Aggregates.{agg_results};
ghost use Rattle.agg_fns.specs.declared.acc.AccFault.TheVariants.{Out};
ghost use Rattle.emission_rules.specs.Grouping.{row_count};
ghost use Rattle.op_group.specs.Kept.{AllRetract, AllStand, ForCounted, ForRows, ForShifted, HasRow, IsKept, IsOfSome, MayShift, all_counted, all_fit, calls, calls_of, row_in};

use crate::counter::Counter;
use agg_fns::AccFault;
use ct_value::{ColTys, Memory, Row, Values};
use rel_algebra::Aggs;
use std::alloc::Global;

/// What is kept of a group: how many rows it has, and a counter for each call.
#[derive(Drop)]
pub struct Kept {
    pub rows: u64,
    pub counters: Vec<Counter>,
}

impl Kept {
    /// What is kept of no rows. Rows can be removed again where `retracting` is true.
    pub fn new(alloc: Global, aggs: &Aggs, tys: &ColTys, retracting: bool) -> Result<Kept, Memory>
        ensures kept { IfOk result (λ kept. IsKept tys.now aggs.now kept none) }
        ensures retracts { IfOk result (λ kept. retracting ≡ true → AllRetract kept.counters.items) }
    {
        Ok(Kept {
            rows: 0,
            counters: counters(alloc, aggs, tys, retracting)?,
        })
    }

    /// Takes a row, which has to stand, away from the group, and adds another. It is out of range exactly where a sum of the
    /// group then is.
    pub fn shift(&mut self, gone: Option<&Row>, come: Option<&Row>) -> Result<(), AccFault>
        requires kept { MayShift self.old (option_copied gone) }
        requires retracts { IsSome (option_copied gone) → AllRetract self.old.counters.items }
        ensures kept { OnOk result (ForShifted self.old (option_copied gone.entry) (option_copied come.entry) (λ columns before after. IsKept columns (calls_of self.old) self.new after)) }
        ensures fits { OnOk result (ForShifted self.old (option_copied gone.entry) (option_copied come.entry) (λ columns before after. all_fit columns (calls_of self.old) before ≡ true → all_fit columns (calls_of self.old) after ≡ true)) }
        ensures out { IfErr result (λ fault. fault ≡ Out → ForShifted self.old (option_copied gone.entry) (option_copied come.entry) (λ columns before after. all_fit columns (calls_of self.old) after ≡ false)) }
        ensures retracts { OnOk result (AllRetract self.old.counters.items → AllRetract self.new.counters.items) }
    {
        if let Err(fault) = shift_all(&mut self.counters, gone, come) {
            return Err(fault);
        }
        self.rows = recounted(self.rows, gone.is_some(), come.is_some());
        Ok(())
    }

    /// The row of a group with this key; none where the group has no rows, unless it is the group of all rows, of no key
    /// columns. It is out of range exactly where a call is.
    pub fn row(&self, key: &Row, keys: u32) -> Result<Option<Row>, AccFault>
        requires { IsOfSome self.now }
        ensures row { IfOk result (λ row. ForRows self.now (λ columns rows. row ≡ row_in keys columns (calls_of self.now) key.now rows)) }
        ensures counted { OnOk result (ForRows self.now (λ columns rows. all_counted columns (calls_of self.now) rows ≡ true)) }
        ensures out { IfErr result (λ fault. fault ≡ Out → ForRows self.now (λ columns rows. all_counted columns (calls_of self.now) rows ≡ false)) }
    {
        if keys != 0 && self.rows == 0 {
            return Ok(None);
        }
        let key = with_room(*self.counters.allocator(), key, self.counters.len())?;
        let values = results(&self.counters, key)?;
        Ok(Some(Row::from_values(values)))
    }
}

// The values of a row, with room for so many behind them.
fn with_room(alloc: Global, row: &Row, more: usize) -> Result<Values, Memory>
    ensures { IfOk result (λ copy. copy ≡ row.now) }
{
    let mut values = Values::with_capacity(alloc, row.len().saturating_add(more))?;
    for value in row.as_slice() {
        values.push(value.dup()?)?;
    }
    Ok(values)
}

// The number of rows without one that goes, and with one that comes.
fn recounted(rows: u64, goes: bool, comes: bool) -> u64
    requires some { goes ≡ true → 0 < rows }
    requires room { rows + 1 < 2 ^ 64 }
    ensures { cond goes 1 0 + result ≡ cond comes 1 0 + rows }
{
    match (goes, comes) {
        (false, true) => rows + 1,
        (true, false) => rows - 1,
        _ => rows,
    }
}

// A counter for each call over rows of these columns, of no rows.
fn counters(
    alloc: Global,
    aggs: &Aggs,
    tys: &ColTys,
    retracting: bool,
) -> Result<Vec<Counter>, Memory>
    ensures stand { IfOk result (λ counters. AllStand tys.now none counters.items) }
    ensures calls { IfOk result (λ counters. calls counters.items ≡ aggs.now) }
    ensures retract { IfOk result (λ counters. retracting ≡ true → AllRetract counters.items) }
{
    let mut counters = Vec::new(alloc);
    for agg in aggs.as_slice() {
        counters.push(Counter::new(alloc, *agg, tys, retracting))?;
    }
    Ok(counters)
}

// Takes a row, which has to stand, away from each counter, and adds another. It is out of range exactly where one of the
// sums then is.
fn shift_all(
    counters: &mut [Counter],
    gone: Option<&Row>,
    come: Option<&Row>,
) -> Result<(), AccFault>
    requires stand { (columns : List ColTy) × (rows : Rows) × AllStand columns rows counters.old × HasRow rows (option_copied gone) × (row_count rows + 1 < 2 ^ 63) }
    requires retract { IsSome (option_copied gone) → AllRetract counters.old }
    ensures stand { OnOk result (ForCounted counters.old (option_copied gone.entry) (option_copied come.entry) (λ columns before after. AllStand columns after counters.new)) }
    ensures fits { OnOk result (ForCounted counters.old (option_copied gone.entry) (option_copied come.entry) (λ columns before after. all_fit columns (calls counters.old) before ≡ true → all_fit columns (calls counters.old) after ≡ true)) }
    ensures out { IfErr result (λ fault. fault ≡ Out → ForCounted counters.old (option_copied gone.entry) (option_copied come.entry) (λ columns before after. all_fit columns (calls counters.old) after ≡ false)) }
    ensures calls { OnOk result (calls counters.new ≡ calls counters.old) }
    ensures retract { OnOk result (AllRetract counters.old → AllRetract counters.new) }
{
    for counter in counters.iter_mut() {
        if let Err(fault) = counter.shift(gone, come) {
            return Err(fault);
        }
    }
    Ok(())
}

// The key with the results of the counters behind it.
fn results(counters: &[Counter], key: Values) -> Result<Values, AccFault>
    requires { (columns : List ColTy) × (rows : Rows) × AllStand columns rows counters.now }
    ensures row { IfOk result (λ row. (columns : List ColTy) (rows : Rows) → AllStand columns rows counters.now → option_map (λ values. key ++ values) (agg_results columns (calls counters.now) rows) ≡ Some row) }
    ensures out { IfErr result (λ fault. fault ≡ Out → (columns : List ColTy) (rows : Rows) → AllStand columns rows counters.now → is_some (agg_results columns (calls counters.now) rows) ≡ false) }
{
    let mut values = key;
    for counter in counters {
        match counter.acc.result() {
            Ok(value) => values.push(value)?,
            Err(fault) => return Err(fault),
        }
    }
    Ok(values)
}
