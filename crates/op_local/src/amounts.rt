//! What is kept of the rows of a group come and gone.
ghost use Rattle.std.specs.Prelude.{◌≡◌, pos, neg_ℤ, ◌+ℤ◌, ◌-ℤ◌, ◌<ℤ◌, ◌≤ℤ◌, ◌+◌, ◌<◌, ◌^◌, ◌++◌, List, true, false, cond, IfOk, IfErr, OnOk};
ghost use Rattle.ct_value.specs.Bag.{none};
ghost use Rattle.ct_change.specs.Changelog.{Rows, adds};
ghost use Rattle.rel_algebra.specs.declared.agg.Agg.{Agg};
ghost use Rattle.agg_fns.specs.Reading.{all_blank};
ghost use Rattle.agg_fns.specs.declared.acc.AccFault.TheVariants.{Out};
ghost use Rattle.emission_rules.specs.Grouping.{row_count};
ghost use Rattle.phase_rules.specs.LocalGrouping.{amounts, amounts_fit, are_silent, parts_of_calls, partials_of_calls};
ghost use Rattle.op_local.specs.Amounting.{AllStand, AmountsTo, AreSigned, ForAll, HavePartials, calls, with_come, with_gone};

use crate::tally::{Tally, is_blank};
use agg_fns::AccFault;
use ct_change::Change;
use ct_value::{Memory, Row, Value};
use rel_algebra::Aggs;
use std::alloc::Global;

/// What is kept of the rows of a group come and gone: how many more have come than gone, and a tally for each call.
#[derive(Drop)]
pub struct Amounts {
    pub rows: i64,
    pub tallies: Vec<Tally>,
}

impl Amounts {
    // What is kept of no rows, for calls that have partials.
    pub(crate) fn new(alloc: Global, aggs: &Aggs) -> Result<Amounts, Memory>
        requires { HavePartials aggs.now }
        ensures { IfOk result (λ kept. AmountsTo aggs.now kept none none) }
    {
        Ok(Amounts {
            rows: 0,
            tallies: tallies(alloc, aggs)?,
        })
    }

    // Takes the row of a change, come or gone. It is out of range exactly where a sum then has more than 38 digits.
    pub(crate) fn take(&mut self, change: &Change) -> Result<(), AccFault>
        requires signed { adds change.now.kind ≡ false → AreSigned (calls self.old.tallies.items) }
        requires stands { (aggs : List Agg) × (come : Rows) × (gone : Rows) × AmountsTo aggs self.old come gone × (row_count come + row_count gone + 1 < 2 ^ 63) }
        ensures stands { OnOk result (ForAll self.old (λ aggs come gone. AmountsTo aggs self.new (with_come come (adds change.now.kind) change.now.row) (with_gone gone (adds change.now.kind) change.now.row))) }
        ensures out { IfErr result (λ fault. fault ≡ Out → ForAll self.old (λ aggs come gone. amounts_fit aggs (with_come come (adds change.now.kind) change.now.row) (with_gone gone (adds change.now.kind) change.now.row) ≡ false)) }
    {
        let comes = change.kind.is_addition();
        if let Err(fault) = take_all(&mut self.tallies, comes, &change.row) {
            return Err(fault);
        }
        self.rows = recounted(self.rows, comes);
        Ok(())
    }

    // Whether there is nothing to be told of the rows.
    pub(crate) fn are_silent(&self) -> bool
        ensures { ForAll self.now (λ aggs come gone. result ≡ are_silent aggs come gone) }
    {
        self.rows == 0 && all_blank(&self.tallies)
    }

    // The key with what the rows amount to behind it.
    pub(crate) fn row(&self, alloc: Global, key: Row) -> Result<Row, Memory>
        requires { (aggs : List Agg) × (come : Rows) × (gone : Rows) × AmountsTo aggs self.now come gone }
        ensures { IfOk result (λ row. ForAll self.now (λ aggs come gone. row ≡ key ++ amounts aggs come gone)) }
    {
        let row = key.with(Value::Num(self.rows as i128))?;
        with_partials(alloc, &self.tallies, row)
    }
}

// A tally for each call, of no rows.
fn tallies(alloc: Global, aggs: &Aggs) -> Result<Vec<Tally>, Memory>
    requires { HavePartials aggs.now }
    ensures stand { IfOk result (λ tallies. AllStand none none tallies.items) }
    ensures calls { IfOk result (λ tallies. calls tallies.items ≡ aggs.now) }
{
    let mut tallies = Vec::new(alloc);
    for agg in aggs.as_slice() {
        tallies.push(Tally::new(*agg))?;
    }
    Ok(tallies)
}

// Each tally takes a row come, or else gone. It is out of range exactly where one of the sums then has more than 38 digits.
fn take_all(tallies: &mut [Tally], comes: bool, row: &Row) -> Result<(), AccFault>
    requires signed { comes ≡ false → AreSigned (calls tallies.old) }
    requires stand { (come : Rows) × (gone : Rows) × AllStand come gone tallies.old × (row_count come + row_count gone + 1 < 2 ^ 63) }
    ensures stand { OnOk result ((come gone : Rows) → AllStand come gone tallies.old → AllStand (with_come come comes row.now) (with_gone gone comes row.now) tallies.new) }
    ensures out { IfErr result (λ fault. fault ≡ Out → (come gone : Rows) → AllStand come gone tallies.old → amounts_fit (calls tallies.old) (with_come come comes row.now) (with_gone gone comes row.now) ≡ false) }
    ensures calls { OnOk result (calls tallies.new ≡ calls tallies.old) }
{
    for tally in tallies.iter_mut() {
        if let Err(fault) = tally.take(comes, row) {
            return Err(fault);
        }
    }
    Ok(())
}

// How many more rows have come than gone, with one more come, or else gone.
fn recounted(rows: i64, comes: bool) -> i64
    requires above { (rows +ℤ pos 1) <ℤ pos (2 ^ 63) }
    requires below { neg_ℤ (pos (2 ^ 63)) ≤ℤ (rows -ℤ pos 1) }
    ensures { result ≡ cond comes (rows +ℤ pos 1) (rows -ℤ pos 1) }
{
    if comes { rows + 1 } else { rows - 1 }
}

// Whether no tally has anything to tell.
fn all_blank(tallies: &[Tally]) -> bool
    ensures { (come gone : Rows) → AllStand come gone tallies.now → result ≡ all_blank (parts_of_calls (calls tallies.now)) (partials_of_calls (calls tallies.now) come gone) }
{
    for tally in tallies {
        if !is_blank(&tally.acc) {
            return false;
        }
    }
    true
}

// A row with the partials of the tallies behind it.
fn with_partials(alloc: Global, tallies: &[Tally], row: Row) -> Result<Row, Memory>
    requires { (come : Rows) × (gone : Rows) × AllStand come gone tallies.now }
    ensures { IfOk result (λ whole. (come gone : Rows) → AllStand come gone tallies.now → whole ≡ row ++ partials_of_calls (calls tallies.now) come gone) }
{
    let mut whole = row;
    for tally in tallies {
        whole = with_values(whole, tally.acc.partial(alloc)?)?;
    }
    Ok(whole)
}

// A row with the values of another behind it.
fn with_values(row: Row, values: Row) -> Result<Row, Memory>
    ensures { IfOk result (λ whole. whole ≡ row ++ values) }
{
    let mut whole = row;
    for value in values.as_slice() {
        whole = whole.with(value.dup()?)?;
    }
    Ok(whole)
}
