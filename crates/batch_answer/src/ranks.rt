//! Top-N: the first rows of each partition in rank order.
ghost use Rattle.std.specs.Prelude.{◌≡◌, List as Seq, Some, IfOk, OnOk, IsErrOf, IsPermutation, option_copied};
ghost use Rattle.std.specs.List.Sorted.{IsSortedBy};
ghost use Rattle.std.specs.Ordering.{is_lt};
ghost use Rattle.ct_change.specs.Counts.{repeated};
ghost use Rattle.ct_value.specs.Bag as bag;
ghost use Rattle.ct_value.specs.Order.{value_cmp};
ghost use Rattle.ct_value.specs.Rows.{project};
ghost use Rattle.ct_value.specs.declared.row.Row.{Row as Line};
ghost use Rattle.rel_algebra.specs.Ranks as r;
ghost use Rattle.rel_algebra.specs.Sums.{together};
ghost use Rattle.batch_answer.specs.Indexes.{IsIndex};
ghost use Rattle.batch_answer.specs.Matches.{or_null};
ghost use Rattle.batch_answer.specs.Ranking.{tail};
ghost use Rattle.batch_answer.specs.Tallies.{Unfit};

use crate::index::put_under;
use crate::matches::{cell, cell_in};
use crate::{Counted, Index, Tally};
use ct_expr::EvalFault;
use ct_value::{Cols, Memory, Row, Value, Values};
use rel_algebra::{SortCol, Sorts};
use std::alloc::Global;
use std::cmp::Ordering;
use std::collections::BTreeMap;

/// The first `bound` rows of each partition in rank order, with `ranked` their ranks as the last column.
pub fn rank_rows(
    alloc: Global,
    partition: &Cols,
    order: &Sorts,
    bound: u32,
    ranked: bool,
    rows: Tally,
) -> Result<Tally, EvalFault>
    ensures value { IfOk result (λ first. r.rank_rows partition.now order.now bound ranked rows ≡ Some first) }
    ensures out { IsErrOf result EvalFault.Out → Unfit (r.rank_rows partition.now order.now bound ranked rows) }
{
    let index = partition_index(alloc, partition, rows)?;
    let mut first = Tally::new(alloc);
    for (_, members) in index {
        add_first(order, bound, ranked, members, &mut first)?;
    }
    Ok(first)
}

// The rows by the columns that name their partition.
fn partition_index(alloc: Global, partition: &Cols, rows: Tally) -> Result<Index, Memory>
    ensures { IfOk result (λ index. IsIndex (project partition.now) rows index) }
{
    let mut index = BTreeMap::new(alloc);
    for (row, count) in rows.into_counts() {
        let key = projected(alloc, partition, &row)?;
        put_under(alloc, &mut index, key, row, count)?;
    }
    Ok(index)
}

// The values of these columns.
fn projected(alloc: Global, cols: &Cols, row: &Row) -> Result<Row, Memory>
    ensures { IfOk result (λ key. key ≡ project cols.now row.now) }
{
    let mut values = Values::with_capacity(alloc, cols.len())?;
    for col in cols.as_slice() {
        values.push(cell(row, *col)?)?;
    }
    Ok(Row::from_values(values))
}

// Adds the first rows of one partition.
fn add_first(
    order: &Sorts,
    bound: u32,
    ranked: bool,
    members: Counted,
    first: &mut Tally,
) -> Result<(), EvalFault>
    ensures ok { OnOk result (first.new ≡ together first.old (r.first_rows order.now bound ranked (bag.bag_of_counts members))) }
    ensures out { IsErrOf result EvalFault.Out → Unfit (Some (together first.old (r.first_rows order.now bound ranked (bag.bag_of_counts members)))) }
{
    let members = sorted_rows(order, members);
    let mut taken: u32 = 0;
    for (row, count) in &members {
        taken = add_copies(row, *count, bound, ranked, taken, first)?;
    }
    Ok(())
}

// Adds the copies of a row that follow in rank order, as far as the bound; answers how many rows were taken then.
fn add_copies(
    row: &Row,
    count: u64,
    bound: u32,
    ranked: bool,
    before: u32,
    first: &mut Tally,
) -> Result<u32, EvalFault>
    ensures ok { IfOk result (λ taken. (rest : Seq Line) → together first.new (tail bound ranked taken rest) ≡ together first.old (tail bound ranked before (repeated row.now count rest))) }
    ensures out { IsErrOf result EvalFault.Out → (rest : Seq Line) → Unfit (Some (together first.old (tail bound ranked before (repeated row.now count rest)))) }
{
    let mut taken = before;
    let mut left = count;
    'copies: while left > 0 && taken < bound {
        let line = shown(ranked, row, taken + 1)?;
        first.add(line, 1)?;
        taken += 1;
        left -= 1;
    }
    Ok(taken)
}

// A row, with its rank as the last column where that is kept.
fn shown(ranked: bool, row: &Row, rank: u32) -> Result<Row, Memory>
    ensures { IfOk result (λ line. line ≡ r.shown ranked (row.now, rank)) }
{
    let line = row.dup()?;
    if ranked {
        line.with(Value::Num(rank as i128))
    } else {
        Ok(line)
    }
}

// Rows in rank order.
fn sorted_rows(order: &Sorts, rows: Counted) -> Vec<(Row, u64)>
    ensures permutation { IsPermutation rows result.items }
    ensures sorted { IsSortedBy (λ x y. is_lt (r.rank_cmp order.now x.0 y.0)) result.items }
{
    let mut sorted = rows.into_vec();
    sorted.sort_unstable_by(|a, b| rank_compare(order, &a.0, &b.0));
    sorted
}

// The rank order: by each sort column in turn, and then by the whole row.
fn rank_compare(order: &Sorts, row: &Row, other: &Row) -> Ordering
    ensures { result ≡ r.rank_cmp order.now row.now other.now }
{
    for sort in order.as_slice() {
        let compared = compare_by(*sort, row, other);
        if compared != Ordering::Equal {
            return compared;
        }
    }
    row.compare(other)
}

// The order by one column, NULL lowest, and turned round where it is descending.
fn compare_by(sort: SortCol, row: &Row, other: &Row) -> Ordering
    ensures { result ≡ r.sort_cmp sort row.now other.now }
{
    if sort.desc {
        compare_cells(cell_in(other, sort.col), cell_in(row, sort.col))
    } else {
        compare_cells(cell_in(row, sort.col), cell_in(other, sort.col))
    }
}

// The order of values, of which one that isn't there is NULL.
fn compare_cells(value: Option<&Value>, other: Option<&Value>) -> Ordering
    ensures { result ≡ value_cmp (or_null (option_copied value.entry)) (or_null (option_copied other.entry)) }
{
    match (value, other) {
        (Some(value), Some(other)) => value.cmp(other),
        (Some(value), None) => value.cmp(&Value::Null),
        (None, Some(other)) => Value::Null.cmp(other),
        (None, None) => Ordering::Equal,
    }
}
