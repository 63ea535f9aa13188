//! Grouping: a row for each group, its key and then the results of the calls.
ghost use Rattle.std.specs.Prelude.{◌≡◌, ◌<◌, None, Some, take, IfOk, IsErrOf};
ghost use Rattle.ct_value.specs.Bag as bag;
ghost use Rattle.rel_algebra.specs.Batch.{group_answer};
ghost use Rattle.rel_algebra.specs.Aggregates as a;
ghost use Rattle.batch_answer.specs.Indexes.{IsIndex};
ghost use Rattle.batch_answer.specs.Tallies.{AreCounted, Unfit};

use crate::index::put_under;
use crate::matches::{beside, candidates};
use crate::{Index, Tally};
use agg_results::agg_result;
use ct_expr::EvalFault;
use ct_value::{ColTys, Memory, Row, Values};
use rel_algebra::Aggs;
use std::alloc::Global;
use std::collections::BTreeMap;

/// A row for each group of rows that agree on the first `keys` columns: these, then the results of the calls. Without key
/// columns all rows are one group, which has its row also where there are none. The rows have these columns.
pub fn group_rows(
    alloc: Global,
    columns: &ColTys,
    keys: u32,
    aggs: &Aggs,
    rows: Tally,
) -> Result<Tally, EvalFault>
    ensures value { IfOk result (λ made. group_answer columns.now keys aggs.now rows ≡ Some made) }
    ensures out { IsErrOf result EvalFault.Out → Unfit (group_answer columns.now keys aggs.now rows) }
{
    if keys == 0 {
        one_group(alloc, columns, aggs, rows)
    } else {
        each_group(alloc, columns, keys, aggs, rows)
    }
}

// The row of all rows as one group.
fn one_group(alloc: Global, columns: &ColTys, aggs: &Aggs, rows: Tally) -> Result<Tally, EvalFault>
    ensures value { IfOk result (λ made. group_answer columns.now 0 aggs.now rows ≡ Some made) }
    ensures out { IsErrOf result EvalFault.Out → Unfit (group_answer columns.now 0 aggs.now rows) }
{
    let key = Row::from_values(Values::new(alloc));
    let index = group_index(alloc, 0, rows)?;
    let results = call_results(alloc, columns, aggs, candidates(&index, &key))?;
    let mut made = Tally::new(alloc);
    made.add(results, 1)?;
    Ok(made)
}

// The row of each group.
fn each_group(
    alloc: Global,
    columns: &ColTys,
    keys: u32,
    aggs: &Aggs,
    rows: Tally,
) -> Result<Tally, EvalFault>
    requires { 0 < keys }
    ensures value { IfOk result (λ made. group_answer columns.now keys aggs.now rows ≡ Some made) }
    ensures out { IsErrOf result EvalFault.Out → Unfit (group_answer columns.now keys aggs.now rows) }
{
    let index = group_index(alloc, keys, rows)?;
    let mut made = Tally::new(alloc);
    for (key, members) in index {
        let results = call_results(alloc, columns, aggs, members.as_slice())?;
        let row = beside(&key, &results)?;
        made.add(row, 1)?;
    }
    Ok(made)
}

// The rows by their first columns.
fn group_index(alloc: Global, keys: u32, rows: Tally) -> Result<Index, Memory>
    ensures { IfOk result (λ index. IsIndex (take keys) rows index) }
{
    let mut index = BTreeMap::new(alloc);
    for (row, count) in rows.into_counts() {
        let key = row.prefix(keys)?;
        put_under(alloc, &mut index, key, row, count)?;
    }
    Ok(index)
}

// The results of all calls over the rows of a group.
fn call_results(
    alloc: Global,
    columns: &ColTys,
    aggs: &Aggs,
    members: &[(Row, u64)],
) -> Result<Row, EvalFault>
    requires { AreCounted members.now }
    ensures value { IfOk result (λ row. a.agg_results columns.now aggs.now (bag.bag_of_counts members.now) ≡ Some row) }
    ensures out { IsErrOf result EvalFault.Out → a.agg_results columns.now aggs.now (bag.bag_of_counts members.now) ≡ None }
{
    let mut values = Values::with_capacity(alloc, aggs.len())?;
    for agg in aggs.as_slice() {
        match agg_result(alloc, columns, agg, members)? {
            None => return Err(EvalFault::Out),
            Some(value) => values.push(value)?,
        }
    }
    Ok(Row::from_values(values))
}
