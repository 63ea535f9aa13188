//! What an operator asks of the node that it feeds.
ghost use Rattle.std.specs.Prelude.{◌≡◌, ◌==◌, ◌&&◌, Some, option_copied};
ghost use Rattle.plan_shape.specs.Shape as s;

use crate::tables::is_upsert;
use ct_catalog::TableDef;
use ct_value::Cols;
use phys_plan::{Node, Op, Plan};
use rel_algebra::{Agg, AggCall};

/// Whether a node is the sink where it is the last, and else feeds one node, once, that it may feed.
pub(crate) fn is_consumed(plan: &Plan, number: u32, op: &Op) -> bool
    ensures { result ≡ s.is_consumed plan.now number op.now }
{
    if number as usize == plan.nodes.len() {
        is_sink(Some(op))
    } else {
        !is_sink(Some(op)) && is_taken(plan, number, op)
    }
}

// Whether a node feeds one node, once, that it may feed.
fn is_taken(plan: &Plan, number: u32, op: &Op) -> bool
    ensures { result ≡ ((s.uses number plan.now.nodes == 1) && s.suits_consumer plan.now.sources op.now (s.consumer number plan.now.nodes)) }
{
    let nodes = plan.nodes.as_slice();
    is_used_once(number, nodes)
        && suits_consumer(plan.sources.as_slice(), op, consumer(number, nodes))
}

fn is_used_once(number: u32, nodes: &[Node]) -> bool
    ensures { result ≡ (s.uses number nodes.now == 1) }
{
    let mut count: usize = 0;
    for node in nodes {
        count = count.saturating_add(times(number, node.inputs.as_slice()));
    }
    count == 1
}

// How often a number stands in a list.
fn times(number: u32, inputs: &[u32]) -> usize
    ensures { result ≡ s.times number inputs.now }
{
    let mut count = 0;
    for input in inputs {
        if number == *input {
            count += 1;
        }
    }
    count
}

// The operator of the first node that has this number among its inputs.
fn consumer(number: u32, nodes: &[Node]) -> Option<&Op>
    ensures { option_copied result ≡ s.consumer number nodes.now }
{
    for node in nodes {
        if has_input(number, node) {
            return Some(&node.op);
        }
    }
    None
}

fn has_input(number: u32, node: &Node) -> bool
    ensures { result ≡ s.has_input number node.now }
{
    node.inputs.as_slice().iter().any(|input| *input == number)
}

// Whether an operator may feed one.
fn suits_consumer(sources: &[TableDef], op: &Op, above: Option<&Op>) -> bool
    ensures { result ≡ s.suits_consumer sources.now op.now (option_copied above.entry) }
{
    match op {
        Op::Scan { source } => is_read(sources.get(*source as usize), above),
        Op::Materialize { .. } => is_sink(above),
        Op::LocalGroup { keys, aggs } => merges(*keys, aggs.as_slice(), above),
        _ => true,
    }
}

// Whether a table's changes are read as they come, or in full by its key.
fn is_read(table: Option<&TableDef>, above: Option<&Op>) -> bool
    ensures { result ≡ s.is_read (option_copied table.entry) (option_copied above.entry) }
{
    match table {
        None => true,
        Some(table) => !is_upsert(table.mode) || normalizes_by(&table.key, above),
    }
}

fn normalizes_by(key: &Option<Cols>, above: Option<&Op>) -> bool
    ensures { result ≡ s.normalizes_by key.now (option_copied above.entry) }
{
    match key {
        None => false,
        Some(key) => normalizes(key, above),
    }
}

fn normalizes(key: &Cols, above: Option<&Op>) -> bool
    ensures { result ≡ s.normalizes_by (Some key.now) (option_copied above.entry) }
{
    match above {
        Some(Op::Normalize { key: by }) => key.as_slice() == by.as_slice(),
        _ => false,
    }
}

fn is_sink(op: Option<&Op>) -> bool
    ensures { result ≡ s.is_sink (option_copied op.entry) }
{
    matches!(op, Some(Op::Sink))
}

// Whether an operator groups in bundles, by so many keys and these aggregates.
fn merges(keys: u32, aggs: &[Agg], above: Option<&Op>) -> bool
    ensures { result ≡ s.merges keys aggs.now (option_copied above.entry) }
{
    match above {
        Some(
            Op::BatchGroup {
                keys: of_keys,
                aggs: of_aggs,
            },
        ) => keys == *of_keys && same_aggs(aggs, of_aggs.as_slice()),
        _ => false,
    }
}

fn same_aggs(aggs: &[Agg], others: &[Agg]) -> bool
    ensures { result ≡ s.same_aggs aggs.now others.now }
{
    if aggs.len() != others.len() {
        return false;
    }
    for i in 0..aggs.len() {
        if !same_agg(aggs[i], others[i]) {
            return false;
        }
    }
    true
}

fn same_agg(agg: Agg, other: Agg) -> bool
    ensures { result ≡ s.same_agg agg other }
{
    same_call(agg.call, other.call)
        && same_column(agg.arg, other.arg)
        && same_column(agg.filter, other.filter)
}

fn same_call(call: AggCall, other: AggCall) -> bool
    ensures { result ≡ s.same_call call other }
{
    match call {
        AggCall::CountAll => matches!(other, AggCall::CountAll),
        AggCall::Count => matches!(other, AggCall::Count),
        AggCall::CountDistinct => matches!(other, AggCall::CountDistinct),
        AggCall::Sum => matches!(other, AggCall::Sum),
        AggCall::Min => matches!(other, AggCall::Min),
        AggCall::Max => matches!(other, AggCall::Max),
        AggCall::Avg => matches!(other, AggCall::Avg),
    }
}

fn same_column(column: Option<u32>, other: Option<u32>) -> bool
    ensures { result ≡ s.same_column column other }
{
    match column {
        None => other.is_none(),
        Some(column) => is_column(column, other),
    }
}

fn is_column(column: u32, other: Option<u32>) -> bool
    ensures { result ≡ s.same_column (Some column) other }
{
    match other {
        None => false,
        Some(other) => column == other,
    }
}
