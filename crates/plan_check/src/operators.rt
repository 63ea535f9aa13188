//! The columns of a node by its operator, from those of its inputs.
ghost use Rattle.std.specs.Prelude.{◌≡◌, option_and_then, option_copied, IfOk};
ghost use Rattle.rel_algebra.specs.Types as r;
ghost use Rattle.plan_check.specs.Types as t;

use crate::chains::chain_columns;
use ct_catalog::Sources;
use ct_value::{ColTys, Cols, Memory};
use phys_plan::{Node, Op};
use plan_shape::{NodeColumns, are_columns, next_columns, only_input};
use rel_algebra::Aggs;
use rel_columns::group_columns;

/// The columns of a node behind these.
pub(crate) fn next_types(
    sources: &Sources,
    done: &NodeColumns,
    node: &Node,
) -> Result<Option<ColTys>, Memory>
    ensures { IfOk result (λ made. made ≡ t.next_types sources.now done.now node.now) }
{
    match &node.op {
        Op::Normalize { key } => keyed(key, only_input(done, &node.inputs)),
        Op::Materialize { key } => keyed(key, only_input(done, &node.inputs)),
        Op::LocalGroup { keys, aggs } => grouped(*keys, aggs, only_input(done, &node.inputs)),
        Op::MultiJoin { on } => chain_columns(on, done, &node.inputs),
        _ => next_columns(sources, done, node),
    }
}

// The input's columns, where those of a key are among them.
fn keyed(key: &Cols, input: Option<&ColTys>) -> Result<Option<ColTys>, Memory>
    ensures { IfOk result (λ made. made ≡ option_and_then (t.keyed_columns key.now) (option_copied input.entry)) }
{
    match input {
        None => Ok(None),
        Some(columns) => kept_if(are_columns(key.as_slice(), columns.len()), columns),
    }
}

// The input's columns, where groups of rows that have them have columns.
fn grouped(keys: u32, aggs: &Aggs, input: Option<&ColTys>) -> Result<Option<ColTys>, Memory>
    ensures { IfOk result (λ made. made ≡ option_and_then (t.grouped_columns keys aggs.now) (option_copied input.entry)) }
{
    match input {
        None => Ok(None),
        Some(columns) => kept_if(group_columns(keys, columns, aggs)?.is_some(), columns),
    }
}

// These columns, or none.
fn kept_if(test: bool, columns: &ColTys) -> Result<Option<ColTys>, Memory>
    ensures { IfOk result (λ made. made ≡ r.columns_if test columns.now) }
{
    if test {
        Ok(Some(columns.dup()?))
    } else {
        Ok(None)
    }
}
