//! Rows that may tie.
ghost use Rattle.std.specs.Prelude.{◌≡◌, ◌++◌, option_copied, IfOk};
ghost use Rattle.planner.specs.Refusals as r;

use column_sets::has_within;
use ct_value::{Cols, Memory};
use phys_plan::{KeyInfo, Node, Op, numbered};
use plan_inferred::{Inferred, first_input};
use rel_algebra::SortCol;
use std::alloc::Global;

/// Whether a Top-N has an input of which no key lies in its partition and its order.
pub(crate) fn has_ties(alloc: Global, inferred: &Inferred, nodes: &[Node]) -> Result<bool, Memory>
    ensures { IfOk result (λ ties. ties ≡ r.has_ties inferred.now nodes.now) }
{
    for node in nodes {
        if ties_at(alloc, inferred, node)? {
            return Ok(true);
        }
    }
    Ok(false)
}

fn ties_at(alloc: Global, inferred: &Inferred, node: &Node) -> Result<bool, Memory>
    ensures { IfOk result (λ ties. ties ≡ r.ties_at inferred.now node.now) }
{
    match &node.op {
        Op::TopN {
            partition,
            order,
            ..
        } => {
            let columns = told_by(alloc, partition, order.as_slice())?;
            let keys = numbered(inferred.keys.as_slice(), first_input(&node.inputs));
            Ok(!names_rows(keys, &columns))
        }
        _ => Ok(false),
    }
}

// The columns of a partition and of an order.
fn told_by(alloc: Global, partition: &Cols, order: &[SortCol]) -> Result<Cols, Memory>
    ensures { IfOk result (λ columns. columns ≡ partition.now ++ r.order_columns order.now) }
{
    let mut columns = partition.dup()?;
    columns.append(order_columns(alloc, order)?)?;
    Ok(columns)
}

fn order_columns(alloc: Global, order: &[SortCol]) -> Result<Cols, Memory>
    ensures { IfOk result (λ columns. columns ≡ r.order_columns order.now) }
{
    let mut columns = Cols::new(alloc);
    for sort in order {
        columns.push(sort.col)?;
    }
    Ok(columns)
}

fn names_rows(keys: Option<&KeyInfo>, columns: &Cols) -> bool
    ensures { result ≡ r.names_rows (option_copied keys.entry) columns.now }
{
    match keys {
        None => false,
        Some(keys) => has_within(keys.unique.as_slice(), columns),
    }
}
