//! The columns of nodes.
ghost use Rattle.std.specs.Prelude.{◌≡◌, option_copied, IfOk};
ghost use Rattle.phys_plan.specs.Reading.{numbered};
ghost use Rattle.plan_check.specs.Types as t;

use crate::operators::next_types;
use crate::sinks::is_typed_by;
use ct_catalog::Sources;
use ct_value::Memory;
use phys_plan::{Node, Nodes, Plan};
use plan_shape::{NodeColumns, numbered_columns};
use std::alloc::Global;

/// The columns of all nodes of a plan.
pub(crate) fn plan_types(alloc: Global, plan: &Plan) -> Result<NodeColumns, Memory>
    ensures { IfOk result (λ types. types ≡ t.all_types plan.now.sources plan.now.nodes) }
{
    all_types(alloc, &plan.sources, &plan.nodes)
}

fn all_types(alloc: Global, sources: &Sources, nodes: &Nodes) -> Result<NodeColumns, Memory>
    ensures { IfOk result (λ types. types ≡ t.all_types sources.now nodes.now) }
{
    let mut done = NodeColumns::with_capacity(alloc, nodes.len())?;
    for node in nodes.as_slice() {
        let columns = next_types(sources, &done, node)?;
        done.push(columns)?;
    }
    Ok(done)
}

/// Whether a node meets the rule Types, by its number and the columns of all nodes.
pub(crate) fn has_types(plan: &Plan, types: &NodeColumns, number: u32) -> bool
    requires { types.now ≡ t.all_types plan.now.sources plan.now.nodes }
    ensures { result ≡ t.has_types plan.now number }
{
    match node_at(plan, number) {
        None => true,
        Some(node) => is_typed_by(&plan.sink, &node.op, numbered_columns(types, number)),
    }
}

fn node_at(plan: &Plan, number: u32) -> Option<&Node>
    ensures { option_copied result ≡ numbered plan.now.nodes number }
{
    if number == 0 {
        return None;
    }
    plan.nodes.get(number as usize - 1)
}
