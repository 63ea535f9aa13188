//! The shape of a plan and of its nodes.
ghost use Rattle.std.specs.Prelude.{◌≡◌, true, option_copied, IfOk};
ghost use Rattle.phys_plan.specs.Reading.{numbered};
ghost use Rattle.plan_shape.specs.Shape as s;

use crate::consumers::is_consumed;
use crate::inputs::is_fed;
use crate::tables::{are_tables, is_upsert};
use ct_catalog::TableDef;
use ct_value::{Cols, Memory};
use phys_plan::{Node, Op, Plan};
use std::alloc::Global;

const MOST_NODES: usize = 128;

const MOST_SUBTASKS: u32 = 16;

const MOST_BUNDLED: u32 = 1000000;

/// Whether what the rule Shape says of a whole plan holds: how many nodes, edges and subtasks it has, its tables, and how much a
/// bundle holds.
pub fn is_whole(alloc: Global, plan: &Plan) -> Result<bool, Memory>
    ensures { IfOk result (λ is. is ≡ s.is_whole plan.now) }
{
    if has_sizes(plan) {
        are_tables(alloc, &plan.sink, plan.sources.as_slice())
    } else {
        Ok(false)
    }
}

// Whether there are as many nodes, edges and subtasks as there may be, and a bundle holds as much.
fn has_sizes(plan: &Plan) -> bool
    ensures { result ≡ s.has_sizes plan.now }
{
    has_nodes(plan) && plan.mini_batch <= MOST_BUNDLED && has_subtasks(plan.parallelism)
}

fn has_nodes(plan: &Plan) -> bool
    ensures { result ≡ s.has_nodes plan.now }
{
    let nodes = plan.nodes.len();
    1 <= nodes && nodes <= MOST_NODES && plan.edges.len() == nodes
}

fn has_subtasks(parallelism: u32) -> bool
    ensures { result ≡ s.is_up_to s.most_subtasks parallelism }
{
    1 <= parallelism && parallelism <= MOST_SUBTASKS
}

/// Whether a node of a whole plan meets the rule Shape, by its number, from 1.
pub fn has_shape(plan: &Plan, number: u32) -> bool
    requires whole { s.is_whole plan.now ≡ true }
    ensures { result ≡ s.has_shape plan.now number }
{
    match node_at(plan, number) {
        None => true,
        Some(node) => node_has_shape(plan, number, node),
    }
}

fn node_at(plan: &Plan, number: u32) -> Option<&Node>
    ensures { option_copied result ≡ numbered plan.now.nodes number }
{
    if number == 0 {
        return None;
    }
    plan.nodes.get(number as usize - 1)
}

fn node_has_shape(plan: &Plan, number: u32, node: &Node) -> bool
    ensures { result ≡ s.node_has_shape plan.now number node.now }
{
    are_before(number, node.inputs.as_slice())
        && suits_plan(plan, &node.op)
        && is_fed(plan, node)
        && is_consumed(plan, number, &node.op)
}

// Whether the inputs are nodes with smaller numbers.
fn are_before(number: u32, inputs: &[u32]) -> bool
    ensures { result ≡ s.are_before number inputs.now }
{
    inputs.iter().all(|input| 0 < *input && *input < number)
}

// Whether a plan has what an operator asks of its tables and sizes.
fn suits_plan(plan: &Plan, op: &Op) -> bool
    ensures { result ≡ s.suits_plan plan.now op.now }
{
    match op {
        Op::Scan { source } => (*source as usize) < plan.sources.len(),
        Op::Materialize { key } => is_sink_key(&plan.sink, key, &plan.sink.key),
        Op::BatchGroup { keys, .. } => 0 < plan.mini_batch && 0 < *keys,
        Op::LocalGroup { .. } => 0 < plan.mini_batch,
        _ => true,
    }
}

// Whether a sink is one of upserts by this key.
fn is_sink_key(sink: &TableDef, key: &Cols, of_sink: &Option<Cols>) -> bool
    ensures { result ≡ s.is_sink_key sink.now key.now of_sink.now }
{
    match of_sink {
        None => false,
        Some(of_sink) => is_upsert(sink.mode) && key.as_slice() == of_sink.as_slice(),
    }
}
