//! The lines of a plan.
ghost use Rattle.std.specs.Prelude.{◌≡◌, ◌+◌, ◌++◌, ◌<◌, ◌^◌, OnOk, IfOk};
ghost use Rattle.phys_plan.specs.Explained as e;

use crate::exchanges::{push_edge, push_inputs};
use crate::node::push_operator;
use crate::texts::push_number;
use crate::{Node, Plan};
use ct_value::{Bytes, Memory};
use std::alloc::Global;

/// The text of a plan, one line for each node, whose numbers go on behind those of so many other nodes (Flink documentation, "EXPLAIN
/// Statements"). Each line has the node's number, what it does, its inputs, the exchange of its edge and the kinds that the edge carries.
pub fn explain_text(alloc: Global, plan: &Plan, before: u32) -> Result<Bytes, Memory>
    ensures { IfOk result (λ text. text ≡ e.explained before plan.now) }
{
    let mut text = Bytes::new(alloc);
    let nodes = plan.nodes.as_slice();
    for i in 0..nodes.len() {
        push_line(alloc, &mut text, plan, before, i, &nodes[i])?;
    }
    Ok(text)
}

// Puts the line of the node at an index behind a text.
fn push_line(
    alloc: Global,
    text: &mut Bytes,
    plan: &Plan,
    before: u32,
    index: usize,
    node: &Node,
) -> Result<(), Memory>
    requires { index < 2 ^ 63 }
    ensures { OnOk result (text.new ≡ text.old ++ e.node_line plan.now before (index + 1) node.now) }
{
    let inputs = node.inputs.as_slice();
    push_number(alloc, text, before as u64 + (index as u64 + 1))?;
    text.extend(b" ")?;
    push_operator(alloc, text, plan, &node.op, inputs.len())?;
    push_inputs(alloc, text, before, inputs)?;
    push_edge(alloc, text, &node.op, plan.edges.get(index))?;
    text.extend(b"\n")
}
