ghost use Rattle.std.specs.Prelude.{◌≡◌, ◌<◌, ◌+◌, ℕ, None, get_or, length, IfOk};
ghost use Rattle.phys_plan.specs.Reading.{numbered};
ghost use Rattle.plan_rules.specs.Plans as plans;
ghost use Rattle.plan_rules.specs.Plans.{bundle_in};

use crate::numbers::node_at;
use ct_value::Memory;
use phys_plan::{Op, Plan};
use std::alloc::Global;

/// How many changes a bundle of each node holds, by the node's number, where the node keeps bundles.
pub(crate) fn bundles_of(alloc: Global, plan: &Plan) -> Result<Vec<Option<u32>>, Memory>
    requires few { length plan.now.nodes < 999 }
    ensures many { IfOk result (λ sizes. length sizes.items ≡ length plan.now.nodes + 1) }
    ensures sizes { IfOk result (λ sizes. (v : ℕ) → v < length plan.now.nodes + 1 → get_or sizes.items v None ≡ bundle_in plan.now.mini_batch (numbered plan.now.nodes v)) }
{
    let mut sizes = Vec::new(alloc);
    for node in 0..plan.nodes.len() as u32 + 1 {
        sizes.push(bundle_at(plan, node))?;
    }
    Ok(sizes)
}

// How many changes a bundle of a node holds.
fn bundle_at(plan: &Plan, node: u32) -> Option<u32>
    ensures { result ≡ bundle_in plan.now.mini_batch (numbered plan.now.nodes node) }
{
    match node_at(plan, node) {
        Some(of) => bundle_of(plan.mini_batch, &of.op),
        None => None,
    }
}

// How many changes a bundle of an operator holds, where it keeps bundles.
fn bundle_of(size: u32, op: &Op) -> Option<u32>
    ensures { result ≡ plans.bundle_of size op.now }
{
    match op {
        Op::BatchGroup { .. } => Some(size),
        Op::LocalGroup { .. } => Some(size),
        _ => None,
    }
}
