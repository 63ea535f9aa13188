ghost use Rattle.std.specs.Prelude.{◌≡◌, ◌+◌, ℕ, List as Seq, length, IfOk};
ghost use Rattle.ct_value.specs.declared.ty.ColTy.{ColTy};
ghost use Rattle.plan_rules.specs.Plans.{Doing, network_of};
ghost use Rattle.stream_model.specs.Network.{IsWired};
ghost use Rattle.session_core.specs.LaidOut.{IsLaidOut};
ghost use Rattle.session_open.specs.Opening.{IsOpenable, MayOpen};
ghost use Rattle.plan_rules.specs.Columns.{AreColumns};
ghost use Rattle.session_open.specs.Wired.{AreWires};

use crate::bundles::bundles_of;
use crate::feeds::feeds_of;
use crate::made::range_types_of;
use crate::routes::routes_of;
use crate::tables::tables_of;
use crate::{PlanOperator, Wires};
use ct_value::{ColTys, List, Memory};
use phys_plan::Plan;
use session_core::Wiring;
use std::alloc::Global;

/// How a job of a plan is wired, under this limit on the changes sent.
pub(crate) fn wiring_of<O: PlanOperator>(
    alloc: Global,
    plan: &Plan,
    columns: &List<ColTys>,
    limit: u32,
) -> Result<Wiring, Memory>
    requires may { MayOpen plan.now columns.now }
    requires ready { (of : ℕ → Seq ColTy) × (doing : ℕ → Doing) × IsOpenable O.runs plan.now columns.now of doing }
    ensures { IfOk result (λ wiring. (of : ℕ → Seq ColTy) (doing : ℕ → Doing) → IsOpenable O.runs plan.now columns.now of doing → IsLaidOut wiring (network_of of doing plan.now) limit) }
{
    let wires = wires_of(alloc, plan, columns)?;
    let stages = wires.stages(alloc)?;
    let tables = tables_of(alloc, plan)?;
    let types = range_types_of::<O>(alloc, plan, columns)?;
    let Wires {
        parallelism,
        nodes,
        feeds,
        routes,
        bundles,
    } = wires;
    Ok(Wiring {
        alloc,
        parallelism,
        nodes,
        limit,
        feeds,
        routes,
        tables,
        types,
        bundles,
        stages,
    })
}

// How the nodes of a plan are joined.
fn wires_of(alloc: Global, plan: &Plan, columns: &List<ColTys>) -> Result<Wires, Memory>
    requires may { MayOpen plan.now columns.now }
    ensures wires { IfOk result (λ wires. (of : ℕ → Seq ColTy) (doing : ℕ → Doing) → AreColumns columns.now of → IsWired (network_of of doing plan.now) → AreWires wires (network_of of doing plan.now)) }
    ensures many { IfOk result (λ wires. (length wires.routes.items ≡ wires.nodes + 1) × (length wires.feeds.items ≡ wires.nodes + 1) × (wires.nodes ≡ length plan.now.nodes)) }
{
    let feeds = feeds_of(alloc, &plan.nodes)?;
    let routes = routes_of(alloc, plan, columns)?;
    let bundles = bundles_of(alloc, plan)?;
    Ok(Wires {
        parallelism: plan.parallelism,
        nodes: plan.nodes.len() as u32,
        feeds,
        routes,
        bundles,
    })
}
