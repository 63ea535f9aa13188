//! What is inferred of a plan.
ghost use Rattle.std.specs.Prelude.{◌≡◌, IfOk};
ghost use Rattle.plan_inferred.specs.Inferred as i;

use ct_value::{ColTys, Cols, List, Memory};
use mode_infer::{EdgeMode, Flow, flows, infer_modes, update_keys};
use phys_plan::{KeyInfo, Plan};
use std::alloc::Global;
use upsert_keys::infer_keys;

/// What is inferred of a plan, in tables by the nodes' numbers: the columns that nodes send, with an empty list at 0, and from 1 on
/// their keys, the kinds that they send, their update keys, and the modes of the edges that leave them.
#[derive(Drop)]
pub struct Inferred {
    pub columns: List<ColTys>,
    pub keys: List<KeyInfo>,
    pub flows: List<Flow>,
    pub update_keys: List<Option<Cols>>,
    pub modes: List<EdgeMode>,
}

/// What is inferred of a plan whose nodes send these columns, by their numbers, with an empty list at 0.
pub fn infer(alloc: Global, columns: List<ColTys>, plan: &Plan) -> Result<Inferred, Memory>
    ensures { IfOk result (λ made. made ≡ i.inferred columns plan.now) }
{
    let sources = plan.sources.as_slice();
    let nodes = plan.nodes.as_slice();
    let sent = columns.as_slice();
    let keys = infer_keys(alloc, sent, sources, plan.edges.as_slice(), nodes)?;
    let flows = flows(alloc, sources, nodes)?;
    let update_keys = update_keys(alloc, sent, nodes)?;
    let modes = infer_modes(alloc, sent, sources, &plan.sink, nodes)?;
    Ok(Inferred {
        columns,
        keys,
        flows,
        update_keys,
        modes,
    })
}
