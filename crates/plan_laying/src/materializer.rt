//! A materializer before the sink of a plan.
ghost use Rattle.std.specs.Prelude.{◌≡◌, IfOk};
ghost use Rattle.plan_rules.specs.Pieces.{shown as ShownBy};
ghost use Rattle.plan_laying.specs.Topped.{all_but_last, topped_plan};

use crate::laying::Laying;
use crate::parts::send_last;
use ct_value::{Cols, List, Memory};
use phys_plan::{Exchange, Plan};
use std::alloc::Global;

/// The plan, of which the last node is the sink, with a materializer by this key before it.
#[tactic(auto, using(crate::proofs::laws::Laid::shown_plan))]
pub fn with_materializer(alloc: Global, laid: Plan, key: Cols) -> Result<Plan, Memory>
    ensures { IfOk result (λ plan. plan ≡ topped_plan (ShownBy key) laid) }
{
    let Plan {
        sources,
        sink,
        nodes,
        edges,
        parallelism,
        mini_batch,
    } = laid;
    let mut edges = all_but_last(edges);
    send_last(&mut edges, Exchange::Hash(key.dup()?))?;
    let mut laying = Laying {
        alloc,
        sources,
        mini_batch,
        two_phase: false,
        nodes: all_but_last(nodes),
        edges,
    };
    let Ok(()) = laying.push_shown(key) else {
        return Err(Memory);
    };
    let Laying {
        sources,
        nodes,
        edges,
        ..
    } = laying;
    Ok(Plan {
        sources,
        sink,
        nodes,
        edges,
        parallelism,
        mini_batch,
    })
}

#[tactic(auto, using(crate::proofs::laws::LastEdges::popped))]
fn all_but_last<T: Drop>(items: List<T>) -> List<T>
    ensures { result ≡ all_but_last items }
{
    let mut items = items;
    items.pop();
    items
}
