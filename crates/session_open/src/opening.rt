ghost use Rattle.std.specs.Prelude.{◌≡◌, ◌<◌, ◌+◌, ◌*◌, ◌++◌, ◌∷◌, ℕ, [], length, IfOk, IfErr, OnOk};
ghost use Rattle.stream_model.specs.Network.{Network};
ghost use Rattle.session_core.specs.Runs.{AllRun};
ghost use Rattle.op_rules.specs.Tasks.{total};
ghost use Rattle.session_open.specs.Opening.{ForOpened, HaveOpened, IsStarted, IsTooMany, MayStart, opens_with, Opens};

use crate::made::open_node;
use crate::{OpenFault, PlanOperator};
use ct_change::Changes;
use ct_value::{ColTys, List, Memory};
use phys_plan::Plan;
use session_channels::{Channels, send_all};
use session_core::{Operators, Wiring};
use session_subtasks::Subtask;
use std::alloc::Global;

/// The subtasks of a plan, of each node, of which each sent what it opens with: they stand for nothing consumed, and hold nothing.
pub(crate) fn open_operators<O: PlanOperator>(
    alloc: Global,
    plan: &Plan,
    columns: &List<ColTys>,
    wiring: &Wiring,
    channels: &mut Channels,
) -> Result<Operators<O>, OpenFault>
    requires few { length plan.now.nodes < 999 }
    requires narrow { plan.now.parallelism < 17 }
    requires some { 0 < plan.now.parallelism }
    requires ready { (g : Network) × (limit : ℕ) × Opens O.runs plan.now columns.now wiring.now g limit × HaveOpened g limit 0 channels.old }
    ensures width { IfOk result (λ made. made.width ≡ plan.now.parallelism) }
    ensures nodes { IfOk result (λ made. made.nodes ≡ length plan.now.nodes + 1) }
    ensures runs { IfOk result (λ made. ForOpened O.runs plan.now columns.now wiring.now 0 channels.old (λ g limit. AllRun O.rule O.broken O.stands_for O.takes_pieces g made.width made.items.items (λ v j. []) (λ v j. []))) }
    ensures opened { OnOk result (ForOpened O.runs plan.now columns.now wiring.now 0 channels.old (λ g limit. HaveOpened g limit ((length plan.now.nodes + 1) * plan.now.parallelism) channels.new)) }
    ensures err { IfErr result (λ fault. ForOpened O.runs plan.now columns.now wiring.now 0 channels.old (λ g limit. IsTooMany limit (total ((length plan.now.nodes + 1) * plan.now.parallelism) (opens_with g)) fault)) }
{
    let width = plan.parallelism as usize;
    let nodes = plan.nodes.len() + 1;
    let mut items = Vec::new(alloc);
    for place in 0..nodes * width {
        let node = (place / width) as u32;
        let subtask = (place % width) as u32;
        let op = open_subtask(alloc, plan, columns, wiring, channels, node, subtask)?;
        put(&mut items, op)?;
    }
    Ok(Operators {
        nodes,
        width,
        items,
    })
}

// Puts an item behind the others.
fn put<T: Drop>(items: &mut Vec<T>, item: T) -> Result<(), Memory>
    ensures { OnOk result (items.new.items ≡ items.old.items ++ item ∷ []) }
{
    items.push(item)?;
    Ok(())
}

// A subtask, which sent what it opens with.
fn open_subtask<O: PlanOperator>(
    alloc: Global,
    plan: &Plan,
    columns: &List<ColTys>,
    wiring: &Wiring,
    channels: &mut Channels,
    node: u32,
    subtask: u32,
) -> Result<Option<Subtask<O>>, OpenFault>
    requires node { node < length plan.now.nodes + 1 }
    requires subtask { subtask < plan.now.parallelism }
    requires ready { (g : Network) × (limit : ℕ) × Opens O.runs plan.now columns.now wiring.now g limit × HaveOpened g limit (node * plan.now.parallelism + subtask) channels.old }
    ensures made { IfOk result (λ op. (g : Network) (limit : ℕ) → Opens O.runs plan.now columns.now wiring.now g limit → IsStarted O.rule O.broken O.stands_for O.takes_pieces g node op) }
    ensures opened { OnOk result (ForOpened O.runs plan.now columns.now wiring.now (node * plan.now.parallelism + subtask) channels.old (λ g limit. HaveOpened g limit (node * plan.now.parallelism + subtask + 1) channels.new)) }
    ensures err { IfErr result (λ fault. ForOpened O.runs plan.now columns.now wiring.now (node * plan.now.parallelism + subtask) channels.old (λ g limit. IsTooMany limit (total (node * plan.now.parallelism + subtask + 1) (opens_with g)) fault)) }
{
    let (op, mut sent) = open_node(alloc, plan, columns, node, subtask)?;
    start(wiring, channels, node, subtask, &mut sent)?;
    Ok(op)
}

// A subtask sends what it opens with, unless that would pass the limit.
fn start(
    wiring: &Wiring,
    channels: &mut Channels,
    node: u32,
    subtask: u32,
    changes: &mut Changes,
) -> Result<(), OpenFault>
    requires ready { (g : Network) × (limit : ℕ) × MayStart wiring.now channels.old node subtask changes.old g limit }
    ensures ok { OnOk result ((g : Network) (limit : ℕ) → MayStart wiring.now channels.old node subtask changes.old g limit → HaveOpened g limit (node * g.subtasks + subtask + 1) channels.new) }
    ensures err { IfErr result (λ fault. (g : Network) (limit : ℕ) → MayStart wiring.now channels.old node subtask changes.old g limit → IsTooMany limit (total (node * g.subtasks + subtask + 1) (opens_with g)) fault) }
{
    if ((wiring.limit - channels.sent) as usize) < changes.len() {
        return Err(OpenFault::Limit);
    }
    let route = &wiring.routes[node as usize];
    send_all(wiring.alloc, channels, route, node, subtask, changes)?;
    Ok(())
}
