//! What edges carry.
ghost use Rattle.std.specs.Prelude.{◌≡◌, ◌<◌, ◌≤◌, length};
ghost use Rattle.ct_change.specs.Changelog.{has};
ghost use Rattle.plan_rules.specs.Plans.{kinds_in};
ghost use Rattle.phys_plan.specs.Reading.{numbered};

use ct_change::Kind;
use phys_plan::Plan;

/// Whether an edge carries changes of a kind, by its number, from 1. It takes no memory.
pub fn edge_admits(plan: &Plan, edge: u32, kind: Kind) -> bool
    requires some { 0 < edge }
    requires edge { edge ≤ length plan.now.edges }
    ensures { result ≡ has (kinds_in (numbered plan.now.edges edge)) kind }
{
    plan.edges.as_slice()[edge as usize - 1]
        .kinds
        .contains(kind)
}
