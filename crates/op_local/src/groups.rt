//! What is told of changes, group by group.
ghost use Rattle.std.specs.Prelude.{◌≡◌, ◌+◌, ◌≤◌, length, Ok, Err, IfOk};
ghost use Rattle.emission_rules.specs.Grouping.{answers, groups_of};
ghost use Rattle.mini_batch.specs.Held.{held_in};
ghost use Rattle.op_rules.specs.Faults.{IfRange};
ghost use Rattle.phase_rules.specs.LocalGrouping.{local_answer, members_of};
ghost use Rattle.op_local.specs.Telling.{MayAllBeTold, MayBeTold, told_along};

use crate::telling::tell_group;
use ct_change::{Changes, Steps};
use mini_batch::Bundle;
use op_rules::OpFault;
use rel_algebra::Aggs;
use std::alloc::Global;
use std::sync::ledger::Ledger;

/// What is told of changes, for each group that the first `keys` values of their rows name, in first-seen order.
pub(crate) fn tell_changes<L: Ledger>(
    alloc: Global,
    keys: u32,
    aggs: &Aggs,
    changes: Changes,
    steps: &mut Steps<L>,
) -> Result<Changes, OpFault>
    requires { MayBeTold aggs.now changes }
    ensures sent { IfOk result (λ sent. answers (λ key. local_answer aggs.now key (members_of keys key changes)) (groups_of keys changes) ≡ Ok sent) }
    ensures range { IfRange result (λ row. answers (λ key. local_answer aggs.now key (members_of keys key changes)) (groups_of keys changes) ≡ Err row) }
    ensures cost { steps.new ≤ steps.old + length changes }
{
    let bundle = Bundle::of_changes(alloc, keys, changes)?;
    tell_groups(alloc, aggs, bundle, steps)
}

// What is told of the groups of a bundle, of one behind the other.
fn tell_groups<L: Ledger>(
    alloc: Global,
    aggs: &Aggs,
    bundle: Bundle,
    steps: &mut Steps<L>,
) -> Result<Changes, OpFault>
    requires { MayAllBeTold aggs.now bundle.entries }
    ensures sent { IfOk result (λ sent. told_along aggs.now bundle.entries ≡ Ok sent) }
    ensures range { IfRange result (λ row. told_along aggs.now bundle.entries ≡ Err row) }
    ensures cost { steps.new ≤ steps.old + held_in bundle.entries }
{
    let mut left = bundle;
    let mut sent = Changes::new(alloc);
    'groups: while let Some((key, changes)) = left.take_first() {
        match tell_group(alloc, aggs, key, changes, steps) {
            Ok(told) => sent.append(told)?,
            Err(fault) => return Err(fault),
        }
    }
    Ok(sent)
}
