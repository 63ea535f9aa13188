//! The changes of a bundle, taken group by group.
ghost use Rattle.std.specs.Prelude.{◌≡◌, ◌+◌, ◌<◌, length, Ok, Err, IfOk, OnOk};
ghost use Rattle.op_rules.specs.Faults.{IfRange};
ghost use Rattle.op_group.specs.Groups.{IsGrouped};
ghost use Rattle.op_group.specs.Bundles.{ForAllFolded, ForAllTaken, MayFoldAllSome, MayTakeAllSome, folded, told_along, HoldsFolded};
ghost use Rattle.ct_change.specs.Changelog.{fold_from};
ghost use Rattle.emission_rules.specs.Grouping.{answers, group_emits, groups_of};

use crate::fold::take_group;
use crate::groups::GroupBy;
use crate::kept::Kept;
use ct_change::{Changes, InMode, OutMode};
use ct_value::Row;
use mini_batch::Bundle;
use op_rules::OpFault;
use std::collections::BTreeMap;

/// The groups of a bundle take their changes, one group after the other, and what is emitted for each stands behind what is emitted
/// for those before it.
pub(crate) fn take_groups<I: InMode, O: OutMode>(
    by: &GroupBy,
    input: &I,
    output: &O,
    rows: &mut I::Kept,
    groups: &mut BTreeMap<Row, Kept>,
    bundle: Bundle,
) -> Result<Changes, OpFault>
    requires { MayFoldAllSome by.now (I.mode input.now) (O.mode output.now) (I.stands_for input.now rows.old) groups.old bundle.entries }
    ensures sent { IfOk result (λ sent. ForAllFolded by.now (I.mode input.now) (O.mode output.now) (I.stands_for input.now rows.old) groups.old bundle.entries (λ g stood held. told_along g stood bundle.entries ≡ Ok sent)) }
    ensures rows { OnOk result (ForAllFolded by.now (I.mode input.now) (O.mode output.now) (I.stands_for input.now rows.old) groups.old bundle.entries (λ g stood held. I.stands_for input.now rows.new (folded g.input stood bundle.entries))) }
    ensures kept { OnOk result (ForAllFolded by.now (I.mode input.now) (O.mode output.now) (I.stands_for input.now rows.old) groups.old bundle.entries (λ g stood held. HoldsFolded by.now g stood groups.new held bundle.entries)) }
    ensures range { IfRange result (λ row. ForAllFolded by.now (I.mode input.now) (O.mode output.now) (I.stands_for input.now rows.old) groups.old bundle.entries (λ g stood held. told_along g stood bundle.entries ≡ Err row)) }
{
    let mut left = bundle;
    let mut sent = Changes::new(by.alloc);
    'groups: while let Some((key, changes)) = left.take_first() {
        if let Err(fault) = take_group(by, input, output, rows, groups, key, changes, &mut sent) {
            return Err(fault);
        }
    }
    Ok(sent)
}

/// Takes changes, group by group, and answers what is emitted for them as one piece.
pub(crate) fn take_changes<I: InMode, O: OutMode>(
    by: &GroupBy,
    input: &I,
    output: &O,
    rows: &mut I::Kept,
    groups: &mut BTreeMap<Row, Kept>,
    changes: Changes,
) -> Result<Changes, OpFault>
    requires { MayTakeAllSome by.now (I.mode input.now) (O.mode output.now) (I.stands_for input.now rows.old) groups.old changes }
    ensures sent { IfOk result (λ sent. ForAllTaken by.now (I.mode input.now) (O.mode output.now) (I.stands_for input.now rows.old) groups.old changes (λ g stood held. answers (group_emits g stood changes) (groups_of g.keys changes) ≡ Ok sent)) }
    ensures rows { OnOk result (ForAllTaken by.now (I.mode input.now) (O.mode output.now) (I.stands_for input.now rows.old) groups.old changes (λ g stood held. I.stands_for input.now rows.new (fold_from g.input stood changes))) }
    ensures kept { OnOk result (ForAllTaken by.now (I.mode input.now) (O.mode output.now) (I.stands_for input.now rows.old) groups.old changes (λ g stood held. IsGrouped by.now g (fold_from g.input stood changes) groups.new (held + length changes))) }
    ensures range { IfRange result (λ row. ForAllTaken by.now (I.mode input.now) (O.mode output.now) (I.stands_for input.now rows.old) groups.old changes (λ g stood held. answers (group_emits g stood changes) (groups_of g.keys changes) ≡ Err row)) }
{
    let bundle = Bundle::of_changes(by.alloc, by.keys, changes)?;
    take_groups(by, input, output, rows, groups, bundle)
}
