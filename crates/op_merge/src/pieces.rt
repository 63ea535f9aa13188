//! The partial rows of a bundle, merged group by group.
ghost use Rattle.std.specs.Prelude.{◌≡◌, ◌++◌, ◌<◌, ◌≤◌, ◌^◌, length, Ok, Err, IfOk, OnOk};
ghost use Rattle.std.specs.List.{AllByRecursion};
ghost use Rattle.op_rules.specs.Faults.{IfRange};
ghost use Rattle.op_rules.specs.Rules.{appended};
ghost use Rattle.emission_rules.specs.Grouping.{answers, groups_of};
ghost use Rattle.phase_rules.specs.Merging.{amounts_in, merge_answer};
ghost use Rattle.op_merge.specs.Bundles.{AreNamed, grown, told_along};
ghost use Rattle.ct_value.specs.declared.row.Row.{Row as Key};
ghost use Rattle.op_merge.specs.Groups.{Amounts, AreMerged, CanMerge, amounts_of, merging, with_more};

use crate::groups::{MergeBy, merge_group};
use crate::kept::Kept;
use ct_change::{Changes, OutMode};
use ct_value::Row;
use mini_batch::Bundle;
use op_rules::OpFault;
use std::collections::BTreeMap;

/// Partial rows of the group with this key are merged in turn, and what is emitted for them is put behind what stands
/// in `to`.
pub(crate) fn take_group<O: OutMode>(
    by: &MergeBy,
    output: &O,
    groups: &mut BTreeMap<Row, Kept>,
    key: Row,
    changes: Changes,
    to: &mut Changes,
) -> Result<(), OpFault>
    requires can { CanMerge (merging by.now (O.mode output.now)) }
    requires are { (of : Amounts) × AreMerged by.now groups.old of }
    requires named { length key ≡ by.now.keys }
    ensures sent { OnOk result ((of : Amounts) → AreMerged by.now groups.old of → appended (Ok to.old) (merge_answer (merging by.now (O.mode output.now)) key (of key) (amounts_of by.now.keys changes)) ≡ Ok to.new) }
    ensures kept { OnOk result ((of : Amounts) → AreMerged by.now groups.old of → AreMerged by.now groups.new (with_more of key (amounts_of by.now.keys changes))) }
    ensures range { IfRange result (λ row. (of : Amounts) → AreMerged by.now groups.old of → merge_answer (merging by.now (O.mode output.now)) key (of key) (amounts_of by.now.keys changes) ≡ Err row) }
{
    let results = match merge_group(by, groups, key, &changes) {
        Ok(results) => results,
        Err(fault) => return Err(fault),
    };
    output.emit(results.old, results.fresh, to)?;
    Ok(())
}

/// The groups of a bundle take their partial rows, one group after the other, and what is emitted for each stands
/// behind what is emitted for those before it.
pub(crate) fn take_groups<O: OutMode>(
    by: &MergeBy,
    output: &O,
    groups: &mut BTreeMap<Row, Kept>,
    bundle: Bundle,
) -> Result<Changes, OpFault>
    requires can { CanMerge (merging by.now (O.mode output.now)) }
    requires are { (of : Amounts) × AreMerged by.now groups.old of }
    requires named { AreNamed by.now.keys bundle.entries }
    ensures sent { IfOk result (λ sent. (of : Amounts) → AreMerged by.now groups.old of → told_along (merging by.now (O.mode output.now)) of bundle.entries ≡ Ok sent) }
    ensures kept { OnOk result ((of : Amounts) → AreMerged by.now groups.old of → AreMerged by.now groups.new (grown by.now.keys of bundle.entries)) }
    ensures range { IfRange result (λ row. (of : Amounts) → AreMerged by.now groups.old of → told_along (merging by.now (O.mode output.now)) of bundle.entries ≡ Err row) }
{
    let mut left = bundle;
    let mut sent = Changes::new(by.alloc);
    'groups: while let Some((key, changes)) = left.take_first() {
        if let Err(fault) = take_group(by, output, groups, key, changes, &mut sent) {
            return Err(fault);
        }
    }
    Ok(sent)
}

/// Takes partial rows, group by group, and answers what is emitted for them as one piece.
pub(crate) fn take_changes<O: OutMode>(
    by: &MergeBy,
    output: &O,
    groups: &mut BTreeMap<Row, Kept>,
    changes: Changes,
) -> Result<Changes, OpFault>
    requires can { CanMerge (merging by.now (O.mode output.now)) }
    requires are { (of : Amounts) × AreMerged by.now groups.old of }
    requires long { AllByRecursion (λ change. by.now.keys ≤ length change.row) changes }
    requires few { length changes < 2 ^ 32 }
    ensures sent { IfOk result (λ sent. (of : Amounts) → AreMerged by.now groups.old of → answers (λ key. merge_answer (merging by.now (O.mode output.now)) key (of key) (amounts_in by.now.keys key changes)) (groups_of by.now.keys changes) ≡ Ok sent) }
    ensures kept { OnOk result ((of after : Amounts) → AreMerged by.now groups.old of → ((key : Key) → after key ≡ of key ++ amounts_in by.now.keys key changes) → AreMerged by.now groups.new after) }
    ensures range { IfRange result (λ row. (of : Amounts) → AreMerged by.now groups.old of → answers (λ key. merge_answer (merging by.now (O.mode output.now)) key (of key) (amounts_in by.now.keys key changes)) (groups_of by.now.keys changes) ≡ Err row) }
{
    let bundle = Bundle::of_changes(by.alloc, by.keys, changes)?;
    take_groups(by, output, groups, bundle)
}
