ghost use Rattle.std.specs.Prelude.{◌≡◌, ◌++◌, ◌&&◌, true, false, cond, None, IfOk, OnOk};
ghost use Rattle.std.specs.List.{AllByRecursion};
ghost use Rattle.std.specs.BTreeMap.{get, IsOrdered};
ghost use Rattle.ct_value.specs.Order.{row_cmp};
ghost use Rattle.ct_change.specs.Changelog.{same_row};
ghost use Rattle.agg_fns.specs.Partial.{has_partial};
ghost use Rattle.op_rules.specs.Faults.{IfRange};
ghost use Rattle.phase_rules.specs.Merging.{within_after};
ghost use Rattle.op_merge.specs.Kept.{ForKept, has_results, is_nothing};
ghost use Rattle.op_merge.specs.Groups.{Amounts, AreMerged, IsTold, amounts_of, local_of, unless_blank, with_more};

use crate::kept::Kept;
use crate::turn::take_turn;
use agg_fns::AccFault;
use ct_change::Changes;
use ct_value::{ColTys, Memory, Row};
use op_rules::OpFault;
use rel_algebra::Aggs;
use std::alloc::Global;
use std::collections::BTreeMap;

/// Which partial rows are merged: with how many key columns, and then the partials of which calls over rows of which
/// columns.
#[derive(Debug, Drop)]
pub struct MergeBy {
    pub alloc: Global,
    pub keys: u32,
    pub aggs: Aggs,
    pub tys: ColTys,
}

/// The row of a group before and after its partial rows, none where it has none.
#[derive(Debug, Drop)]
pub struct Results {
    pub old: Option<Row>,
    pub fresh: Option<Row>,
}

/// Partial rows of the group with this key are merged in turn. The group is forgotten where all of them then amount to
/// nothing. It is out of range, at its key, exactly where a sum leaves its limit on the way or a call is out of range
/// at the end.
pub(crate) fn merge_group(
    by: &MergeBy,
    groups: &mut BTreeMap<Row, Kept>,
    key: Row,
    changes: &Changes,
) -> Result<Results, OpFault>
    requires partials { AllByRecursion (λ agg. has_partial agg.call ≡ true) by.now.aggs }
    requires are { (of : Amounts) × AreMerged by.now groups.old of }
    ensures told { IfOk result (λ results. (of : Amounts) → AreMerged by.now groups.old of → IsTold (local_of by.now) key (of key) (amounts_of by.now.keys changes.now) results) }
    ensures kept { OnOk result ((of : Amounts) → AreMerged by.now groups.old of → AreMerged by.now groups.new (with_more of key (amounts_of by.now.keys changes.now))) }
    ensures key { IfRange result (λ row. row ≡ key) }
    ensures range { IfRange result (λ row. (of : Amounts) → AreMerged by.now groups.old of → (within_after (local_of by.now) (of key) (amounts_of by.now.keys changes.now) && has_results (local_of by.now) (of key ++ amounts_of by.now.keys changes.now)) ≡ false) }
{
    let Some(kept) = groups.get_mut(&key) else {
        return merge_anew(by, groups, key, changes);
    };
    let results = match take_turn(kept, &key, by.keys, changes) {
        Ok(results) => results,
        Err(AccFault::Out) => return Err(OpFault::Range(key)),
        Err(AccFault::Memory) => return Err(OpFault::Memory),
    };
    let blank = kept.is_blank();
    if blank {
        forget(groups, &key);
    }
    Ok(results)
}

// The same of a group that isn't there.
fn merge_anew(
    by: &MergeBy,
    groups: &mut BTreeMap<Row, Kept>,
    key: Row,
    changes: &Changes,
) -> Result<Results, OpFault>
    requires partials { AllByRecursion (λ agg. has_partial agg.call ≡ true) by.now.aggs }
    requires are { (of : Amounts) × AreMerged by.now groups.old of }
    requires absent { get row_cmp groups.old key ≡ None }
    ensures told { IfOk result (λ results. (of : Amounts) → AreMerged by.now groups.old of → IsTold (local_of by.now) key (of key) (amounts_of by.now.keys changes.now) results) }
    ensures kept { OnOk result ((of : Amounts) → AreMerged by.now groups.old of → AreMerged by.now groups.new (with_more of key (amounts_of by.now.keys changes.now))) }
    ensures key { IfRange result (λ row. row ≡ key) }
    ensures range { IfRange result (λ row. (of : Amounts) → AreMerged by.now groups.old of → (within_after (local_of by.now) (of key) (amounts_of by.now.keys changes.now) && has_results (local_of by.now) (of key ++ amounts_of by.now.keys changes.now)) ≡ false) }
{
    let mut kept = Kept::new(by.alloc, &by.aggs, &by.tys)?;
    let results = match take_turn(&mut kept, &key, by.keys, changes) {
        Ok(results) => results,
        Err(AccFault::Out) => return Err(OpFault::Range(key)),
        Err(AccFault::Memory) => return Err(OpFault::Memory),
    };
    put_in(groups, key, kept)?;
    Ok(results)
}

// Lets a group go.
fn forget(groups: &mut BTreeMap<Row, Kept>, key: &Row)
    ensures gone { (other : Row) → get row_cmp groups.new other ≡ cond (same_row key.now other) None (get row_cmp groups.old other) }
    ensures ordered { IsOrdered row_cmp groups.new }
{
    groups.remove(key);
}

// Puts what is kept of a group in, which mustn't be there, unless its partial rows amount to nothing.
fn put_in(groups: &mut BTreeMap<Row, Kept>, key: Row, kept: Kept) -> Result<(), Memory>
    requires absent { get row_cmp groups.old key ≡ None }
    requires ordered { IsOrdered row_cmp groups.old }
    ensures put { OnOk result (ForKept kept (λ l rows. (other : Row) → get row_cmp groups.new other ≡ cond (same_row key other) (unless_blank (is_nothing l rows) kept) (get row_cmp groups.old other))) }
    ensures ordered { OnOk result (IsOrdered row_cmp groups.new) }
{
    let blank = kept.is_blank();
    if blank {
        return Ok(());
    }
    groups.insert(key, kept)?;
    Ok(())
}
