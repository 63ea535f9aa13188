ghost use Rattle.std.specs.Prelude.{◌≡◌, ◌==◌, ◌<◌, [], true, false, cond, None, IsSome, IfOk, OnOk, option_copied};
ghost use Rattle.std.specs.BTreeMap.{get, IsOrdered};
ghost use Rattle.ct_value.specs.Bag.{none};
ghost use Rattle.ct_value.specs.Order.{row_cmp};
ghost use Rattle.ct_value.specs.declared.row.Row.{Row};
ghost use Rattle.ct_change.specs.Changelog.{Rows, same_row};
ghost use Rattle.op_rules.specs.Faults.{IfRange};
ghost use Rattle.op_group.specs.Kept.{HasRow, AllRetract, IsKept, all_counted, row_in};
ghost use Rattle.op_group.specs.Groups.{AreKept, ForTurned, IsTold, IsTurned, MayTurn, in_range, unless_empty};

use crate::kept::Kept;
use crate::turn::take_turn;
use agg_fns::AccFault;
use ct_value::{ColTys, Memory, Row, Values};
use op_rules::OpFault;
use rel_algebra::Aggs;
use std::alloc::Global;
use std::collections::BTreeMap;

/// How rows of these columns are grouped: by how many first columns, with which calls over each group, and whether rows
/// can be removed again.
#[derive(Debug, Drop)]
pub struct GroupBy {
    pub alloc: Global,
    pub keys: u32,
    pub aggs: Aggs,
    pub tys: ColTys,
    pub retracting: bool,
}

/// The row of a group before and after a change, none where it has none.
#[derive(Debug, Drop)]
pub struct Results {
    pub old: Option<Row>,
    pub fresh: Option<Row>,
}

/// The row of the group of no rows that has no key.
pub fn first_row(by: &GroupBy) -> Result<Option<Row>, Memory>
    ensures { IfOk result (λ row. row ≡ row_in by.now.keys by.now.tys by.now.aggs [] none) }
{
    let kept = Kept::new(by.alloc, &by.aggs, &by.tys, false)?;
    let key = Row::from_values(Values::new(by.alloc));
    match kept.row(&key, by.keys) {
        Ok(row) => Ok(row),
        // No call is out of range over no rows.
        Err(_) => Err(Memory),
    }
}

/// Takes a row, which has to stand, away from the group with this key, and adds another. The group is forgotten where it
/// then has no rows.
pub fn turn_group(
    by: &GroupBy,
    groups: &mut BTreeMap<Row, Kept>,
    key: &Row,
    gone: Option<&Row>,
    come: Option<&Row>,
) -> Result<Results, OpFault>
    requires kept { MayTurn by.now groups.old key.now (option_copied gone) }
    requires retracts { IsSome (option_copied gone) → by.now.retracting ≡ true }
    ensures told { IfOk result (λ results. ForTurned by.now groups.old key.now (option_copied gone.entry) (option_copied come.entry) (λ before after. IsTold by.now key.now before after results)) }
    ensures kept { OnOk result ((of after : Row → Rows) → AreKept by.now groups.old of → HasRow (of key.now) (option_copied gone.entry) → IsTurned key.now of after (option_copied gone.entry) (option_copied come.entry) → AreKept by.now groups.new after) }
    ensures range { IfRange result (λ row. (row ≡ key.now) × ForTurned by.now groups.old key.now (option_copied gone.entry) (option_copied come.entry) (λ before after. all_counted by.now.tys by.now.aggs before ≡ true → in_range by.now after ≡ false)) }
{
    let Some(kept) = groups.get_mut(key) else {
        return start_group(by, groups, key, gone, come);
    };
    let results = match take_turn(kept, key, by.keys, gone, come) {
        Ok(results) => results,
        Err(AccFault::Out) => return Err(OpFault::Range(key.dup()?)),
        Err(AccFault::Memory) => return Err(OpFault::Memory),
    };
    if kept.rows == 0 {
        forget(groups, key);
    }
    Ok(results)
}

// The same of a group that isn't there.
fn start_group(
    by: &GroupBy,
    groups: &mut BTreeMap<Row, Kept>,
    key: &Row,
    gone: Option<&Row>,
    come: Option<&Row>,
) -> Result<Results, OpFault>
    requires kept { MayTurn by.now groups.old key.now (option_copied gone) }
    requires retracts { IsSome (option_copied gone) → by.now.retracting ≡ true }
    ensures told { IfOk result (λ results. ForTurned by.now groups.old key.now (option_copied gone.entry) (option_copied come.entry) (λ before after. IsTold by.now key.now before after results)) }
    ensures kept { OnOk result ((of after : Row → Rows) → AreKept by.now groups.old of → HasRow (of key.now) (option_copied gone.entry) → IsTurned key.now of after (option_copied gone.entry) (option_copied come.entry) → AreKept by.now groups.new after) }
    ensures range { IfRange result (λ row. (row ≡ key.now) × ForTurned by.now groups.old key.now (option_copied gone.entry) (option_copied come.entry) (λ before after. all_counted by.now.tys by.now.aggs before ≡ true → in_range by.now after ≡ false)) }
{
    let mut kept = take_out(by, groups, key)?;
    let results = match take_turn(&mut kept, key, by.keys, gone, come) {
        Ok(results) => results,
        Err(AccFault::Out) => return Err(OpFault::Range(key.dup()?)),
        Err(AccFault::Memory) => return Err(OpFault::Memory),
    };
    let own = key.dup()?;
    put_back(groups, own, kept)?;
    Ok(results)
}

// Lets a group go.
pub(crate) fn forget(groups: &mut BTreeMap<Row, Kept>, key: &Row)
    ensures gone { (other : Row) → get row_cmp groups.new other ≡ cond (same_row key.now other) None (get row_cmp groups.old other) }
    ensures ordered { IsOrdered row_cmp groups.new }
{
    groups.remove(key);
}

// Takes what is kept of a group out, which is what is kept of no rows where the group isn't there.
pub(crate) fn take_out(
    by: &GroupBy,
    groups: &mut BTreeMap<Row, Kept>,
    key: &Row,
) -> Result<Kept, Memory>
    ensures kept { IfOk result (λ kept. (of : Row → Rows) → AreKept by.now groups.old of → IsKept by.now.tys by.now.aggs kept (of key.now) × (by.now.retracting ≡ true → AllRetract kept.counters.items)) }
    ensures others { (other : Row) → get row_cmp groups.new other ≡ cond (same_row key.now other) None (get row_cmp groups.old other) }
    ensures ordered { IsOrdered row_cmp groups.new }
{
    match groups.remove(key) {
        Some(kept) => Ok(kept),
        None => {
            let none = Kept::new(by.alloc, &by.aggs, &by.tys, by.retracting)?;
            Ok(none)
        }
    }
}

// Puts what is kept of a group in, which mustn't be there, unless the group has no rows.
pub(crate) fn put_back(groups: &mut BTreeMap<Row, Kept>, key: Row, kept: Kept) -> Result<(), Memory>
    requires absent { get row_cmp groups.old key ≡ None }
    requires ordered { IsOrdered row_cmp groups.old }
    ensures put { OnOk result ((other : Row) → get row_cmp groups.new other ≡ cond (same_row key other) (unless_empty (kept.rows == 0) kept) (get row_cmp groups.old other)) }
    ensures ordered { OnOk result (IsOrdered row_cmp groups.new) }
{
    if kept.rows == 0 {
        return Ok(());
    }
    groups.insert(key, kept)?;
    Ok(())
}
