//! The partitions by key, each kept in rank order.
ghost use Rattle.std.specs.Prelude.{◌≡◌, ◌+◌, ◌*◌, ◌<◌, ◌≤◌, ◌^◌, true, false, cond, None, map, option_map, IfOk, OnOk};
ghost use Rattle.std.specs.BTreeMap.{get, IsOrdered};
ghost use Rattle.ct_value.specs.Bag.{total};
ghost use Rattle.ct_value.specs.Order.{row_cmp};
ghost use Rattle.ct_value.specs.declared.row.Row.{Row};
ghost use Rattle.ct_change.specs.Changelog.{Rows, same_row, with, without};
ghost use Rattle.ct_change.specs.Emission.{replaced};
ghost use Rattle.op_topn.specs.RankedRows.{IsRanked, is_empty};
ghost use Rattle.op_topn.specs.Kept.{HasRow, firsts_of, unless_empty, AreFirsts, AreKept, AreOlds, IsBehind, IsTurned};
ghost use Rattle.op_topn.specs.Tells.{AreRanked};

use crate::rows::rows_of;
use crate::{RankKey, RankOrder, RankedRows, rank_compare};
use ct_change::Steps;
use ct_value::{ColTys, Cols, Memory, Row};
use std::alloc::Global;
use std::collections::BTreeMap;
use std::sync::ledger::Ledger;

/// Which rows are kept of rows of these columns: the first `bound` of each partition, which columns name, in this order, with
/// `ranked` their rank as the last column.
#[derive(Debug, Drop)]
pub struct TopBy {
    pub alloc: Global,
    pub partition: Cols,
    pub order: RankOrder,
    pub bound: u32,
    pub ranked: bool,
    pub columns: ColTys,
}

/// The first rows of a partition before and after a change.
#[derive(Drop)]
pub struct Firsts {
    pub olds: Vec<Row>,
    pub news: Vec<Row>,
}

/// Takes a row, which has to stand, away from the partition with this key, and adds another, and answers its first rows before and after,
/// `None` where they stay. The partition is forgotten where it then has no rows. Each of its first rows, before and after, is one step.
pub fn turn_partition<L: Ledger>(
    by: &TopBy,
    partitions: &mut BTreeMap<Row, RankedRows>,
    key: &Row,
    gone: Option<Row>,
    come: Option<Row>,
    steps: &mut Steps<L>,
) -> Result<Option<Firsts>, Memory>
    requires kept { (of : Row → Rows) × AreKept by.now.order partitions.old of × HasRow (of key.now) gone × (total (λ _. 1) (of key.now) + 1 < 2 ^ 64) }
    ensures firsts { IfOk result (λ firsts. (of : Row → Rows) → AreKept by.now.order partitions.old of → HasRow (of key.now) gone → AreFirsts firsts (firsts_of by.now (of key.now)) (firsts_of by.now (replaced (of key.now) gone come))) }
    ensures kept { OnOk result ((of after : Row → Rows) → AreKept by.now.order partitions.old of → HasRow (of key.now) gone → IsTurned key.now of after gone come → AreKept by.now.order partitions.new after) }
    ensures cost { steps.new ≤ steps.old + 2 * by.now.bound }
{
    let Some(kept) = partitions.get_mut(key) else {
        return start_partition(by, partitions, key, gone, come, steps);
    };
    let firsts = turn_rows(by, kept, gone, come, steps)?;
    if kept.is_empty() {
        forget(partitions, key);
    }
    Ok(firsts)
}

// The same of a partition that isn't there.
fn start_partition<L: Ledger>(
    by: &TopBy,
    partitions: &mut BTreeMap<Row, RankedRows>,
    key: &Row,
    gone: Option<Row>,
    come: Option<Row>,
    steps: &mut Steps<L>,
) -> Result<Option<Firsts>, Memory>
    requires absent { get row_cmp partitions.old key.now ≡ None }
    requires kept { (of : Row → Rows) × AreKept by.now.order partitions.old of × HasRow (of key.now) gone × (total (λ _. 1) (of key.now) + 1 < 2 ^ 64) }
    ensures firsts { IfOk result (λ firsts. (of : Row → Rows) → AreKept by.now.order partitions.old of → HasRow (of key.now) gone → AreFirsts firsts (firsts_of by.now (of key.now)) (firsts_of by.now (replaced (of key.now) gone come))) }
    ensures kept { OnOk result ((of after : Row → Rows) → AreKept by.now.order partitions.old of → HasRow (of key.now) gone → IsTurned key.now of after gone come → AreKept by.now.order partitions.new after) }
    ensures cost { steps.new ≤ steps.old + 2 * by.now.bound }
{
    let mut kept = RankedRows::new(by.alloc);
    let firsts = turn_rows(by, &mut kept, gone, come, steps)?;
    let own = key.dup()?;
    put_in(partitions, own, kept)?;
    Ok(firsts)
}

// Puts a partition in, which mustn't be there, unless it has no rows.
fn put_in(
    partitions: &mut BTreeMap<Row, RankedRows>,
    key: Row,
    kept: RankedRows,
) -> Result<(), Memory>
    requires absent { get row_cmp partitions.old key ≡ None }
    requires ordered { IsOrdered row_cmp partitions.old }
    ensures put { OnOk result ((other : Row) → get row_cmp partitions.new other ≡ cond (same_row key other) (unless_empty (is_empty kept) kept) (get row_cmp partitions.old other)) }
    ensures ordered { OnOk result (IsOrdered row_cmp partitions.new) }
{
    if kept.is_empty() {
        return Ok(());
    }
    partitions.insert(key, kept)?;
    Ok(())
}

// Lets a partition go.
fn forget(partitions: &mut BTreeMap<Row, RankedRows>, key: &Row)
    ensures gone { (other : Row) → get row_cmp partitions.new other ≡ cond (same_row key.now other) None (get row_cmp partitions.old other) }
    ensures ordered { IsOrdered row_cmp partitions.new }
{
    partitions.remove(key);
}

/// Takes a row, which has to stand, away from a partition and adds another, and answers its first rows before and after, `None` where
/// they stay. All of its rows are kept, so that where one of the first goes the next one follows.
pub fn turn_rows<L: Ledger>(
    by: &TopBy,
    kept: &mut RankedRows,
    gone: Option<Row>,
    come: Option<Row>,
    steps: &mut Steps<L>,
) -> Result<Option<Firsts>, Memory>
    requires { (rows : Rows) × IsRanked by.now.order kept.old.counts rows × HasRow rows gone × (total (λ _. 1) rows + 1 < 2 ^ 64) }
    ensures firsts { IfOk result (λ firsts. (rows : Rows) → IsRanked by.now.order kept.old.counts rows → HasRow rows gone → AreFirsts firsts (firsts_of by.now rows) (firsts_of by.now (replaced rows gone come))) }
    ensures kept { OnOk result ((rows : Rows) → IsRanked by.now.order kept.old.counts rows → HasRow rows gone → IsRanked by.now.order kept.new.counts (replaced rows gone come)) }
    ensures cost { steps.new ≤ steps.old + 2 * by.now.bound }
{
    let olds = olds_if_told(by, kept, &gone, &come, steps)?;
    let_go(by, kept, gone)?;
    take_in(by, kept, come)?;
    match olds {
        None => Ok(None),
        Some(olds) => {
            let news = first_rows(by, kept, steps)?;
            Ok(Some(Firsts { olds, news }))
        }
    }
}

// The first rows of a partition.
fn first_rows<L: Ledger>(
    by: &TopBy,
    kept: &RankedRows,
    steps: &mut Steps<L>,
) -> Result<Vec<Row>, Memory>
    ensures rows { IfOk result (λ firsts. (rows : Rows) → IsRanked by.now.order kept.now.counts rows → firsts.items ≡ firsts_of by.now rows) }
    ensures cost { steps.new ≤ steps.old + by.now.bound }
{
    let keys = kept.first_keys(by.alloc, by.bound as usize, steps)?;
    let rows = rows_of(by.alloc, &keys)?;
    Ok(rows)
}

// The first rows before a change by which these rows go and come. Where both stand behind the last of them, they stay and aren't told.
fn olds_if_told<L: Ledger>(
    by: &TopBy,
    kept: &RankedRows,
    gone: &Option<Row>,
    come: &Option<Row>,
    steps: &mut Steps<L>,
) -> Result<Option<Vec<Row>>, Memory>
    ensures olds { IfOk result (λ olds. (rows : Rows) → IsRanked by.now.order kept.now.counts rows → AreOlds by.now.order by.now.bound (firsts_of by.now rows) gone.now come.now (option_map (λ olds. olds.items) olds)) }
    ensures cost { steps.new ≤ steps.old + by.now.bound }
{
    let bound = by.bound as usize;
    let firsts = kept.first_keys(by.alloc, bound, steps)?;
    if is_behind(&by.order, &firsts, bound, gone) && is_behind(&by.order, &firsts, bound, come) {
        return Ok(None);
    }
    let olds = rows_of(by.alloc, &firsts)?;
    Ok(Some(olds))
}

// Whether a row, if there is one, stands behind the first rows, which are as many as they may be.
fn is_behind(order: &RankOrder, firsts: &[&RankKey], bound: usize, row: &Option<Row>) -> bool
    ensures { result ≡ true → AreRanked order.now (map (λ key. key.now.1) firsts.now) → IsBehind order.now bound (map (λ key. key.now.1) firsts.now) row.now }
{
    let Some(row) = row else {
        return true;
    };
    let Some(last) = firsts.last() else {
        return false;
    };
    firsts.len() == bound && rank_compare(order.as_slice(), row, last.row()).is_gt()
}

// Takes away a row, if there is one, which has to stand.
fn let_go(by: &TopBy, kept: &mut RankedRows, gone: Option<Row>) -> Result<(), Memory>
    requires { (rows : Rows) × IsRanked by.now.order kept.old.counts rows × HasRow rows gone }
    ensures { OnOk result ((rows : Rows) → IsRanked by.now.order kept.old.counts rows → HasRow rows gone → IsRanked by.now.order kept.new.counts (without rows gone)) }
{
    match gone {
        None => Ok(()),
        Some(row) => {
            let key = RankKey::new(&by.order, row)?;
            kept.remove(key)?;
            Ok(())
        }
    }
}

// Adds a row, if there is one.
fn take_in(by: &TopBy, kept: &mut RankedRows, come: Option<Row>) -> Result<(), Memory>
    requires { (rows : Rows) × IsRanked by.now.order kept.old.counts rows × (total (λ _. 1) rows + 1 < 2 ^ 64) }
    ensures { OnOk result ((rows : Rows) → IsRanked by.now.order kept.old.counts rows → IsRanked by.now.order kept.new.counts (with rows come)) }
{
    match come {
        None => Ok(()),
        Some(row) => {
            let key = RankKey::new(&by.order, row)?;
            kept.add(key)?;
            Ok(())
        }
    }
}
