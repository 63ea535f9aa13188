//! Partial rows of one group that are merged in turn, and told as one.
ghost use Rattle.std.specs.Prelude.{◌≡◌, ◌++◌, ◌&&◌, true, false, IfOk, IfErr, OnOk};
ghost use Rattle.agg_fns.specs.declared.acc.AccFault.TheVariants.{Out};
ghost use Rattle.phase_rules.specs.Merging.{merged, row_from, within_after};
ghost use Rattle.op_merge.specs.Kept.{ForKept, IsKept, IsOfSome, has_results};
ghost use Rattle.op_merge.specs.Groups.{IsTold, amounts_of};

use crate::groups::Results;
use crate::kept::Kept;
use crate::merger::behind;
use agg_fns::AccFault;
use ct_change::{Change, Changes};
use ct_value::{Memory, Row};

/// What is kept of a group with this key takes partial rows of it in turn. It answers the group's row before and after
/// them.
pub(crate) fn take_turn(
    kept: &mut Kept,
    key: &Row,
    keys: u32,
    changes: &Changes,
) -> Result<Results, AccFault>
    requires { IsOfSome kept.old }
    ensures kept { OnOk result (ForKept kept.old (λ l rows. IsKept l kept.new (rows ++ amounts_of keys changes.now))) }
    ensures told { IfOk result (λ results. ForKept kept.old (λ l rows. IsTold l key.now rows (amounts_of keys changes.now) results)) }
    ensures out { IfErr result (λ fault. fault ≡ Out → ForKept kept.old (λ l rows. (within_after l rows (amounts_of keys changes.now) && has_results l (rows ++ amounts_of keys changes.now)) ≡ false)) }
{
    let old = row_before(kept, key)?;
    if let Err(fault) = merge_along(kept, keys, changes.as_slice()) {
        return Err(fault);
    }
    match kept.row(key) {
        Ok(fresh) => Ok(Results { old, fresh }),
        Err(fault) => Err(fault),
    }
}

// The row of a group, none also where a call is out of range.
fn row_before(kept: &Kept, key: &Row) -> Result<Option<Row>, Memory>
    requires { IsOfSome kept.now }
    ensures { IfOk result (λ row. ForKept kept.now (λ l rows. row ≡ row_from l key.now (merged l.aggs rows))) }
{
    match kept.row(key) {
        Ok(row) => Ok(row),
        Err(AccFault::Out) => Ok(None),
        Err(AccFault::Memory) => Err(Memory),
    }
}

// What is kept of a group takes partial rows of it in turn. It is out of range exactly where a sum leaves its limit on
// the way.
fn merge_along(kept: &mut Kept, keys: u32, changes: &[Change]) -> Result<(), AccFault>
    ensures kept { OnOk result (ForKept kept.old (λ l rows. IsKept l kept.new (rows ++ amounts_of keys changes.now))) }
    ensures within { OnOk result (ForKept kept.old (λ l rows. within_after l rows (amounts_of keys changes.now) ≡ true)) }
    ensures out { IfErr result (λ fault. fault ≡ Out → ForKept kept.old (λ l rows. within_after l rows (amounts_of keys changes.now) ≡ false)) }
{
    for change in changes {
        if let Err(fault) = kept.merge(behind(change.row.as_slice(), keys as usize)) {
            return Err(fault);
        }
    }
    Ok(())
}
