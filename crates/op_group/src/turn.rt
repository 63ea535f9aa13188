ghost use Rattle.std.specs.Prelude.{◌≡◌, true, false, IsSome, IfOk, IfErr, OnOk, option_copied};
ghost use Rattle.agg_fns.specs.declared.acc.AccFault.TheVariants.{Out};
ghost use Rattle.op_group.specs.Kept.{AllRetract, ForRows, ForShifted, IsKept, MayShift, all_counted, all_fit, calls_of, is_in_range, row_in};

use crate::groups::Results;
use crate::kept::Kept;
use agg_fns::AccFault;
use ct_value::Row;

/// Takes a row, which has to stand, away from a group with this key, and adds another. It answers the group's row before and after.
pub fn take_turn(
    kept: &mut Kept,
    key: &Row,
    keys: u32,
    gone: Option<&Row>,
    come: Option<&Row>,
) -> Result<Results, AccFault>
    requires kept { MayShift kept.old (option_copied gone) }
    requires retracts { IsSome (option_copied gone) → AllRetract kept.old.counters.items }
    ensures kept { OnOk result (ForShifted kept.old (option_copied gone.entry) (option_copied come.entry) (λ columns before after. IsKept columns (calls_of kept.old) kept.new after)) }
    ensures old { IfOk result (λ results. ForRows kept.old (λ columns rows. results.old ≡ row_in keys columns (calls_of kept.old) key.now rows)) }
    ensures fresh { IfOk result (λ results. ForShifted kept.old (option_copied gone.entry) (option_copied come.entry) (λ columns before after. results.fresh ≡ row_in keys columns (calls_of kept.old) key.now after)) }
    ensures fine { OnOk result (ForShifted kept.old (option_copied gone.entry) (option_copied come.entry) (λ columns before after. all_fit columns (calls_of kept.old) before ≡ true → is_in_range columns (calls_of kept.old) after ≡ true)) }
    ensures out { IfErr result (λ fault. fault ≡ Out → ForShifted kept.old (option_copied gone.entry) (option_copied come.entry) (λ columns was next. all_counted columns (calls_of kept.old) was ≡ true → is_in_range columns (calls_of kept.old) next ≡ false)) }
    ensures retracts { OnOk result (AllRetract kept.old.counters.items → AllRetract kept.new.counters.items) }
{
    let old = match kept.row(key, keys) {
        Ok(old) => old,
        Err(fault) => return Err(fault),
    };
    if let Err(fault) = kept.shift(gone, come) {
        return Err(fault);
    }
    match kept.row(key, keys) {
        Ok(fresh) => Ok(Results { old, fresh }),
        Err(fault) => Err(fault),
    }
}
