//! Changes of one group that are taken in turn, and told as one.
ghost use Rattle.std.specs.Prelude.{◌≡◌, ◌+◌, ◌∷◌, [], length, true, false, Ok, Err, IfOk, IfErr, OnOk};
ghost use Rattle.ct_change.specs.Changelog.{Mode, apply, fold_from};
ghost use Rattle.ct_value.specs.declared.row.Row.{Row as Line};
ghost use Rattle.op_rules.specs.Faults.{IfRange};
ghost use Rattle.op_rules.specs.Rules.{appended};
ghost use Rattle.agg_fns.specs.declared.acc.AccFault.TheVariants.{Out};
ghost use Rattle.emission_rules.specs.Grouping.{fits_along, is_counted, group_emits, members};
ghost use Rattle.op_group.specs.Groups.{IsGrouped};
ghost use Rattle.op_group.specs.Kept.{row_in};
ghost use Rattle.op_group.specs.Folding.{ForFolded, ForShifted, HasShiftedAlong, IsFolded, MayFoldSome, MayShift, stays_in_range};

use crate::group::{row_of, tell};
use crate::groups::{GroupBy, Results, forget, put_back, take_out};
use crate::kept::Kept;
use agg_fns::AccFault;
use ct_change::{Change, Changes, InMode, OutMode};
use ct_value::Row;
use op_rules::OpFault;
use std::collections::BTreeMap;

/// Takes changes of the rows of the group with this key in turn, and puts what is emitted for them as one change of the group
/// behind what stands in `to`.
pub(crate) fn take_group<I: InMode, O: OutMode>(
    by: &GroupBy,
    input: &I,
    output: &O,
    rows: &mut I::Kept,
    groups: &mut BTreeMap<Row, Kept>,
    key: Row,
    changes: Changes,
    to: &mut Changes,
) -> Result<(), OpFault>
    requires { MayFoldSome by.now (I.mode input.now) (O.mode output.now) (I.stands_for input.now rows.old) groups.old key changes }
    ensures sent { OnOk result (ForFolded by.now (I.mode input.now) (O.mode output.now) (I.stands_for input.now rows.old) groups.old key changes (λ g stood held. appended (Ok to.old) (group_emits g stood changes key) ≡ Ok to.new)) }
    ensures rows { OnOk result (ForFolded by.now (I.mode input.now) (O.mode output.now) (I.stands_for input.now rows.old) groups.old key changes (λ g stood held. I.stands_for input.now rows.new (fold_from g.input stood changes))) }
    ensures kept { OnOk result (ForFolded by.now (I.mode input.now) (O.mode output.now) (I.stands_for input.now rows.old) groups.old key changes (λ g stood held. IsGrouped by.now g (fold_from g.input stood changes) groups.new (held + length changes))) }
    ensures range { IfRange result (λ row. ForFolded by.now (I.mode input.now) (O.mode output.now) (I.stands_for input.now rows.old) groups.old key changes (λ g stood held. group_emits g stood changes key ≡ Err row)) }
{
    let results = match fold_group(by, groups, input, rows, key, changes) {
        Ok(results) => results,
        Err(fault) => return Err(fault),
    };
    tell(output, results, to)?;
    Ok(())
}

// The group with this key takes changes of its rows in turn, and is forgotten where it then has no rows. It is out of range, at its
/// key, exactly where a sum leaves its limit on the way or a call is out of range at the end.
fn fold_group<I: InMode>(
    by: &GroupBy,
    groups: &mut BTreeMap<Row, Kept>,
    input: &I,
    rows: &mut I::Kept,
    key: Row,
    changes: Changes,
) -> Result<Results, OpFault>
    requires { (output : Mode) × MayFoldSome by.now (I.mode input.now) output (I.stands_for input.now rows.old) groups.old key changes }
    ensures told { IfOk result (λ results. (output : Mode) → ForFolded by.now (I.mode input.now) output (I.stands_for input.now rows.old) groups.old key changes (λ g stood held. IsFolded g stood key changes results)) }
    ensures rows { OnOk result ((output : Mode) → ForFolded by.now (I.mode input.now) output (I.stands_for input.now rows.old) groups.old key changes (λ g stood held. I.stands_for input.now rows.new (fold_from (I.mode input.now) stood changes))) }
    ensures kept { OnOk result ((output : Mode) → ForFolded by.now (I.mode input.now) output (I.stands_for input.now rows.old) groups.old key changes (λ g stood held. IsGrouped by.now g (fold_from g.input stood changes) groups.new (held + length changes))) }
    ensures key { IfRange result (λ row. row ≡ key) }
    ensures range { IfRange result (λ row. (output : Mode) → ForFolded by.now (I.mode input.now) output (I.stands_for input.now rows.old) groups.old key changes (λ g stood held. stays_in_range g stood key changes ≡ false)) }
{
    let Some(kept) = groups.get_mut(&key) else {
        return fold_anew(by, groups, input, rows, key, changes);
    };
    let results = match fold_kept(kept, &key, by.keys, input, rows, changes) {
        Ok(results) => results,
        Err(AccFault::Out) => return Err(OpFault::Range(key)),
        Err(AccFault::Memory) => return Err(OpFault::Memory),
    };
    if kept.rows == 0 {
        forget(groups, &key);
    }
    Ok(results)
}

// The same of a group that isn't there.
fn fold_anew<I: InMode>(
    by: &GroupBy,
    groups: &mut BTreeMap<Row, Kept>,
    input: &I,
    rows: &mut I::Kept,
    key: Row,
    changes: Changes,
) -> Result<Results, OpFault>
    requires { (output : Mode) × MayFoldSome by.now (I.mode input.now) output (I.stands_for input.now rows.old) groups.old key changes }
    ensures told { IfOk result (λ results. (output : Mode) → ForFolded by.now (I.mode input.now) output (I.stands_for input.now rows.old) groups.old key changes (λ g stood held. IsFolded g stood key changes results)) }
    ensures rows { OnOk result ((output : Mode) → ForFolded by.now (I.mode input.now) output (I.stands_for input.now rows.old) groups.old key changes (λ g stood held. I.stands_for input.now rows.new (fold_from (I.mode input.now) stood changes))) }
    ensures kept { OnOk result ((output : Mode) → ForFolded by.now (I.mode input.now) output (I.stands_for input.now rows.old) groups.old key changes (λ g stood held. IsGrouped by.now g (fold_from g.input stood changes) groups.new (held + length changes))) }
    ensures key { IfRange result (λ row. row ≡ key) }
    ensures range { IfRange result (λ row. (output : Mode) → ForFolded by.now (I.mode input.now) output (I.stands_for input.now rows.old) groups.old key changes (λ g stood held. stays_in_range g stood key changes ≡ false)) }
{
    let mut kept = take_out(by, groups, &key)?;
    let results = match fold_kept(&mut kept, &key, by.keys, input, rows, changes) {
        Ok(results) => results,
        Err(AccFault::Out) => return Err(OpFault::Range(key)),
        Err(AccFault::Memory) => return Err(OpFault::Memory),
    };
    put_back(groups, key, kept)?;
    Ok(results)
}

// What is kept of a group with this key takes changes of its rows in turn; its row before and after them is told.
fn fold_kept<I: InMode>(
    kept: &mut Kept,
    key: &Row,
    keys: u32,
    input: &I,
    rows: &mut I::Kept,
    changes: Changes,
) -> Result<Results, AccFault>
    requires { MayShift (I.mode input.now) (I.stands_for input.now rows.old) kept.old key.now changes }
    ensures kept { OnOk result (ForShifted (I.mode input.now) (I.stands_for input.now rows.old) kept.old key.now changes (λ g stood. HasShiftedAlong g stood kept.new key.now changes)) }
    ensures rows { OnOk result (ForShifted (I.mode input.now) (I.stands_for input.now rows.old) kept.old key.now changes (λ g stood. I.stands_for input.now rows.new (fold_from (I.mode input.now) stood changes))) }
    ensures old { IfOk result (λ results. ForShifted (I.mode input.now) (I.stands_for input.now rows.old) kept.old key.now changes (λ g stood. results.old ≡ row_in keys g.columns g.aggs key.now (members g key.now stood))) }
    ensures fresh { IfOk result (λ results. ForShifted (I.mode input.now) (I.stands_for input.now rows.old) kept.old key.now changes (λ g stood. results.fresh ≡ row_in keys g.columns g.aggs key.now (members g key.now (fold_from g.input stood changes)))) }
    ensures counted { OnOk result (ForShifted (I.mode input.now) (I.stands_for input.now rows.old) kept.old key.now changes (λ g stood. is_counted g (fold_from g.input stood changes) key.now ≡ true)) }
    ensures out { IfErr result (λ fault. fault ≡ Out → ForShifted (I.mode input.now) (I.stands_for input.now rows.old) kept.old key.now changes (λ g stood. is_counted g stood key.now ≡ true → stays_in_range g stood key.now changes ≡ false)) }
{
    let old = match kept.row(key, keys) {
        Ok(old) => old,
        Err(fault) => return Err(fault),
    };
    if let Err(fault) = shift_along(input, rows, kept, changes) {
        return Err(fault);
    }
    match kept.row(key, keys) {
        Ok(fresh) => Ok(Results { old, fresh }),
        Err(fault) => Err(fault),
    }
}

// What is kept of a group takes changes of its rows in turn. It is out of range exactly where a sum leaves its limit on the way.
fn shift_along<I: InMode>(
    input: &I,
    rows: &mut I::Kept,
    kept: &mut Kept,
    changes: Changes,
) -> Result<(), AccFault>
    requires { (key : Line) × MayShift (I.mode input.now) (I.stands_for input.now rows.old) kept.old key changes }
    ensures rows { OnOk result ((key : Line) → ForShifted (I.mode input.now) (I.stands_for input.now rows.old) kept.old key changes (λ g stood. I.stands_for input.now rows.new (fold_from (I.mode input.now) stood changes))) }
    ensures kept { OnOk result ((key : Line) → ForShifted (I.mode input.now) (I.stands_for input.now rows.old) kept.old key changes (λ g stood. HasShiftedAlong g stood kept.new key changes)) }
    ensures out { IfErr result (λ fault. fault ≡ Out → (key : Line) → ForShifted (I.mode input.now) (I.stands_for input.now rows.old) kept.old key changes (λ g stood. fits_along g key stood changes ≡ false)) }
{
    for change in changes {
        if let Err(fault) = shift_one(input, rows, kept, change) {
            return Err(fault);
        }
    }
    Ok(())
}

// What is kept of a group takes a change of its rows. It is out of range exactly where a sum is after it.
fn shift_one<I: InMode>(
    input: &I,
    rows: &mut I::Kept,
    kept: &mut Kept,
    change: Change,
) -> Result<(), AccFault>
    requires { (key : Line) × MayShift (I.mode input.now) (I.stands_for input.now rows.old) kept.old key (change ∷ []) }
    ensures rows { OnOk result ((key : Line) → ForShifted (I.mode input.now) (I.stands_for input.now rows.old) kept.old key (change ∷ []) (λ g stood. I.stands_for input.now rows.new (apply (I.mode input.now) stood change))) }
    ensures kept { OnOk result ((key : Line) → ForShifted (I.mode input.now) (I.stands_for input.now rows.old) kept.old key (change ∷ []) (λ g stood. HasShiftedAlong g stood kept.new key (change ∷ []))) }
    ensures out { IfErr result (λ fault. fault ≡ Out → (key : Line) → ForShifted (I.mode input.now) (I.stands_for input.now rows.old) kept.old key (change ∷ []) (λ g stood. fits_along g key stood (change ∷ []) ≡ false)) }
{
    let diff = input.absorb(rows, change)?;
    kept.shift(row_of(&diff.gone), row_of(&diff.come))
}
