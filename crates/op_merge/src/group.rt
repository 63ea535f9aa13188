ghost use Rattle.std.specs.Prelude.{◌≡◌, ◌≤◌, ◌∷◌, [], length, take, true, false, IfOk, OnOk, Ok, Err};
ghost use Rattle.ct_change.specs.Changelog.{Mode};
ghost use Rattle.op_rules.specs.Faults.{IfRange};
ghost use Rattle.op_rules.specs.Rules.{appended};

use crate::groups::MergeBy;
use crate::kept::Kept;
use crate::pieces::{take_changes, take_group};
use ct_change::{Change, Changes, OutMode, Steps};
use ct_value::{ColTys, Memory, Row};
use op_rules::{OpFault, Operator, PieceOperator};
use rel_algebra::Aggs;
use std::alloc::Global;
use std::collections::BTreeMap;
use std::sync::ledger::Ledger;

/// The operator that merges the partial rows of local groups, and emits of each group what they amount to together, to
/// a changelog in the mode of its output (Flink documentation, "Performance Tuning", Local-Global Aggregation). It
/// keeps the number of rows and the accumulators of each group whose partial rows amount to something, found by key.
#[derive(Drop)]
pub struct MergeGroup<O: OutMode> {
    by: MergeBy,
    output: O,
    groups: BTreeMap<Row, Kept>,
    broken: bool,
}

impl<O: OutMode> MergeGroup<O> {
    ghost use Rattle.phase_rules.specs.Merging.{merge_rule};
    ghost use Rattle.op_merge.specs.Groups.{Amounts, AreMerged, CanMerge, amounts_of, merge_told, merging, with_more};

    /// A merging group of no partial rows: of rows with columns of these types, grouped by the first `keys`, with these
    /// calls, in whichever mode they came to the local groups. The calls have to have partials. The mode has to tell
    /// rows that change and go, so it isn't append; two rows of the answer agree on the key of an upsert mode exactly
    /// where they are of one group.
    pub fn new(alloc: Global, keys: u32, aggs: Aggs, tys: ColTys, output: O) -> MergeGroup<O>
        requires { (input : Mode) × CanMerge (record { local = record { keys = keys; aggs = aggs; columns = tys; input = input }; output = O.mode output }) }
        ensures rule { (input : Mode) → ⟦<MergeGroup<O> as Operator>⟧.rule result ≡ merge_rule (record { local = record { keys = keys; aggs = aggs; columns = tys; input = input }; output = O.mode output }) }
        ensures stands { ⟦<MergeGroup<O> as Operator>⟧.stands_for result [] }
        ensures whole { ⟦<MergeGroup<O> as Operator>⟧.broken result ≡ false }
    {
        MergeGroup {
            by: MergeBy {
                alloc,
                keys,
                aggs,
                tys,
            },
            output,
            groups: BTreeMap::new(alloc),
            broken: false,
        }
    }

    // Takes a partial row, and puts what is emitted for it behind what stands in `to`.
    fn take(&mut self, change: Change, to: &mut Changes) -> Result<(), OpFault>
        requires can { CanMerge (merging self.old.by (O.mode self.old.output)) }
        requires are { (of : Amounts) × AreMerged self.old.by self.old.groups of }
        requires long { self.old.by.keys ≤ length change.row }
        ensures sent { OnOk result ((of : Amounts) → AreMerged self.old.by self.old.groups of → appended (Ok to.old) (merge_told self.old.by (O.mode self.old.output) of change) ≡ Ok to.new) }
        ensures kept { OnOk result ((of : Amounts) → AreMerged self.old.by self.old.groups of → AreMerged self.old.by self.new.groups (with_more of (take self.old.by.keys change.row) (amounts_of self.old.by.keys (change ∷ [])))) }
        ensures range { IfRange result (λ row. (of : Amounts) → AreMerged self.old.by self.old.groups of → merge_told self.old.by (O.mode self.old.output) of change ≡ Err row) }
        ensures same { (self.new.by ≡ self.old.by) × (self.new.output ≡ self.old.output) × (self.new.broken ≡ self.old.broken) }
    {
        let key = change.row.prefix(self.by.keys)?;
        let changes = one(self.by.alloc, change)?;
        take_group(&self.by, &self.output, &mut self.groups, key, changes, to)
    }
}

impl<O: OutMode> Operator for MergeGroup<O> {
    ghost use Rattle.op_rules.specs.History.{at_port};
    ghost use Rattle.phase_rules.specs.Merging.{amounts_in, merge_rule};
    ghost use Rattle.op_merge.specs.Groups.{AreMerged, CanMerge, merging};

    ghost rule = { λ s. merge_rule (merging s.by (O.mode s.output)) };

    ghost broken = { λ s. s.broken };

    ghost stands_for = { λ s before.
        CanMerge (merging s.by (O.mode s.output))
        × AreMerged s.by s.groups (λ key. amounts_in s.by.keys key (at_port 0 before)) };

    fn opening(&mut self, _subtask: u32) -> Result<Changes, Memory> {
        Ok(Changes::new(self.by.alloc))
    }

    fn consume<L: Ledger>(
        &mut self,
        _port: u32,
        change: Change,
        to: &mut Changes,
        _steps: &mut Steps<L>,
    ) -> Result<(), OpFault> {
        self.broken = true;
        match self.take(change, to) {
            Ok(()) => {
                self.broken = false;
                Ok(())
            }
            Err(fault) => Err(fault),
        }
    }

    fn is_broken(&self) -> bool {
        self.broken
    }
}

impl<O: OutMode> PieceOperator for MergeGroup<O> {
    ghost takes_pieces = { λ s. true };

    fn take_piece<L: Ledger>(
        &mut self,
        changes: Changes,
        _steps: &mut Steps<L>,
    ) -> Result<Changes, OpFault> {
        self.broken = true;
        let sent = match take_changes(&self.by, &self.output, &mut self.groups, changes) {
            Ok(sent) => sent,
            Err(fault) => return Err(fault),
        };
        self.broken = false;
        Ok(sent)
    }
}

// One change.
fn one(alloc: Global, change: Change) -> Result<Changes, Memory>
    ensures { IfOk result (λ changes. changes ≡ change ∷ []) }
{
    let mut changes = Changes::with_capacity(alloc, 1)?;
    changes.push(change)?;
    Ok(changes)
}
