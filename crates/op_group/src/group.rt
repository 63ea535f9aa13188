ghost use Rattle.std.specs.Prelude.{◌≡◌, ◌≢◌, ℕ, ◌+◌, ◌++◌, List, [], length, take, true, false, Ok, Err, IfOk, OnOk, OnErr, option_copied};
ghost use Rattle.ct_change.specs.Changelog.{Rows, apply};
ghost use Rattle.ct_change.specs.Emission.{emission, row_of, CanTell};
ghost use Rattle.op_rules.specs.Faults.{IfRange};
ghost use Rattle.op_rules.specs.History.{Arrival};

use crate::fold::take_group;
use crate::groups::{GroupBy, Results, first_row, turn_group};
use crate::kept::Kept;
use crate::pieces::take_changes;
use ct_change::{Change, Changes, InMode, Kind, OutMode, Steps};
use ct_value::{ColTys, Memory, Row, Values};
use op_rules::{OpFault, Operator, PieceOperator};
use rel_algebra::Aggs;
use std::alloc::Global;
use std::collections::BTreeMap;
use std::sync::ledger::Ledger;

/// The operator that groups rows by their first columns, with aggregates over each group, from a changelog in one mode to
/// one in another (Flink documentation, "Group Aggregation"). Without key columns all rows are one group, which has its row
/// also where there are none. It keeps the number of rows and the accumulators of each group that has rows, found by key.
#[derive(Drop)]
pub struct Group<I: InMode, O: OutMode> {
    by: GroupBy,
    input: I,
    output: O,
    rows: I::Kept,
    groups: BTreeMap<Row, Kept>,
    // The key of the row that was taken last, whose memory is kept for the next one's.
    key: Row,
    broken: bool,
}

impl<I: InMode, O: OutMode> Group<I, O> {
    ghost use Rattle.emission_rules.specs.Grouping.{group_rule, IsSound};
    ghost use Rattle.op_group.specs.Groups.{grouping, ForChange, IsGroupedAfter, MayTake, TellsOnto, told_for};
    ghost use Rattle.op_group.specs.Folding.{Answers, ForPieces, IsPieceOf};

    /// A group of no rows, by the first `keys` columns of rows with columns of these types, with these calls. The calls have
    /// to have types, and the modes to suit the groups: rows with one key of the input are of one group, and two rows of the
    /// answer agree on the key of the output exactly where they are of one group. Into an append changelog goes a group
    /// without calls alone, of rows that stay.
    pub fn new(
        alloc: Global,
        keys: u32,
        aggs: Aggs,
        tys: ColTys,
        input: I,
        output: O,
    ) -> Result<Group<I, O>, Memory>
        requires { IsSound (record { keys = keys; aggs = aggs; columns = tys; input = I.mode input; output = O.mode output }) }
        ensures rule { IfOk result (λ made. ⟦<Group<I, O> as Operator>⟧.rule made ≡ group_rule (record { keys = keys; aggs = aggs; columns = tys; input = I.mode input; output = O.mode output })) }
        ensures stands { IfOk result (λ made. ⟦<Group<I, O> as Operator>⟧.stands_for made []) }
        ensures whole { IfOk result (λ made. ⟦<Group<I, O> as Operator>⟧.broken made ≡ false) }
    {
        let rows = input.fresh()?;
        let retracting = input.admits(Kind::D);
        Ok(Group {
            by: GroupBy {
                alloc,
                keys,
                aggs,
                tys,
                retracting,
            },
            input,
            output,
            rows,
            groups: BTreeMap::new(alloc),
            key: Row::from_values(Values::new(alloc)),
            broken: false,
        })
    }

    /// Takes changes of the rows of one group, which its key names, as one change of the group: what is told of it is its row before
    /// them and its row after them. `Range` comes exactly where its rule is out of range over them, with the rule's row. It must not be
    /// broken, each change must be one that may come after those before it, and it must have taken fewer than 4,294,967,296 changes
    /// with them. After an error it is broken (Flink documentation, "Performance Tuning", MiniBatch Aggregation).
    pub fn fold<L: Ledger>(
        &mut self,
        key: Row,
        changes: Changes,
        _steps: &mut Steps<L>,
    ) -> Result<Changes, OpFault>
        requires whole { self.old.broken ≡ false }
        requires may { (before : List Arrival) × (piece : List Arrival) × ⟦<Group<I, O> as Operator>⟧.stands_for self.old before × IsPieceOf self.old.by.keys (⟦<Group<I, O> as Operator>⟧.rule self.old) before piece key changes }
        ensures sent { IfOk result (λ sent. Answers self.old.by.keys (⟦<Group<I, O> as Operator>⟧.rule self.old) (⟦<Group<I, O> as Operator>⟧.stands_for self.old) key changes (Ok sent)) }
        ensures stands { OnOk result (ForPieces self.old.by.keys (⟦<Group<I, O> as Operator>⟧.rule self.old) (⟦<Group<I, O> as Operator>⟧.stands_for self.old) key changes (λ before piece. ⟦<Group<I, O> as Operator>⟧.stands_for self.new (before ++ piece))) }
        ensures range { IfRange result (λ row. Answers self.old.by.keys (⟦<Group<I, O> as Operator>⟧.rule self.old) (⟦<Group<I, O> as Operator>⟧.stands_for self.old) key changes (Err row)) }
        ensures rule { ⟦<Group<I, O> as Operator>⟧.rule self.new ≡ ⟦<Group<I, O> as Operator>⟧.rule self.old }
        ensures whole { OnOk result (self.new.broken ≡ false) }
        ensures breaks { OnErr result (self.new.broken ≡ true) }
        ensures cost { _steps.new ≡ _steps.old }
    {
        self.broken = true;
        let mut sent = Changes::new(self.by.alloc);
        if let Err(fault) = take_group(
            &self.by,
            &self.input,
            &self.output,
            &mut self.rows,
            &mut self.groups,
            key,
            changes,
            &mut sent,
        ) {
            return Err(fault);
        }
        self.broken = false;
        Ok(sent)
    }

    // Takes a change, and puts what is emitted for it behind what stands in `to`.
    fn take(&mut self, change: Change, to: &mut Changes) -> Result<(), OpFault>
        requires { (rows : Rows) × (held : ℕ) × I.stands_for self.old.input self.old.rows rows × MayTake self.old.by (grouping self.old.by (I.mode self.old.input) (O.mode self.old.output)) rows self.old.groups held change }
        ensures sent { OnOk result (ForChange self.old.by (I.mode self.old.input) (O.mode self.old.output) (I.stands_for self.old.input self.old.rows) self.old.groups change (λ g rows held. TellsOnto g rows change to.old to.new)) }
        ensures rows { OnOk result (ForChange self.old.by (I.mode self.old.input) (O.mode self.old.output) (I.stands_for self.old.input self.old.rows) self.old.groups change (λ g rows held. I.stands_for self.new.input self.new.rows (apply g.input rows change))) }
        ensures kept { OnOk result (ForChange self.old.by (I.mode self.old.input) (O.mode self.old.output) (I.stands_for self.old.input self.old.rows) self.old.groups change (λ g rows held. IsGroupedAfter self.old.by g rows self.new.groups held change)) }
        ensures range { IfRange result (λ row. ForChange self.old.by (I.mode self.old.input) (O.mode self.old.output) (I.stands_for self.old.input self.old.rows) self.old.groups change (λ g rows held. told_for g rows change ≡ Err row)) }
        ensures same { (self.new.by ≡ self.old.by) × (self.new.input ≡ self.old.input) × (self.new.output ≡ self.old.output) × (self.new.broken ≡ self.old.broken) }
    {
        change.row.prefix_into(self.by.keys, &mut self.key)?;
        let diff = self.input.absorb(&mut self.rows, change)?;
        let (gone, come) = (row_of(&diff.gone), row_of(&diff.come));
        let results = match turn_group(&self.by, &mut self.groups, &self.key, gone, come) {
            Ok(results) => results,
            Err(fault) => return Err(fault),
        };
        tell(&self.output, results, to)?;
        Ok(())
    }

    // What is emitted when the job opens.
    fn opened(&self, subtask: u32) -> Result<Changes, Memory>
        ensures { IfOk result (λ sent. sent ≡ (group_rule (grouping self.now.by (I.mode self.now.input) (O.mode self.now.output))).opening subtask) }
    {
        let mut sent = Changes::new(self.by.alloc);
        if self.by.keys != 0 || subtask != 0 {
            return Ok(sent);
        }
        let fresh = first_row(&self.by)?;
        tell(&self.output, Results { old: None, fresh }, &mut sent)?;
        Ok(sent)
    }
}

impl<I: InMode, O: OutMode> Operator for Group<I, O> {
    ghost use Rattle.std.specs.Prelude.{length};
    ghost use Rattle.ct_change.specs.Changelog.{fold};
    ghost use Rattle.op_rules.specs.History.{at_port};
    ghost use Rattle.emission_rules.specs.Grouping.{group_rule};
    ghost use Rattle.op_group.specs.Groups.{grouping, IsSet, IsGrouped};

    ghost rule = { λ s. group_rule (grouping s.by (I.mode s.input) (O.mode s.output)) };

    ghost broken = { λ s. s.broken };

    ghost stands_for = { λ s before.
        IsSet s.by (grouping s.by (I.mode s.input) (O.mode s.output))
        × I.stands_for s.input s.rows (fold (I.mode s.input) (at_port 0 before))
        × IsGrouped s.by (grouping s.by (I.mode s.input) (O.mode s.output)) (fold (I.mode s.input) (at_port 0 before)) s.groups (length before) };

    fn opening(&mut self, subtask: u32) -> Result<Changes, Memory> {
        self.broken = true;
        let sent = self.opened(subtask)?;
        self.broken = false;
        Ok(sent)
    }

    fn consume<L: Ledger>(
        &mut self,
        _port: u32,
        change: Change,
        to: &mut Changes,
        _steps: &mut Steps<L>,
    ) -> Result<(), OpFault> {
        self.broken = true;
        match self.take(change, to) {
            Ok(()) => {
                self.broken = false;
                Ok(())
            }
            Err(fault) => Err(fault),
        }
    }

    fn is_broken(&self) -> bool {
        self.broken
    }
}

impl<I: InMode, O: OutMode> PieceOperator for Group<I, O> {
    ghost takes_pieces = { λ s. true };

    fn take_piece<L: Ledger>(
        &mut self,
        changes: Changes,
        _steps: &mut Steps<L>,
    ) -> Result<Changes, OpFault> {
        self.broken = true;
        let sent = match take_changes(
            &self.by,
            &self.input,
            &self.output,
            &mut self.rows,
            &mut self.groups,
            changes,
        ) {
            Ok(sent) => sent,
            Err(fault) => return Err(fault),
        };
        self.broken = false;
        Ok(sent)
    }
}

// The row of a change.
pub(crate) fn row_of(change: &Option<Change>) -> Option<&Row>
    ensures { option_copied result ≡ row_of change.now }
{
    match change {
        None => None,
        Some(change) => Some(&change.row),
    }
}

// Puts the changes that replace one row of a group by another, none where it stays, behind what stands in `to`.
pub(crate) fn tell<O: OutMode>(output: &O, results: Results, to: &mut Changes) -> Result<(), Memory>
    requires { results.old ≢ results.fresh → CanTell (O.mode output.now) results.old results.fresh }
    ensures { OnOk result (to.new ≡ to.old ++ emission (O.mode output.now) results.old results.fresh) }
{
    if stays(&results) {
        return Ok(());
    }
    output.emit(results.old, results.fresh, to)
}

// Whether the group's row is as before.
fn stays(results: &Results) -> bool
    ensures same { result ≡ true → results.now.old ≡ results.now.fresh }
    ensures other { result ≡ false → results.now.old ≢ results.now.fresh }
{
    match (&results.old, &results.fresh) {
        (None, None) => true,
        (Some(old), Some(fresh)) => old == fresh,
        _ => false,
    }
}
