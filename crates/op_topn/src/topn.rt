//! The operator.
ghost use Rattle.std.specs.Prelude.{◌≡◌, ℕ, ◌+◌, ◌*◌, ◌≤◌, ◌++◌, [], true, false, IfOk, OnOk};
ghost use Rattle.ct_change.specs.Changelog.{Rows, apply};
ghost use Rattle.ct_change.specs.Emission as e;

use crate::partitions::{TopBy, turn_partition};
use crate::telling::tell;
use crate::{RankOrder, RankedRows};
use ct_change::{Change, Changes, InMode, OutMode, Steps};
use ct_value::{ColTys, Cols, Memory, Row, Values};
use op_rules::{OpFault, Operator};
use rel_algebra::Sorts;
use std::alloc::Global;
use std::collections::BTreeMap;
use std::sync::ledger::Ledger;

/// The operator that keeps the first rows of each partition in an order, from a changelog in one mode to one in another (Flink
/// documentation, "Top-N"). Ties are broken by the whole row. It keeps all rows of each partition in rank order, the partitions
/// found by key, so that the next row follows where one of the first leaves.
#[derive(Drop)]
pub struct TopN<I: InMode, O: OutMode> {
    by: TopBy,
    input: I,
    output: O,
    rows: I::Kept,
    partitions: BTreeMap<Row, RankedRows>,
    // The key of the row that was taken last, whose memory is kept for the next one's.
    key: Row,
    broken: bool,
}

impl<I: InMode, O: OutMode> TopN<I, O> {
    ghost use Rattle.emission_rules.specs.Ranking.{topn_rule, tells, IsSound};
    ghost use Rattle.op_topn.specs.Tops.{ranking, ForChange, IsHeld, IsHeldAfter, MayTake};

    /// A Top-N of no rows: of rows of these columns the first `bound` of each partition in this order, with `ranked` their rank as
    /// the last column. The partition's columns have to be there and rows with one key of the input of one partition; into a
    /// changelog with a key goes a Top-N with ranks, or of one row, whose key names the partition and the rank where it is shown. It
    /// fails for want of memory alone.
    pub fn new(
        alloc: Global,
        partition: Cols,
        order: Sorts,
        bound: u32,
        ranked: bool,
        columns: ColTys,
        input: I,
        output: O,
    ) -> Result<TopN<I, O>, Memory>
        requires { IsSound (record { partition = partition; order = order; bound = bound; ranked = ranked; columns = columns; input = I.mode input; output = O.mode output }) }
        ensures rule { IfOk result (λ made. ⟦<TopN<I, O> as Operator>⟧.rule made ≡ topn_rule (record { partition = partition; order = order; bound = bound; ranked = ranked; columns = columns; input = I.mode input; output = O.mode output })) }
        ensures stands { IfOk result (λ made. ⟦<TopN<I, O> as Operator>⟧.stands_for made []) }
        ensures whole { IfOk result (λ made. ⟦<TopN<I, O> as Operator>⟧.broken made ≡ false) }
    {
        let order = RankOrder::new(alloc, order)?;
        let rows = input.fresh()?;
        Ok(TopN {
            by: TopBy {
                alloc,
                partition,
                order,
                bound,
                ranked,
                columns,
            },
            input,
            output,
            rows,
            partitions: BTreeMap::new(alloc),
            key: Row::from_values(Values::new(alloc)),
            broken: false,
        })
    }

    // Takes a change, and puts what is emitted for it behind what stands in `to`.
    fn take<L: Ledger>(
        &mut self,
        change: Change,
        to: &mut Changes,
        steps: &mut Steps<L>,
    ) -> Result<(), Memory>
        requires { (rows : Rows) × (held : ℕ) × I.stands_for self.old.input self.old.rows rows × MayTake (ranking self.old.by (I.mode self.old.input) (O.mode self.old.output)) rows self.old.partitions held change }
        ensures sent { OnOk result (ForChange self.old.by (I.mode self.old.input) (O.mode self.old.output) (I.stands_for self.old.input self.old.rows) self.old.partitions change (λ r rows held. to.new ≡ to.old ++ tells r rows change)) }
        ensures rows { OnOk result (ForChange self.old.by (I.mode self.old.input) (O.mode self.old.output) (I.stands_for self.old.input self.old.rows) self.old.partitions change (λ r rows _. I.stands_for self.new.input self.new.rows (apply r.input rows change))) }
        ensures kept { OnOk result (ForChange self.old.by (I.mode self.old.input) (O.mode self.old.output) (I.stands_for self.old.input self.old.rows) self.old.partitions change (λ r rows held. IsHeldAfter r rows self.new.partitions held change)) }
        ensures same { (self.new.by ≡ self.old.by) × (self.new.input ≡ self.old.input) × (self.new.output ≡ self.old.output) × (self.new.broken ≡ self.old.broken) }
        ensures cost { steps.new ≤ steps.old + 2 * self.old.by.bound }
    {
        change.row.project_into(&self.by.partition, &mut self.key)?;
        let diff = self.input.absorb(&mut self.rows, change)?;
        let (gone, come) = (row_of(diff.gone), row_of(diff.come));
        let firsts = turn_partition(&self.by, &mut self.partitions, &self.key, gone, come, steps)?;
        match firsts {
            None => Ok(()),
            Some(firsts) => {
                tell(&self.by, &self.output, firsts, to)?;
                Ok(())
            }
        }
    }
}

impl<I: InMode, O: OutMode> Operator for TopN<I, O> {
    ghost use Rattle.std.specs.Prelude.{length};
    ghost use Rattle.ct_change.specs.Changelog.{fold};
    ghost use Rattle.op_rules.specs.History.{at_port};
    ghost use Rattle.emission_rules.specs.Ranking.{topn_rule, IsSound};
    ghost use Rattle.op_topn.specs.Tops.{ranking, IsHeld};

    ghost rule = { λ s. topn_rule (ranking s.by (I.mode s.input) (O.mode s.output)) };

    ghost broken = { λ s. s.broken };

    ghost stands_for = { λ s before.
        IsSound (ranking s.by (I.mode s.input) (O.mode s.output))
        × I.stands_for s.input s.rows (fold (I.mode s.input) (at_port 0 before))
        × IsHeld (ranking s.by (I.mode s.input) (O.mode s.output)) (fold (I.mode s.input) (at_port 0 before)) s.partitions (length before) };

    fn opening(&mut self, _subtask: u32) -> Result<Changes, Memory> {
        Ok(Changes::new(self.by.alloc))
    }

    fn consume<L: Ledger>(
        &mut self,
        _port: u32,
        change: Change,
        to: &mut Changes,
        steps: &mut Steps<L>,
    ) -> Result<(), OpFault> {
        self.broken = true;
        self.take(change, to, steps)?;
        self.broken = false;
        Ok(())
    }

    fn is_broken(&self) -> bool {
        self.broken
    }
}

// The row of a change.
fn row_of(change: Option<Change>) -> Option<Row>
    ensures { result ≡ e.row_of change }
{
    match change {
        None => None,
        Some(change) => Some(change.row),
    }
}
