ghost use Rattle.std.specs.Prelude.{◌≡◌, Err, None, Some, true, OnOk};
ghost use Rattle.op_rules.specs.Faults.{IfRange};
ghost use Rattle.session_subtasks.specs.Subtasks.{ForFlushed, ForTaken, HasRun, IsOutOf, MaySomeFlush, MaySomeTake, holds_some, is_full};

use crate::{Emitted, Subtask};
use ct_change::{Change, Steps};
use op_rules::{OpFault, PieceOperator};
use std::mem::swap;
use std::sync::ledger::Ledger;

impl<O: PieceOperator> Subtask<O> {
    /// Takes a change, where its node's bundles have this size: it is emitted for alone where there are none; else it joins the
    /// bundle, and a bundle that is full then is emitted for as one piece. What is emitted is put into `to`, `None` where the bundle
    /// isn't full yet.
    pub fn take<L: Ledger>(
        &mut self,
        size: Option<u32>,
        port: u32,
        change: Change,
        to: &mut Emitted,
        steps: &mut Steps<L>,
    ) -> Result<(), OpFault>
        requires ready { MaySomeTake O.rule O.broken O.stands_for O.takes_pieces self.old size port change }
        ensures ok { OnOk result (ForTaken O.rule O.broken O.stands_for O.takes_pieces self.old size port change (λ g v history bundle. HasRun O.rule O.broken O.stands_for O.takes_pieces (is_full g v bundle) g v self.new history bundle to.new)) }
        ensures range { IfRange result (λ row. ForTaken O.rule O.broken O.stands_for O.takes_pieces self.old size port change (λ g v history bundle. IsOutOf (is_full g v bundle) (g.emits v history bundle) row)) }
    {
        match size {
            None => self.take_alone(port, change, to, steps),
            Some(size) => self.hold(size, port, change, to, steps),
        }
    }

    // A change is emitted for alone.
    fn take_alone<L: Ledger>(
        &mut self,
        port: u32,
        change: Change,
        to: &mut Emitted,
        steps: &mut Steps<L>,
    ) -> Result<(), OpFault>
        requires ready { MaySomeTake O.rule O.broken O.stands_for O.takes_pieces self.old None port change }
        ensures ok { OnOk result (ForTaken O.rule O.broken O.stands_for O.takes_pieces self.old None port change (λ g v history bundle. HasRun O.rule O.broken O.stands_for O.takes_pieces (is_full g v bundle) g v self.new history bundle to.new)) }
        ensures range { IfRange result (λ row. ForTaken O.rule O.broken O.stands_for O.takes_pieces self.old None port change (λ g v history bundle. IsOutOf (is_full g v bundle) (g.emits v history bundle) row)) }
    {
        to.changes.truncate(0);
        to.due = false;
        match self.operator.consume(port, change, &mut to.changes, steps) {
            Ok(()) => {
                to.due = true;
                Ok(())
            }
            Err(fault) => Err(fault),
        }
    }

    // A change joins the bundle; a bundle that is full then is emitted for.
    fn hold<L: Ledger>(
        &mut self,
        size: u32,
        port: u32,
        change: Change,
        to: &mut Emitted,
        steps: &mut Steps<L>,
    ) -> Result<(), OpFault>
        requires ready { MaySomeTake O.rule O.broken O.stands_for O.takes_pieces self.old (Some size) port change }
        ensures ok { OnOk result (ForTaken O.rule O.broken O.stands_for O.takes_pieces self.old (Some size) port change (λ g v history bundle. HasRun O.rule O.broken O.stands_for O.takes_pieces (is_full g v bundle) g v self.new history bundle to.new)) }
        ensures range { IfRange result (λ row. ForTaken O.rule O.broken O.stands_for O.takes_pieces self.old (Some size) port change (λ g v history bundle. IsOutOf (is_full g v bundle) (g.emits v history bundle) row)) }
    {
        self.held.push(change)?;
        if self.held.len() < size as usize {
            to.clear();
            return Ok(());
        }
        self.fold(to, steps)
    }

    /// What the bundle holds is emitted for, as one piece, and that put into `to`; `None` where the bundle holds nothing.
    pub fn flush<L: Ledger>(
        &mut self,
        to: &mut Emitted,
        steps: &mut Steps<L>,
    ) -> Result<(), OpFault>
        requires ready { MaySomeFlush O.rule O.broken O.stands_for O.takes_pieces self.old }
        ensures ok { OnOk result (ForFlushed O.rule O.broken O.stands_for O.takes_pieces self.old (λ g v history bundle. HasRun O.rule O.broken O.stands_for O.takes_pieces (holds_some bundle) g v self.new history bundle to.new)) }
        ensures range { IfRange result (λ row. ForFlushed O.rule O.broken O.stands_for O.takes_pieces self.old (λ g v history bundle. IsOutOf (holds_some bundle) (g.emits v history bundle) row)) }
    {
        if self.held.is_empty() {
            to.clear();
            return Ok(());
        }
        self.fold(to, steps)
    }

    // What the bundle holds is emitted for, as one piece.
    fn fold<L: Ledger>(&mut self, to: &mut Emitted, steps: &mut Steps<L>) -> Result<(), OpFault>
        requires ready { MaySomeFlush O.rule O.broken O.stands_for O.takes_pieces self.old }
        ensures ok { OnOk result (ForFlushed O.rule O.broken O.stands_for O.takes_pieces self.old (λ g v history bundle. HasRun O.rule O.broken O.stands_for O.takes_pieces true g v self.new history bundle to.new)) }
        ensures range { IfRange result (λ row. ForFlushed O.rule O.broken O.stands_for O.takes_pieces self.old (λ g v history bundle. g.emits v history bundle ≡ Err row)) }
    {
        let mut piece = self.held.beside();
        swap(&mut piece, &mut self.held);
        match self.operator.take_piece(piece, steps) {
            Ok(sent) => {
                to.put(sent);
                Ok(())
            }
            Err(fault) => Err(fault),
        }
    }
}
