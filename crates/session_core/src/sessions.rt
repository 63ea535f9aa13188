ghost use Rattle.std.specs.Prelude.{◌≡◌, ℕ, OnOk, OnErr, IfErr};
ghost use Rattle.stream_model.specs.declared.events.Event.TheVariants.{Take as Takes};
ghost use Rattle.stream_model.specs.Network.{Network};
ghost use Rattle.stream_model.specs.Machine as machine;
ghost use Rattle.stream_model.specs.Machine.{State};
ghost use Rattle.stream_model.specs.Drain.{StopsBy};
ghost use Rattle.session_core.specs.LaidOut.{HasBundle, IsLaidOut};
ghost use Rattle.session_core.specs.Sources.{IsAccepted, MayCheck};
ghost use Rattle.session_core.specs.Stands.{ForApplied, ForKept, ForPending, ForSteps, HasStepped, KeepsApplied, KeepsNext, KeepsPending, KeepsSome, MayApply, MayStep, PendsSome, reached};

use crate::operators::{consume_at, flush_at};
use crate::{Session, SourceCheck, SourceFault, Wiring};
use ct_change::{Change, Steps};
use ct_value::OrderCode;
use op_rules::PieceOperator;
use std::sync::ledger::Ledger;
use stream_model::{Event, StepFault};

impl<O: PieceOperator + Drop, S: SourceCheck> Session<O, S> {
    // One change leaves the front of a channel and is consumed.
    pub(crate) fn advance<L: Ledger>(
        &mut self,
        edge: u32,
        from: u32,
        to: u32,
        steps: &mut Steps<L>,
    ) -> Result<(), StepFault>
        requires ready { KeepsSome O.rule O.broken O.stands_for O.takes_pieces S.stands_for self.old }
        ensures ok { OnOk result (KeepsNext O.rule O.broken O.stands_for O.takes_pieces S.stands_for self.old (λ g limit s. machine.move g limit s edge from to) self.new) }
        ensures err { IfErr result (λ fault. ForKept O.rule O.broken O.stands_for O.takes_pieces S.stands_for self.old (λ g limit handed s. StopsBy (machine.move g limit s edge from to) fault)) }
        ensures printed { OnErr result (self.new.traffic.printed ≡ self.old.traffic.printed) }
    {
        let (feed, change) = self.traffic.fetch(&self.wiring, edge, from, to)?;
        let size = self.wiring.bundle(feed.node);
        consume_at(
            &mut self.operators,
            &self.wiring,
            size,
            feed,
            to,
            change,
            &mut self.emitted,
            steps,
        )?;
        self.hand_out(feed.node, to)
    }

    // What a subtask's bundle holds is emitted for, before it is full.
    pub(crate) fn flush<L: Ledger>(
        &mut self,
        node: u32,
        subtask: u32,
        steps: &mut Steps<L>,
    ) -> Result<(), StepFault>
        requires ready { KeepsSome O.rule O.broken O.stands_for O.takes_pieces S.stands_for self.old }
        ensures ok { OnOk result (KeepsNext O.rule O.broken O.stands_for O.takes_pieces S.stands_for self.old (λ g limit s. machine.flush g limit s node subtask) self.new) }
        ensures err { IfErr result (λ fault. ForKept O.rule O.broken O.stands_for O.takes_pieces S.stands_for self.old (λ g limit handed s. StopsBy (machine.flush g limit s node subtask) fault)) }
        ensures printed { OnErr result (self.new.traffic.printed ≡ self.old.traffic.printed) }
    {
        find_bundle(&self.wiring, node, subtask)?;
        flush_at(
            &mut self.operators,
            &self.wiring,
            node,
            subtask,
            &mut self.emitted,
            steps,
        )?;
        self.hand_out(node, subtask)
    }

    // What a subtask emitted for its bundle, if that was due, is handed on.
    fn hand_out(&mut self, node: u32, subtask: u32) -> Result<(), StepFault>
        requires ready { PendsSome O.rule O.broken O.stands_for O.takes_pieces S.stands_for self.old node subtask self.old.emitted }
        ensures ok { OnOk result (KeepsPending O.rule O.broken O.stands_for O.takes_pieces S.stands_for self.old node subtask self.old.emitted self.new) }
        ensures err { IfErr result (λ fault. ForPending O.rule O.broken O.stands_for O.takes_pieces S.stands_for self.old node subtask self.old.emitted (λ g limit handed next. StopsBy next fault)) }
        ensures printed { OnErr result (self.new.traffic.printed ≡ self.old.traffic.printed) }
    {
        self.traffic
            .hand_emitted(&self.wiring, node, subtask, &mut self.emitted)
    }

    // One change of a table enters the channels of its scans.
    fn take(&mut self, table: u32, change: Change) -> Result<(), StepFault>
        requires ready { MayApply O.rule O.broken O.stands_for O.takes_pieces S.stands_for self.old (Takes table change) }
        ensures ok { OnOk result (KeepsApplied O.rule O.broken O.stands_for O.takes_pieces S.stands_for self.old (Takes table change) (λ g limit s. machine.take g limit s table change) self.new) }
        ensures err { IfErr result (λ fault. ForApplied O.rule O.broken O.stands_for O.takes_pieces S.stands_for self.old (Takes table change) (λ g limit handed s. StopsBy (machine.take g limit s table change) fault)) }
        ensures printed { OnErr result (self.new.traffic.printed ≡ self.old.traffic.printed) }
    {
        check_source(&mut self.sources, table, &change)?;
        self.traffic.scan(&self.wiring, table, change)?;
        Ok(())
    }

    // One event.
    fn apply<L: Ledger>(&mut self, event: Event, steps: &mut Steps<L>) -> Result<(), StepFault>
        requires ready { MayApply O.rule O.broken O.stands_for O.takes_pieces S.stands_for self.old event }
        ensures ok { OnOk result (KeepsApplied O.rule O.broken O.stands_for O.takes_pieces S.stands_for self.old event (λ g limit s. machine.step g limit s event) self.new) }
        ensures err { IfErr result (λ fault. ForApplied O.rule O.broken O.stands_for O.takes_pieces S.stands_for self.old event (λ g limit handed s. StopsBy (machine.step g limit s event) fault)) }
        ensures printed { OnErr result (self.new.traffic.printed ≡ self.old.traffic.printed) }
    {
        match event {
            Event::Move { edge, from, to } => self.advance(edge, from, to, steps),
            Event::Take { table, change } => self.take(table, change),
            Event::Flush { node, subtask } => self.flush(node, subtask, steps),
        }
    }

    /// One event. A change that is taken has to fit its table: as many values as columns, each NULL or of its column's
    /// type, and a `-D` of an upsert table NULL outside the key. It stops exactly where the machine stops, with its cause,
    /// NULL where none may stand among them, or for want of memory; then it added nothing to what was printed, and the
    /// session is good for no more events.
    pub fn step<L: Ledger>(&mut self, event: Event, steps: &mut Steps<L>) -> Result<(), StepFault>
        requires ready { MayStep O.rule O.broken O.stands_for O.takes_pieces S.stands_for self.old event }
        ensures ok { OnOk result (HasStepped O.rule O.broken O.stands_for O.takes_pieces S.stands_for self.old event self.new) }
        ensures err { IfErr result (λ fault. ForSteps O.rule O.broken O.stands_for O.takes_pieces S.stands_for self.old event (λ g limit handed items. StopsBy (machine.step g limit (reached g limit items) event) fault)) }
        ensures printed { OnErr result (self.new.traffic.printed ≡ self.old.traffic.printed) }
    {
        match self.apply(event, steps) {
            Ok(()) => Ok(()),
            Err(cause) => Err(cause),
        }
    }
}

// The check of a table tests a change and takes it.
fn check_source<S: SourceCheck>(
    sources: &mut Vec<S>,
    table: u32,
    change: &Change,
) -> Result<(), StepFault>
    requires ready { (g : Network) × (s : State) × MayCheck S.stands_for g s sources.old.items table change.now }
    ensures ok { OnOk result ((g : Network) (s : State) → MayCheck S.stands_for g s sources.old.items table change.now → IsAccepted S.stands_for g s sources.new.items table change.now) }
    ensures err { IfErr result (λ fault. (g : Network) (limit : ℕ) (s : State) → MayCheck S.stands_for g s sources.old.items table change.now → StopsBy (machine.take g limit s table change.now) fault) }
{
    match sources.get_mut(table as usize) {
        None => Err(StepFault::Order(OrderCode::NoSuchPlace)),
        Some(source) => match source.check(change) {
            Ok(()) => Ok(()),
            Err(SourceFault::Refused(code)) => Err(StepFault::Change(code)),
            Err(SourceFault::Memory) => Err(StepFault::Memory),
        },
    }
}

// Whether there is such a subtask, and its node keeps bundles.
fn find_bundle(wiring: &Wiring, node: u32, subtask: u32) -> Result<(), StepFault>
    ensures ok { OnOk result ((g : Network) (limit : ℕ) → IsLaidOut wiring.now g limit → HasBundle g node subtask) }
    ensures err { IfErr result (λ fault. (g : Network) (limit : ℕ) (s : State) → IsLaidOut wiring.now g limit → StopsBy (machine.flush g limit s node subtask) fault) }
{
    if !wiring.is_place(node, subtask) {
        return Err(StepFault::Order(OrderCode::NoSuchPlace));
    }
    match wiring.bundle(node) {
        Some(_) => Ok(()),
        None => Err(StepFault::Order(OrderCode::NoBuffer)),
    }
}
