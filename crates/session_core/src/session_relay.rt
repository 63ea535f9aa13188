ghost use Rattle.std.specs.Prelude.{◌≡◌, ◌++◌, ℕ, true, OnOk, OnErr, IfErr};
ghost use Rattle.stream_model.specs.Machine as machine;
ghost use Rattle.stream_model.specs.Drain.{StopsAlong, StopsBy, moves};
ghost use Rattle.session_core.specs.Relayed.{RelaysAlong};
ghost use Rattle.session_core.specs.Stands.{ForKept, KeepsBehind, KeepsNext, KeepsSome};

use crate::{Lane, RelayOperator, Session, SourceCheck};
use ct_value::OrderCode;
use stream_model::{PrintItem, StepFault};

impl<O: RelayOperator + Drop, S: SourceCheck> Session<O, S> {
    // Whether a channel leads to a subtask of the sink that prints each change as it came.
    pub(crate) fn relays(&self, lane: Lane) -> bool
        requires ready { KeepsSome O.rule O.broken O.stands_for O.takes_pieces S.stands_for self.now }
        ensures { result ≡ true → RelaysAlong O.rule O.stands_for self.now lane }
    {
        let Some(feed) = self.wiring.feed(lane.edge) else {
            return false;
        };
        if feed.node != self.wiring.nodes {
            return false;
        }
        if !self.wiring.is_channel(lane.edge, lane.from, lane.to) {
            return false;
        }
        match self.wiring.bundle(feed.node) {
            Some(_) => false,
            None => self.operators.relays(feed.node, lane.to),
        }
    }

    // One change leaves the front of such a channel, and is printed as it came.
    fn relay(&mut self, lane: Lane) -> Result<(), StepFault>
        requires ready { KeepsSome O.rule O.broken O.stands_for O.takes_pieces S.stands_for self.old }
        requires relays { RelaysAlong O.rule O.stands_for self.old lane }
        ensures ok { OnOk result (KeepsNext O.rule O.broken O.stands_for O.takes_pieces S.stands_for self.old (λ g limit s. machine.move g limit s lane.edge lane.from lane.to) self.new) }
        ensures err { IfErr result (λ fault. ForKept O.rule O.broken O.stands_for O.takes_pieces S.stands_for self.old (λ g limit handed s. StopsBy (machine.move g limit s lane.edge lane.from lane.to) fault)) }
        ensures printed { OnErr result (self.new.traffic.printed ≡ self.old.traffic.printed) }
        ensures relays_on { RelaysAlong O.rule O.stands_for self.new lane }
    {
        let Some(change) = self
            .traffic
            .channels
            .take_front(lane.edge, lane.from, lane.to)
        else {
            return Err(StepFault::Order(OrderCode::TooFew(0)));
        };
        self.traffic.printed.push(PrintItem::Change(change))?;
        Ok(())
    }

    // So many changes leave the front of such a channel, and are printed as they came.
    pub(crate) fn relay_all(&mut self, lane: Lane, count: u32) -> Result<(), StepFault>
        requires ready { KeepsSome O.rule O.broken O.stands_for O.takes_pieces S.stands_for self.old }
        requires relays { RelaysAlong O.rule O.stands_for self.old lane }
        ensures ok { OnOk result (KeepsBehind O.rule O.broken O.stands_for O.takes_pieces S.stands_for self.old (λ g limit s. moves lane.edge lane.from lane.to count) self.new) }
        ensures err { IfErr result (λ fault. ForKept O.rule O.broken O.stands_for O.takes_pieces S.stands_for self.old (λ g limit handed s. StopsAlong g limit s (moves lane.edge lane.from lane.to count) fault (handed ++ self.new.traffic.printed))) }
    {
        for moved in 0..count {
            self.relay(lane)?;
        }
        Ok(())
    }
}
