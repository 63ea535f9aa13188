ghost use Rattle.std.specs.Prelude.{◌≡◌, ◌+◌, ◌++◌, ◌∷◌, drop, length, ℕ, List, OnOk, OnErr, IfErr};
ghost use Rattle.stream_model.specs.declared.events.PrintItem.{PrintItem};
ghost use Rattle.stream_model.specs.Network.{Network};
ghost use Rattle.stream_model.specs.Machine.{State};
ghost use Rattle.stream_model.specs.Drain as machine;
ghost use Rattle.stream_model.specs.Drain.{StopsAlong, drain_stages, moves, stages};
ghost use Rattle.session_core.specs.LaidOut.{IsStageThere, IsThere, stage_of};
ghost use Rattle.session_core.specs.declared.wiring.Stage.TheVariants.{Deliver as Delivers};
ghost use Rattle.session_core.specs.Stands.{ForKept, ForRuns, HasDrained, HasMoved, HasStage, HasTold, Keeps, KeepsBehind, KeepsBehindStage, KeepsSome, StandsForSome, StopsAlongStage, StopsDraining, StopsMoving};

use crate::{Lane, RelayOperator, Session, SourceCheck, Stage};
use ct_change::Steps;
use ct_value::Memory;
use std::sync::ledger::Ledger;
use stream_model::StepFault;

impl<O: RelayOperator + Drop, S: SourceCheck> Session<O, S> {
    // So many changes leave the front of a channel, and are consumed one after the other.
    fn advance_each<L: Ledger>(
        &mut self,
        lane: Lane,
        count: u32,
        steps: &mut Steps<L>,
    ) -> Result<(), StepFault>
        requires ready { KeepsSome O.rule O.broken O.stands_for O.takes_pieces S.stands_for self.old }
        ensures ok { OnOk result (KeepsBehind O.rule O.broken O.stands_for O.takes_pieces S.stands_for self.old (λ g limit s. moves lane.edge lane.from lane.to count) self.new) }
        ensures err { IfErr result (λ fault. ForKept O.rule O.broken O.stands_for O.takes_pieces S.stands_for self.old (λ g limit handed s. StopsAlong g limit s (moves lane.edge lane.from lane.to count) fault (handed ++ self.new.traffic.printed))) }
    {
        for moved in 0..count {
            self.advance(lane.edge, lane.from, lane.to, steps)?;
        }
        Ok(())
    }

    // So many changes leave the front of a channel, one after the other; where it leads to a sink that prints each as it
    // came, the sink isn't asked for each.
    fn advance_all<L: Ledger>(
        &mut self,
        lane: Lane,
        count: u32,
        steps: &mut Steps<L>,
    ) -> Result<(), StepFault>
        requires ready { KeepsSome O.rule O.broken O.stands_for O.takes_pieces S.stands_for self.old }
        ensures ok { OnOk result (KeepsBehind O.rule O.broken O.stands_for O.takes_pieces S.stands_for self.old (λ g limit s. moves lane.edge lane.from lane.to count) self.new) }
        ensures err { IfErr result (λ fault. ForKept O.rule O.broken O.stands_for O.takes_pieces S.stands_for self.old (λ g limit handed s. StopsAlong g limit s (moves lane.edge lane.from lane.to count) fault (handed ++ self.new.traffic.printed))) }
    {
        if self.relays(lane) {
            return self.relay_all(lane, count);
        }
        self.advance_each(lane, count, steps)
    }

    // What is in flight in a channel is delivered whole.
    fn deliver<L: Ledger>(&mut self, lane: Lane, steps: &mut Steps<L>) -> Result<(), StepFault>
        requires ready { (g : Network) × (limit : ℕ) × (handed : List PrintItem) × (s : State) × Keeps O.rule O.broken O.stands_for O.takes_pieces S.stands_for g limit self.old handed s × IsThere g lane }
        ensures ok { OnOk result (KeepsBehindStage O.rule O.broken O.stands_for O.takes_pieces S.stands_for self.old (Delivers lane) self.new) }
        ensures err { IfErr result (λ fault. StopsAlongStage O.rule O.broken O.stands_for O.takes_pieces S.stands_for self.old (Delivers lane) fault self.new.traffic.printed) }
    {
        let count = self.traffic.held(lane);
        self.advance_all(lane, count, steps)
    }

    // A channel is delivered whole, or a bundle is flushed.
    fn run_stage<L: Ledger>(&mut self, stage: Stage, steps: &mut Steps<L>) -> Result<(), StepFault>
        requires ready { (g : Network) × (limit : ℕ) × (handed : List PrintItem) × (s : State) × Keeps O.rule O.broken O.stands_for O.takes_pieces S.stands_for g limit self.old handed s × IsStageThere g stage }
        ensures ok { OnOk result (KeepsBehindStage O.rule O.broken O.stands_for O.takes_pieces S.stands_for self.old stage self.new) }
        ensures err { IfErr result (λ fault. StopsAlongStage O.rule O.broken O.stands_for O.takes_pieces S.stands_for self.old stage fault self.new.traffic.printed) }
    {
        match stage {
            Stage::Deliver(lane) => self.deliver(lane, steps),
            Stage::Flush { node, subtask } => self.flush(node, subtask, steps),
        }
    }

    // All stages of a drain, in order.
    fn run_stages<L: Ledger>(&mut self, steps: &mut Steps<L>) -> Result<(), StepFault>
        requires ready { KeepsSome O.rule O.broken O.stands_for O.takes_pieces S.stands_for self.old }
        ensures ok { OnOk result (KeepsBehind O.rule O.broken O.stands_for O.takes_pieces S.stands_for self.old (λ g limit s. drain_stages g limit s (stages g)) self.new) }
        ensures err { IfErr result (λ fault. ForKept O.rule O.broken O.stands_for O.takes_pieces S.stands_for self.old (λ g limit handed s. StopsAlong g limit s (drain_stages g limit s (stages g)) fault (handed ++ self.new.traffic.printed))) }
    {
        let count = self.wiring.stage_count();
        for done in 0..count {
            let stage = self.wiring.stage(done);
            self.run_stage(stage, steps)?;
        }
        Ok(())
    }

    // The drain's events, and that the job is quiet.
    fn run_drain<L: Ledger>(&mut self, steps: &mut Steps<L>) -> Result<(), StepFault>
        requires ready { KeepsSome O.rule O.broken O.stands_for O.takes_pieces S.stands_for self.old }
        ensures ok { OnOk result (KeepsBehind O.rule O.broken O.stands_for O.takes_pieces S.stands_for self.old (λ g limit s. machine.drain g limit s) self.new) }
        ensures err { IfErr result (λ fault. ForKept O.rule O.broken O.stands_for O.takes_pieces S.stands_for self.old (λ g limit handed s. StopsAlong g limit s (machine.drain g limit s) fault (handed ++ self.new.traffic.printed))) }
    {
        self.run_stages(steps)?;
        self.traffic.tell_quiet()?;
        Ok(())
    }

    /// So many changes leave the front of a channel, one after the other. It stops exactly where the machine stops along these moves,
    /// with its cause, or for want of memory; then what was printed before that is what the session has printed and not yet handed
    /// out, and it is good for no more events.
    pub fn move_all<L: Ledger>(
        &mut self,
        lane: Lane,
        count: u32,
        steps: &mut Steps<L>,
    ) -> Result<(), StepFault>
        requires ready { StandsForSome O.rule O.broken O.stands_for O.takes_pieces S.stands_for self.old }
        ensures ok { OnOk result (HasMoved O.rule O.broken O.stands_for O.takes_pieces S.stands_for self.old lane count self.new) }
        ensures err { IfErr result (λ fault. StopsMoving O.rule O.broken O.stands_for O.takes_pieces S.stands_for self.old lane count fault self.new.traffic.printed) }
    {
        match self.advance_all(lane, count, steps) {
            Ok(()) => Ok(()),
            Err(cause) => Err(cause),
        }
    }

    /// How many stages a drain has: node by node, the channels that it delivers whole, then the bundles that it flushes. It takes no
    /// memory.
    pub fn stage_count(&self) -> usize
        ensures { ForRuns O.rule O.broken O.stands_for O.takes_pieces S.stands_for self.now (λ g limit handed items. result ≡ length (stages g)) }
    {
        self.wiring.stage_count()
    }

    /// The stage of this number, from 0: to go through all of them, deliver each channel whole and flush each bundle, and then to tell
    /// that the job is quiet, is to drain. It takes no memory.
    pub fn stage(&self, number: usize) -> Stage
        requires { HasStage O.rule O.broken O.stands_for O.takes_pieces S.stands_for self.now number }
        ensures there { ForRuns O.rule O.broken O.stands_for O.takes_pieces S.stands_for self.now (λ g limit handed items. IsStageThere g result) }
        ensures next { ForRuns O.rule O.broken O.stands_for O.takes_pieces S.stands_for self.now (λ g limit handed items. drop number (stages g) ≡ stage_of result ∷ drop (number + 1) (stages g)) }
    {
        self.wiring.stage(number)
    }

    /// Tells that the job is quiet: a quiet item stands behind what was printed. It stops for want of memory alone, and
    /// then nothing is printed.
    pub fn tell_quiet(&mut self) -> Result<(), Memory>
        ensures ok { OnOk result (HasTold O.rule O.broken O.stands_for O.takes_pieces S.stands_for self.old self.new) }
        ensures printed { OnErr result (self.new.traffic.printed ≡ self.old.traffic.printed) }
    {
        match self.traffic.tell_quiet() {
            Ok(()) => Ok(()),
            Err(Memory) => Err(Memory),
        }
    }

    /// A drain's events, and a quiet item behind what was printed. It leaves the job quiet. It stops exactly where the
    /// machine stops along them, out of range or by the limit, or for want of memory; then what was printed before that
    /// is what the session has printed and not yet handed out, and it is good for no more events.
    pub fn drain<L: Ledger>(&mut self, steps: &mut Steps<L>) -> Result<(), StepFault>
        requires ready { StandsForSome O.rule O.broken O.stands_for O.takes_pieces S.stands_for self.old }
        ensures ok { OnOk result (HasDrained O.rule O.broken O.stands_for O.takes_pieces S.stands_for self.old self.new) }
        ensures err { IfErr result (λ fault. StopsDraining O.rule O.broken O.stands_for O.takes_pieces S.stands_for self.old fault self.new.traffic.printed) }
    {
        match self.run_drain(steps) {
            Ok(()) => Ok(()),
            Err(cause) => Err(cause),
        }
    }
}
