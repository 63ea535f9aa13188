//! Sessions over plans.
ghost use Rattle.std.specs.Prelude.{◌≡◌, ◌+◌, ◌≤◌, ◌++◌, [], ◌∷◌, drop, length, true, OnOk, IfOk, IfErr};
ghost use Rattle.ct_catalog.specs.Columns.{table_mode};
ghost use Rattle.plan_check.specs.Checked.{plan_in};
ghost use Rattle.plan_rules.specs.Doings.{network};
ghost use Rattle.sound_plans.specs.Sound.{IsRuled};
ghost use Rattle.stream_model.specs.Machine as machine;
ghost use Rattle.stream_model.specs.Machine.{IsQuiet, opened};
ghost use Rattle.stream_model.specs.Drain.{StopsBy, stages};
ghost use Rattle.stream_model.specs.Looks.{in_flight, taken_of};
ghost use Rattle.stream_model.specs.declared.events.StepFault.TheVariants.{Memory as Wanting};
ghost use Rattle.session_core.specs.LaidOut.{IsStageThere, stage_of, taker_of};
ghost use Rattle.session_core.specs.Stands.{HasAnswered, buffer_at};
ghost use Rattle.session_open.specs.Opening.{IsTooMany};
ghost use Rattle.exec_core.specs.Stands.{ForRuns, ForSteps, HasDrained, HasMoved, HasStage, HasStepped, HasTold, MayStep, Stands, StandsForSome, StopsDraining, StopsMoving, reached};

use crate::TableCheck;
use ct_change::Steps;
use ct_value::Memory;
use plan_check::CheckedPlan;
use session_core::{Buffer, Lane, Stage};
use session_open::{AnyOperator, OpenFault, open_job};
use std::alloc::Global;
use std::sync::ledger::Ledger;
use stream_model::{Event, PrintList, StepFault, Stopped};

/// A job of a plan: its operators, the tests of its sources, what is in flight, and what was printed and not yet handed
/// out. It is handed on from step to step, so it lies in a box: what is moved is a pointer.
#[derive(Drop)]
pub struct Session {
    job: Box<session_core::Session<AnyOperator, TableCheck>>,
}

impl Session {
    /// Opens a job of a plan that sends at most so many changes. `Limit` comes exactly where the rows with which its nodes open
    /// are more than these.
    pub fn open_job(
        alloc: Global,
        checked: &CheckedPlan,
        sent_limit: u32,
    ) -> Result<Session, OpenFault>
        requires { IsRuled (plan_in checked.now) }
        ensures ok { IfOk result (λ session. Stands session (plan_in checked.now) sent_limit [] []) }
        ensures within { OnOk result ((opened (network (plan_in checked.now))).sends ≤ sent_limit) }
        ensures err { IfErr result (λ fault. IsTooMany sent_limit (opened (network (plan_in checked.now))).sends fault) }
    {
        let plan = checked.plan();
        let columns = &checked.inferred().columns;
        let job = open_job::<AnyOperator, TableCheck>(alloc, plan, columns, sent_limit)?;
        match Box::new(alloc, job) {
            Ok(job) => Ok(Session { job }),
            Err(_) => Err(OpenFault::Memory),
        }
    }

    /// The session after one event. A change that is taken has to fit its table: as many values as columns, each NULL or of
    /// its column's type, and in a `-D` of an upsert table NULL in every column outside the key. A stop comes exactly where
    /// the machine stops, with its cause, NULL where none may stand among them, or for want of memory; it consumes the
    /// session, adds nothing to what was printed, and hands back what was printed and not yet handed out.
    pub fn step<L: Ledger>(mut self, event: Event, steps: &mut Steps<L>) -> Result<Session, Stopped>
        requires ready { MayStep self event }
        ensures ok { IfOk result (λ next. HasStepped self event next) }
        ensures err { IfErr result (λ stopped. ForSteps self event (λ plan limit handed items. StopsBy (machine.step (network plan) limit (reached plan limit items) event) stopped.cause)) }
        ensures printed { IfErr result (λ stopped. ForRuns self (λ plan limit handed items. (reached plan limit items).printed ≡ handed ++ stopped.printed)) }
    {
        match self.job.step(event, steps) {
            Ok(()) => Ok(self),
            Err(cause) => {
                let printed = self.job.take_printed();
                Err(Stopped { cause, printed })
            }
        }
    }

    /// The session after so many moves from a channel, one after the other. A stop comes exactly where the machine stops along them, with
    /// its cause, or for want of memory; it consumes the session, and hands back what was printed before it and not yet handed out.
    pub fn move_all<L: Ledger>(
        mut self,
        lane: Lane,
        count: u32,
        steps: &mut Steps<L>,
    ) -> Result<Session, Stopped>
        requires ready { StandsForSome self }
        ensures ok { IfOk result (λ next. HasMoved self lane count next) }
        ensures err { IfErr result (λ stopped. StopsMoving self lane count stopped.cause stopped.printed) }
    {
        match self.job.move_all(lane, count, steps) {
            Ok(()) => Ok(self),
            Err(cause) => {
                let printed = self.job.take_printed();
                Err(Stopped { cause, printed })
            }
        }
    }

    /// The session after a drain's events, and a quiet item behind what was printed. It leaves the job quiet. A stop comes
    /// exactly where the machine stops along them, out of range or by the limit, or for want of memory; it hands back what
    /// was printed before it and not yet handed out.
    pub fn drain<L: Ledger>(mut self, steps: &mut Steps<L>) -> Result<Session, Stopped>
        requires ready { StandsForSome self }
        ensures ok { IfOk result (λ next. HasDrained self next) }
        ensures err { IfErr result (λ stopped. StopsDraining self stopped.cause stopped.printed) }
    {
        match self.job.drain(steps) {
            Ok(()) => Ok(self),
            Err(cause) => {
                let printed = self.job.take_printed();
                Err(Stopped { cause, printed })
            }
        }
    }

    /// How many stages a drain has: node by node, the channels that it delivers whole, then the bundles that it flushes. It takes no
    /// memory.
    pub fn stage_count(&self) -> usize
        ensures { ForRuns self.now (λ plan limit handed items. result ≡ length (stages (network plan))) }
    {
        self.job.stage_count()
    }

    /// The stage of this number, from 0: to go through all of them, deliver each channel whole and flush each bundle, and then to tell
    /// that the job is quiet, is to drain. It takes no memory.
    pub fn stage(&self, number: usize) -> Stage
        requires { HasStage self.now number }
        ensures there { ForRuns self.now (λ plan limit handed items. IsStageThere (network plan) result) }
        ensures next { ForRuns self.now (λ plan limit handed items. drop number (stages (network plan)) ≡ stage_of result ∷ drop (number + 1) (stages (network plan))) }
    {
        self.job.stage(number)
    }

    /// The session with a quiet item behind what was printed. It stops for want of memory alone, and hands back what was printed
    /// and not yet handed out.
    pub fn tell_quiet(mut self) -> Result<Session, Stopped>
        ensures ok { IfOk result (λ next. HasTold self next) }
        ensures cause { IfErr result (λ stopped. stopped.cause ≡ Wanting) }
        ensures printed { IfErr result (λ stopped. ForRuns self (λ plan limit handed items. (reached plan limit items).printed ≡ handed ++ stopped.printed)) }
    {
        match self.job.tell_quiet() {
            Ok(()) => Ok(self),
            Err(Memory) => {
                let printed = self.job.take_printed();
                Err(Stopped {
                    cause: StepFault::Memory,
                    printed,
                })
            }
        }
    }

    /// Hands out the items that were printed and not yet handed out, into a list that is empty, whose room is kept for what is printed
    /// next. It takes no memory.
    pub fn hand_over(&mut self, to: &mut PrintList)
        requires empty { to.old ≡ [] }
        ensures items { ForRuns self.old (λ plan limit handed items. (reached plan limit items).printed ≡ handed ++ to.new) }
        ensures stands { ForRuns self.old (λ plan limit handed items. Stands self.new plan limit (handed ++ to.new) items) }
    {
        self.job.hand_over(to)
    }

    /// The same, into a list of its own. It takes no memory.
    pub fn take_printed(&mut self) -> PrintList
        ensures items { ForRuns self.old (λ plan limit handed items. (reached plan limit items).printed ≡ handed ++ result) }
        ensures stands { ForRuns self.old (λ plan limit handed items. Stands self.new plan limit (handed ++ result) items) }
    {
        self.job.take_printed()
    }

    /// Whether no channel and no bundle holds a change: then what was printed, in all, is the batch answer over what was taken. It takes no
    /// memory.
    pub fn is_quiet(&self) -> bool
        requires ready { StandsForSome self.now }
        ensures quiet { ForRuns self.now (λ plan limit handed items. result ≡ true → IsQuiet (network plan) (reached plan limit items)) }
        ensures answers { result ≡ true → ForRuns self.now (λ plan limit handed items. HasAnswered (network plan) (table_mode plan.sink) (reached plan limit items)) }
        ensures busy { ForRuns self.now (λ plan limit handed items. IsQuiet (network plan) (reached plan limit items) → result ≡ true) }
    {
        self.job.is_quiet()
    }

    /// The subtask that takes what a stage of a drain delivers, or whose bundle is flushed: its node, and its number there. `None`
    /// exactly where it delivers a channel of an edge that feeds no node. It takes no memory.
    pub fn taker(&self, stage: Stage) -> Option<(u32, u32)>
        ensures { ForRuns self.now (λ plan limit handed items. result ≡ taker_of (network plan) (stage_of stage)) }
    {
        self.job.taker(stage)
    }

    /// How many changes were taken of a table, and `None` exactly where there is no such table. It takes no memory.
    pub fn taken(&self, table: u32) -> Option<u32>
        ensures { ForRuns self.now (λ plan limit handed items. result ≡ taken_of (network plan) (reached plan limit items) table) }
    {
        self.job.taken(table)
    }

    /// How many changes are in flight in a channel, and `None` exactly where there is no such channel. It takes no memory.
    pub fn in_flight(&self, edge: u32, from: u32, to: u32) -> Option<u32>
        requires ready { StandsForSome self.now }
        ensures value { ForRuns self.now (λ plan limit handed items. result ≡ in_flight (network plan) (reached plan limit items) edge from to) }
    {
        self.job.in_flight(edge, from, to)
    }

    /// What a subtask keeps of a bundle. It takes no memory.
    pub fn buffered(&self, node: u32, subtask: u32) -> Buffer
        ensures { ForRuns self.now (λ plan limit handed items. result ≡ buffer_at (network plan) (reached plan limit items) node subtask) }
    {
        self.job.buffered(node, subtask)
    }
}
