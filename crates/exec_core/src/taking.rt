//! One line after the other.
ghost use Rattle.std.specs.Prelude.{◌≡◌, ℕ, IfOk, IfErr};
ghost use Rattle.phys_plan.specs.declared.plan.Plan.{Plan};
ghost use Rattle.plan_rules.specs.Doings.{network};
ghost use Rattle.stream_model.specs.Machine.{State, take};
ghost use Rattle.stream_model.specs.Drain.{StopsBy};
ghost use Rattle.exec_core.specs.Faults.{IsLineFault};
ghost use Rattle.exec_core.specs.Goes.{ForLine, ForLines, HasTaken, HasTakenLine, IsOfSource, StandsIn, line_from};

use crate::fault::{fault_at, refused};
use crate::{RunFault, Session};
use ct_change::Steps;
use job_text::{ChangeLines, Line, LineFault, NamedSources};
use std::sync::ledger::Ledger;
use stream_model::{Event, StepFault};

// Takes a line. NULL where none may stand is refused by the session, as every other change that its table doesn't take.
fn take_line<L: Ledger>(
    session: Session,
    line: Line,
    steps: &mut Steps<L>,
) -> Result<Session, StepFault>
    requires { (plan : Plan) × (limit : ℕ) × (s : State) × StandsIn session plan limit s.printed s × IsOfSource plan.sources line }
    ensures ok { IfOk result (λ next. ForLine session line (HasTakenLine next line)) }
    ensures stopped { IfErr result (λ cause. ForLine session line (λ plan limit s. StopsBy (take (network plan) limit s line.table line.change) cause)) }
{
    let event = Event::Take {
        table: line.table,
        change: line.change,
    };
    match session.step(event, steps) {
        Ok(next) => Ok(next),
        Err(stopped) => Err(stopped.cause),
    }
}

/// Takes the next line of a file of a run, if there is one. The session has handed out all that it printed, and is that of a job over
/// these sources. A refusal comes exactly where the machine's run halts at the line, by the code, the line's number and its table as
/// that is told; a stop where it stops, or for want of memory.
pub fn take_next<L: Ledger>(
    session: Session,
    lines: &mut ChangeLines<'_>,
    sources: &NamedSources<'_>,
    steps: &mut Steps<L>,
) -> Result<Session, RunFault>
    requires ready { (plan : Plan) × (limit : ℕ) × (s : State) × (plan.sources ≡ sources.now) × StandsIn session plan limit s.printed s }
    ensures ok { IfOk result (λ next. ForLines session lines.old sources.now (λ plan limit by_table p place. HasTaken next lines.new plan limit p place (line_from plan limit by_table p place lines.old))) }
    ensures stopped { IfErr result (λ fault. ForLines session lines.old sources.now (λ plan limit by_table p place. IsLineFault fault p (line_from plan limit by_table p place lines.old))) }
{
    match lines.next_line(sources) {
        Ok(Some(line)) => match take_line(session, line, steps) {
            Ok(next) => Ok(next),
            Err(cause) => Err(fault_at(cause, lines)),
        },
        Ok(None) => Ok(session),
        Err(LineFault::Change(code)) => Err(refused(code, lines)),
        Err(LineFault::Memory) => Err(RunFault::Stopped(StepFault::Memory)),
    }
}
