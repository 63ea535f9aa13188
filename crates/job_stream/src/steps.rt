//! One step after the other, and behind each what it printed is written.
ghost use Rattle.std.specs.Prelude.{◌≡◌, IfOk, IfErr};
ghost use Rattle.phys_plan.specs.declared.plan.Plan.{Plan};
ghost use Rattle.plan_rules.specs.Doings.{network};
ghost use Rattle.stream_model.specs.Runs.{IsTyped, happens, quiet};
ghost use Rattle.job_stream.specs.Parts.{item_run, moves_run};
ghost use Rattle.job_stream.specs.Stops.{halt_of};
ghost use Rattle.job_stream.specs.Writing.{HandsOut, HaltsMoving, MayHandOut, MayMove, Moves, StopsHandingOut, told};

use crate::lines::{PutFault, put_items};
use crate::sheet::{Sheet, Tools};
use ct_io::Sink;
use ct_value::Boxed;
use exec_core::Session;
use job_ending::{Halt, LimitName};
use session_core::Lane;
use std::sync::ledger::Ledger;
use stream_model::{Event, StepFault};

// What was printed and not yet handed out is handed out and written.
fn hand_out<K: Sink, L: Ledger>(
    session: Session,
    sheet: &Sheet,
    tools: &mut Tools<L>,
    out: &mut K,
) -> Result<Session, Halt>
    requires ready { MayHandOut sheet.now session }
    ensures ok { IfOk result (λ next. HandsOut sheet.now session next (told K.written K.faults out.old) (told K.written K.faults out.new)) }
    ensures halts { IfErr result (λ halt. StopsHandingOut sheet.now session (told K.written K.faults out.old) (told K.written K.faults out.new) halt) }
{
    let mut left = session;
    tools.printed.truncate(0);
    left.hand_over(&mut tools.printed);
    match put_items(&tools.printed, sheet, &mut tools.writer, out) {
        Ok(()) => Ok(left),
        Err(PutFault::Failed) => Err(Halt::WriteFault),
        Err(PutFault::Memory) => Err(Halt::Memory),
    }
}

/// Why a run halts where the job stops.
pub(crate) fn halt_of(cause: StepFault) -> Halt
    ensures { result ≡ halt_of cause }
{
    match cause {
        StepFault::Change(code) => Halt::Change {
            code,
            line: 0,
            table: 0,
        },
        StepFault::Order(code) => Halt::Order { code, line: 0 },
        StepFault::Range {
            node,
            subtask,
            row,
            tys,
        } => Halt::Range {
            node,
            subtask,
            row: Boxed::into_inner(row),
            tys: Boxed::into_inner(tys),
        },
        StepFault::Limit => Halt::Limit(LimitName::Sent),
        StepFault::Memory => Halt::Memory,
    }
}

/// One event, whose change would fit its table in every plan: one that takes none.
pub(crate) fn go_step<K: Sink, L: Ledger>(
    session: Session,
    event: Event,
    sheet: &Sheet,
    tools: &mut Tools<L>,
    out: &mut K,
) -> Result<Session, Halt>
    requires ready { MayMove sheet.now session }
    requires typed { (plan : Plan) → IsTyped (network plan) (happens event) }
    ensures ok { IfOk result (λ next. Moves sheet.now session (item_run (happens event)) next (told K.written K.faults out.old) (told K.written K.faults out.new)) }
    ensures halts { IfErr result (λ halt. HaltsMoving sheet.now session (item_run (happens event)) (told K.written K.faults out.old) (told K.written K.faults out.new) halt) }
{
    match session.step(event, &mut tools.steps) {
        Ok(next) => hand_out(next, sheet, tools, out),
        Err(stopped) => Err(halt_of(stopped.cause)),
    }
}

/// So many changes leave the front of a channel, one after the other; what they print is written behind the last of them.
pub(crate) fn go_moves<K: Sink, L: Ledger>(
    session: Session,
    lane: Lane,
    count: u32,
    sheet: &Sheet,
    tools: &mut Tools<L>,
    out: &mut K,
) -> Result<Session, Halt>
    requires ready { MayMove sheet.now session }
    ensures ok { IfOk result (λ next. Moves sheet.now session (moves_run lane.edge lane.from lane.to count) next (told K.written K.faults out.old) (told K.written K.faults out.new)) }
    ensures halts { IfErr result (λ halt. HaltsMoving sheet.now session (moves_run lane.edge lane.from lane.to count) (told K.written K.faults out.old) (told K.written K.faults out.new) halt) }
{
    match session.move_all(lane, count, &mut tools.steps) {
        Ok(next) => hand_out(next, sheet, tools, out),
        Err(stopped) => match put_items(&stopped.printed, sheet, &mut tools.writer, out) {
            Ok(()) => Err(halt_of(stopped.cause)),
            Err(PutFault::Failed) => Err(Halt::WriteFault),
            Err(PutFault::Memory) => Err(Halt::Memory),
        },
    }
}

/// The job is told to be quiet.
pub(crate) fn tell_quiet<K: Sink, L: Ledger>(
    session: Session,
    sheet: &Sheet,
    tools: &mut Tools<L>,
    out: &mut K,
) -> Result<Session, Halt>
    requires ready { MayMove sheet.now session }
    ensures ok { IfOk result (λ next. Moves sheet.now session (item_run quiet) next (told K.written K.faults out.old) (told K.written K.faults out.new)) }
    ensures halts { IfErr result (λ halt. HaltsMoving sheet.now session (item_run quiet) (told K.written K.faults out.old) (told K.written K.faults out.new) halt) }
{
    match session.tell_quiet() {
        Ok(next) => hand_out(next, sheet, tools, out),
        Err(stopped) => Err(halt_of(stopped.cause)),
    }
}
