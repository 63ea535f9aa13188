//! Moves, and the drain: its stages one after the other, and the quiet moment behind them.
ghost use Rattle.std.specs.Prelude.{IfOk, IfErr};
ghost use Rattle.job_stream.specs.Parts.{drain_run, moves_run, stage_run, stages_run};
ghost use Rattle.job_stream.specs.Writing.{HaltsMoving, MayMove, MayMoveStage, Moves, told};

use crate::sheet::{Sheet, Tools};
use crate::steps::{go_moves, go_step, tell_quiet};
use ct_io::Sink;
use exec_core::Session;
use job_ending::Halt;
use session_core::{Lane, Stage};
use std::sync::ledger::Ledger;
use stream_model::Event;

// So many moves at most are made before what they print is written.
const TOGETHER: u32 = 64;

/// So many changes leave the front of a channel, one after the other.
pub(crate) fn move_all<K: Sink, L: Ledger>(
    session: Session,
    lane: Lane,
    count: u32,
    sheet: &Sheet,
    tools: &mut Tools<L>,
    out: &mut K,
) -> Result<Session, Halt>
    requires ready { MayMove sheet.now session }
    ensures ok { IfOk result (λ next. Moves sheet.now session (moves_run lane.edge lane.from lane.to count) next (told K.written K.faults out.old) (told K.written K.faults out.new)) }
    ensures halts { IfErr result (λ halt. HaltsMoving sheet.now session (moves_run lane.edge lane.from lane.to count) (told K.written K.faults out.old) (told K.written K.faults out.new) halt) }
{
    let mut moved = session;
    let mut left = count;
    'moves: while left > 0 {
        let part = left.min(TOGETHER);
        moved = go_moves(moved, lane, part, sheet, tools, out)?;
        left -= part;
    }
    Ok(moved)
}

/// The stage of this number: what is in flight in its channel is delivered whole, or its bundle is flushed.
pub(crate) fn deliver<K: Sink, L: Ledger>(
    session: Session,
    number: usize,
    sheet: &Sheet,
    tools: &mut Tools<L>,
    out: &mut K,
) -> Result<Session, Halt>
    requires ready { MayMoveStage sheet.now session number }
    ensures ok { IfOk result (λ next. Moves sheet.now session (stage_run number) next (told K.written K.faults out.old) (told K.written K.faults out.new)) }
    ensures halts { IfErr result (λ halt. HaltsMoving sheet.now session (stage_run number) (told K.written K.faults out.old) (told K.written K.faults out.new) halt) }
{
    match session.stage(number) {
        Stage::Deliver(lane) => match session.in_flight(lane.edge, lane.from, lane.to) {
            Some(held) => move_all(session, lane, held, sheet, tools, out),
            None => unreachable!(),
        },
        Stage::Flush { node, subtask } => {
            go_step(session, Event::Flush { node, subtask }, sheet, tools, out)
        }
    }
}

// All stages, in the order of a drain.
fn deliver_all<K: Sink, L: Ledger>(
    session: Session,
    sheet: &Sheet,
    tools: &mut Tools<L>,
    out: &mut K,
) -> Result<Session, Halt>
    requires ready { MayMove sheet.now session }
    ensures ok { IfOk result (λ next. Moves sheet.now session (stages_run 0) next (told K.written K.faults out.old) (told K.written K.faults out.new)) }
    ensures halts { IfErr result (λ halt. HaltsMoving sheet.now session (stages_run 0) (told K.written K.faults out.old) (told K.written K.faults out.new) halt) }
{
    let mut drained = session;
    let count = drained.stage_count();
    'stages: for number in 0..count {
        drained = deliver(drained, number, sheet, tools, out)?;
    }
    Ok(drained)
}

/// Every channel is delivered whole and every bundle flushed, in the order of a drain, and the job is told to be quiet.
pub(crate) fn drain<K: Sink, L: Ledger>(
    session: Session,
    sheet: &Sheet,
    tools: &mut Tools<L>,
    out: &mut K,
) -> Result<Session, Halt>
    requires ready { MayMove sheet.now session }
    ensures ok { IfOk result (λ next. Moves sheet.now session drain_run next (told K.written K.faults out.old) (told K.written K.faults out.new)) }
    ensures halts { IfErr result (λ halt. HaltsMoving sheet.now session drain_run (told K.written K.faults out.old) (told K.written K.faults out.new) halt) }
{
    let drained = deliver_all(session, sheet, tools, out)?;
    tell_quiet(drained, sheet, tools, out)
}
