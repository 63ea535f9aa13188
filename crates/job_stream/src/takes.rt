//! Lines of change files, which print nothing.
ghost use Rattle.std.specs.Prelude.{◌≡◌, ℕ, Bool, slice_get, IfOk, IfErr};
ghost use Rattle.phys_plan.specs.declared.plan.Plan.{Plan};
ghost use Rattle.job_stream.specs.Parts.{line_run, lines_left, lines_run, rest_run};
ghost use Rattle.job_stream.specs.Stops.{halt_at};
ghost use Rattle.job_stream.specs.Writing.{HaltsTaking, MayTake, Takes};

use crate::steps::halt_of;
use ct_change::Steps;
use exec_core::{RunFault, Session, take_next};
use job_ending::Halt;
use job_text::{ChangeLines, NamedSources};
use std::sync::ledger::Ledger;

// Why a run halts where a line isn't taken.
fn halt_at(fault: RunFault) -> Halt
    ensures { result ≡ halt_at fault }
{
    match fault {
        RunFault::Refused { code, line, table } => Halt::Change { code, line, table },
        RunFault::Stopped(cause) => halt_of(cause),
    }
}

// The next line of the file at a place, where there is one.
fn take_line<L: Ledger>(
    session: Session,
    files: &mut Vec<ChangeLines<'_>>,
    place: usize,
    sources: &NamedSources<'_>,
    steps: &mut Steps<L>,
) -> Result<Session, Halt>
    requires ready { MayTake sources.now session }
    ensures ok { IfOk result (λ next. Takes sources.now session files.old.items (line_run place) next files.new.items) }
    ensures may { IfOk result (λ next. MayTake sources.now next) }
    ensures halts { IfErr result (λ halt. HaltsTaking sources.now session files.old.items (line_run place) halt) }
{
    match files.get_mut(place) {
        None => Ok(session),
        Some(lines) => match take_next(session, lines, sources, steps) {
            Ok(next) => Ok(next),
            Err(fault) => Err(halt_at(fault)),
        },
    }
}

/// So many next lines of the file at a place, as far as there are any.
pub(crate) fn take_many<L: Ledger>(
    session: Session,
    files: &mut Vec<ChangeLines<'_>>,
    place: usize,
    count: u32,
    sources: &NamedSources<'_>,
    steps: &mut Steps<L>,
) -> Result<Session, Halt>
    requires ready { MayTake sources.now session }
    ensures ok { IfOk result (λ next. Takes sources.now session files.old.items (lines_run place count) next files.new.items) }
    ensures may { IfOk result (λ next. MayTake sources.now next) }
    ensures halts { IfErr result (λ halt. HaltsTaking sources.now session files.old.items (lines_run place count) halt) }
{
    let mut taken = session;
    let mut left = count;
    'lines: while left > 0 {
        taken = take_line(taken, files, place, sources, steps)?;
        left -= 1;
    }
    Ok(taken)
}

/// How many lines the file at a place has left.
pub(crate) fn left_at(files: &Vec<ChangeLines<'_>>, place: usize) -> u32
    ensures { (plan : Plan) (limit : ℕ) (by_table : Bool) → result ≡ lines_left by_table plan limit (slice_get files.now.items place) }
{
    match files.get(place) {
        Some(lines) => lines.left(),
        None => 0,
    }
}

/// All that is left of the files, one file after the other.
pub(crate) fn take_rest<L: Ledger>(
    session: Session,
    files: &mut Vec<ChangeLines<'_>>,
    sources: &NamedSources<'_>,
    steps: &mut Steps<L>,
) -> Result<Session, Halt>
    requires ready { MayTake sources.now session }
    ensures ok { IfOk result (λ next. Takes sources.now session files.old.items rest_run next files.new.items) }
    ensures may { IfOk result (λ next. MayTake sources.now next) }
    ensures halts { IfErr result (λ halt. HaltsTaking sources.now session files.old.items rest_run halt) }
{
    let mut taken = session;
    let count = files.len();
    'files: for place in 0..count {
        let left = left_at(files, place);
        taken = take_many(taken, files, place, left, sources, steps)?;
    }
    Ok(taken)
}
