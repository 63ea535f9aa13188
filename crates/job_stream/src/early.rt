//! A run without an order, whose moves are made early: as soon as a few lines are taken, what they bring goes on to each subtask to which
//! nothing else goes first. What that prints is kept, stage by stage of the drain, and written when all lines are taken.
ghost use Rattle.std.specs.Prelude.{◌≡◌, ◌<◌, ◌≤◌, ◌+◌, ◌*◌, ◌∷◌, ℕ, true, false, drop, length, Some, IfOk, IfErr, IfSome, OnOk, OnErr};
ghost use Rattle.std.specs.Ordering.{nat_cmp};
ghost use Rattle.std.specs.BTreeSet.{contains};
ghost use Rattle.ct_io.specs.Counts.{Rose};
ghost use Rattle.ct_io.specs.Written.{Appends, AppendsPart};
ghost use Rattle.plan_rules.specs.Doings.{network};
ghost use Rattle.stream_model.specs.Drain.{delivers, stages};
ghost use Rattle.exec_core.specs.Stands.{ForRuns, StandsForSome};
ghost use Rattle.job_stream.specs.declared.sheet.Sheet.{Sheet as OnSheet};
ghost use Rattle.job_stream.specs.Parts.{end_run, lines_run, rest_run, stages_run};
ghost use Rattle.job_stream.specs.Early.{AreBegun, EndsWell, FinishesStage, ForEarly, IsEarlyAt, ForFinished, IsFinished, MayBeEarly, MayTakeEarly, MayWrite, StaysEarly, TakesEarly, kept_lines, lines_and_stages};
ghost use Rattle.job_stream.specs.Writing.{ForPlaces, Halts, MayRun, MayTake, nothing, told};

use crate::drains::{deliver, move_all};
use crate::sheet::{Sheet, Tools};
use crate::steps::tell_quiet;
use crate::takes::{left_at, take_many};
use ct_io::{GrowingSink, PutFailed, Sink, put_all};
use ct_value::Memory;
use exec_core::Session;
use job_ending::Halt;
use job_text::{ChangeLines, NamedSources};
use session_core::{Lane, Stage};
use std::alloc::Global;
use std::collections::BTreeSet;
use std::sync::ledger::Ledger;

// So many lines at least are taken before what they bring goes on.
const TAKEN_TOGETHER: u32 = 64;

/// A stage of a drain: whether its moves are made early, and the lines of what it has printed.
#[derive(Drop)]
pub(crate) struct EarlyStage {
    pub early: bool,
    pub kept: GrowingSink,
}

/// A session whose moves are made early, and its stages.
#[derive(Drop)]
pub(crate) struct EarlySession {
    pub session: Session,
    pub stages: Vec<EarlyStage>,
}

// A subtask as one number.
fn number_of(node: u32, subtask: u32) -> u64
    ensures { result ≡ node * 4294967296 + subtask }
{
    u64::from(node) * 4294967296 + u64::from(subtask)
}

// Whether a stage has a subtask that none has had that was seen; then it was.
fn is_first(seen: &mut BTreeSet<u64>, taker: Option<(u32, u32)>) -> Result<bool, Memory>
    ensures first { IfOk result (λ first. first ≡ true → (v j : ℕ) → taker ≡ Some (v, j) → contains nat_cmp seen.old (v * 4294967296 + j) ≡ false) }
    ensures stays { OnOk result ((number : ℕ) → contains nat_cmp seen.old number ≡ true → contains nat_cmp seen.new number ≡ true) }
    ensures seen { OnOk result ((v j : ℕ) → taker ≡ Some (v, j) → contains nat_cmp seen.new (v * 4294967296 + j) ≡ true) }
{
    match taker {
        Some((node, subtask)) => Ok(seen.insert(number_of(node, subtask))?),
        None => Ok(false),
    }
}

// The stages of a session's drain. Early are those that deliver a channel to a subtask to which no stage before them goes.
fn stages_of(alloc: Global, session: &Session) -> Result<Vec<EarlyStage>, Memory>
    requires ready { StandsForSome session.now }
    ensures { IfOk result (λ kept. ForRuns session.now (λ plan limit handed items. AreBegun kept.items plan)) }
{
    let count = session.stage_count();
    let mut seen = BTreeSet::new(alloc);
    let mut kept = Vec::with_capacity(alloc, count)?;
    'stages: for number in 0..count {
        let early = is_first(&mut seen, session.taker(session.stage(number)))?;
        kept.push(EarlyStage {
            early,
            kept: GrowingSink::new(alloc),
        })?;
    }
    Ok(kept)
}

impl EarlySession {
    // All that is in flight in the channel of an early stage is delivered.
    fn deliver_early<L: Ledger>(
        self,
        number: usize,
        lane: Lane,
        sheet: &Sheet,
        tools: &mut Tools<L>,
    ) -> Option<EarlySession>
        requires ready { MayBeEarly sheet.now 0 self }
        requires within { number < length self.stages.items }
        requires early { IsEarlyAt self.stages.items number }
        requires next { ForRuns self.session (λ plan limit handed items. drop number (stages (network plan)) ≡ delivers lane.edge lane.from lane.to ∷ drop (number + 1) (stages (network plan))) }
        ensures { IfSome result (λ later. StaysEarly sheet.now self later) }
    {
        let EarlySession {
            session,
            mut stages,
        } = self;
        let held = session.in_flight(lane.edge, lane.from, lane.to)?;
        match move_all(session, lane, held, sheet, tools, &mut stages[number].kept) {
            Ok(session) => Some(EarlySession { session, stages }),
            Err(_) => None,
        }
    }

    // The same of the stage of this number, if it is early.
    fn go_on_at<L: Ledger>(
        self,
        number: usize,
        sheet: &Sheet,
        tools: &mut Tools<L>,
    ) -> Option<EarlySession>
        requires ready { MayBeEarly sheet.now 0 self }
        requires within { number < length self.stages.items }
        ensures { IfSome result (λ later. StaysEarly sheet.now self later) }
    {
        if !self.stages[number].early {
            return Some(self);
        }
        match self.session.stage(number) {
            Stage::Deliver(lane) => self.deliver_early(number, lane, sheet, tools),
            Stage::Flush { .. } => Some(self),
        }
    }

    // What is in flight goes on as far as it may.
    fn go_on<L: Ledger>(self, sheet: &Sheet, tools: &mut Tools<L>) -> Option<EarlySession>
        requires ready { MayBeEarly sheet.now 0 self }
        ensures { IfSome result (λ later. StaysEarly sheet.now self later) }
    {
        let mut early = self;
        let count = early.stages.len();
        'stages: for number in 0..count {
            early = early.go_on_at(number, sheet, tools)?;
        }
        Some(early)
    }

    // So many next lines of the file at a place are taken.
    fn take_some<L: Ledger>(
        self,
        files: &mut Vec<ChangeLines<'_>>,
        place: usize,
        count: u32,
        sources: &NamedSources<'_>,
        tools: &mut Tools<L>,
    ) -> Option<EarlySession>
        requires ready { MayTake sources.now self.session }
        ensures { IfSome result (λ later. (sheet : OnSheet) → TakesEarly sheet sources.now self files.old.items (lines_run place count) nothing later files.new.items) }
    {
        let EarlySession { session, stages } = self;
        match take_many(session, files, place, count, sources, &mut tools.steps) {
            Ok(session) => Some(EarlySession { session, stages }),
            Err(_) => None,
        }
    }

    // How many lines are taken before what they bring goes on: no fewer than there are stages to look at then.
    fn together(&self) -> u32
        ensures { 0 < result }
    {
        match u32::try_from(self.stages.len()) {
            Ok(count) => count.max(TAKEN_TOGETHER),
            Err(_) => TAKEN_TOGETHER,
        }
    }

    // So many lines of the file at a place are taken, a few at a time, and what these bring goes on.
    fn take_file<L: Ledger>(
        self,
        files: &mut Vec<ChangeLines<'_>>,
        place: usize,
        count: u32,
        sources: &NamedSources<'_>,
        sheet: &Sheet,
        tools: &mut Tools<L>,
    ) -> Option<EarlySession>
        requires ready { MayTakeEarly sheet.now sources.now self files.old.items }
        ensures { IfSome result (λ later. TakesEarly sheet.now sources.now self files.old.items (lines_run place count) nothing later files.new.items) }
    {
        let mut early = self;
        let mut left = count;
        'lines: while left > 0 {
            let part = left.min(early.together());
            let taken = early.take_some(files, place, part, sources, tools)?;
            early = taken.go_on(sheet, tools)?;
            left -= part;
        }
        Some(early)
    }

    // All that is left of the files is taken, one file after the other.
    fn take_rest<L: Ledger>(
        self,
        files: &mut Vec<ChangeLines<'_>>,
        sources: &NamedSources<'_>,
        sheet: &Sheet,
        tools: &mut Tools<L>,
    ) -> Option<EarlySession>
        requires ready { MayTakeEarly sheet.now sources.now self files.old.items }
        ensures { IfSome result (λ later. TakesEarly sheet.now sources.now self files.old.items rest_run nothing later files.new.items) }
    {
        let mut early = self;
        let count = files.len();
        'files: for place in 0..count {
            let left = left_at(files, place);
            early = early.take_file(files, place, left, sources, sheet, tools)?;
        }
        Some(early)
    }

    // The stage of this number is gone through to its end.
    fn finish_at<L: Ledger>(
        self,
        number: usize,
        sheet: &Sheet,
        tools: &mut Tools<L>,
    ) -> Option<EarlySession>
        requires ready { MayBeEarly sheet.now number self }
        requires within { number < length self.stages.items }
        ensures { IfSome result (λ later. FinishesStage sheet.now number self later) }
    {
        let EarlySession {
            session,
            mut stages,
        } = self;
        match deliver(session, number, sheet, tools, &mut stages[number].kept) {
            Ok(session) => Some(EarlySession { session, stages }),
            Err(_) => None,
        }
    }

    // So is each stage, in the order of a drain.
    fn finish<L: Ledger>(self, sheet: &Sheet, tools: &mut Tools<L>) -> Option<EarlySession>
        requires ready { MayBeEarly sheet.now 0 self }
        ensures { IfSome result (λ later. ForEarly sheet.now 0 self (λ sources plan limit p files. IsFinished sheet.now plan limit (stages_run 0 sheet.now.by_table plan limit p) p later files)) }
    {
        let mut early = self;
        let count = early.stages.len();
        'stages: for number in 0..count {
            early = early.finish_at(number, sheet, tools)?;
        }
        Some(early)
    }

    /// What was kept is written, and then that the job is quiet.
    pub(crate) fn write<K: Sink, L: Ledger>(
        self,
        sheet: &Sheet,
        tools: &mut Tools<L>,
        out: &mut K,
    ) -> Result<Session, Halt>
        requires ready { MayWrite sheet.now self }
        ensures ok { IfOk result (λ ended. ForFinished sheet.now self (λ plan limit p. EndsWell sheet.now (end_run sheet.now.by_table plan limit p) p (told K.written K.faults out.old) (told K.written K.faults out.new))) }
        ensures halts { IfErr result (λ halt. ForFinished sheet.now self (λ plan limit p. Halts sheet.now (end_run sheet.now.by_table plan limit p) p (told K.written K.faults out.old) (told K.written K.faults out.new) halt)) }
    {
        let EarlySession { session, stages } = self;
        match put_kept(&stages, out) {
            Ok(()) => tell_quiet(session, sheet, tools, out),
            Err(_) => Err(Halt::WriteFault),
        }
    }
}

// What was kept of the stages is written, one after the other.
fn put_kept<K: Sink>(kept: &[EarlyStage], out: &mut K) -> Result<(), PutFailed>
    ensures whole { OnOk result (Appends (K.written out.old) (K.written out.new) (kept_lines kept.now)) }
    ensures part { AppendsPart (K.written out.old) (K.written out.new) (kept_lines kept.now) }
    ensures later { K.faults out.old ≤ K.faults out.new }
    ensures rose { OnErr result (Rose (K.faults out.old) (K.faults out.new)) }
{
    'stages: for stage in kept {
        put_all(out, stage.kept.written())?;
    }
    Ok(())
}

/// All lines of the files are taken and the job is drained, and what that prints is kept. `None` where anything stops it: then it isn't
/// told how the run ends.
pub(crate) fn run_early<L: Ledger>(
    session: Session,
    files: &mut Vec<ChangeLines<'_>>,
    sources: &NamedSources<'_>,
    sheet: &Sheet,
    tools: &mut Tools<L>,
) -> Option<EarlySession>
    requires ready { MayRun sheet.now sources.now session }
    ensures { IfSome result (λ later. ForPlaces sheet.now sources.now session files.old.items (λ plan limit p. IsFinished sheet.now plan limit (lines_and_stages sheet.now.by_table plan limit p) p later files.new.items)) }
{
    let Ok(stages) = stages_of(sheet.alloc, &session) else {
        return None;
    };
    let early = EarlySession { session, stages };
    let taken = early.take_rest(files, sources, sheet, tools)?;
    taken.finish(sheet, tools)
}
