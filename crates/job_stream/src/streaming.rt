//! The run, to its ending.
ghost use Rattle.std.specs.Prelude.{◌≡◌, ◌<◌, ◌≤◌, [], IfSome};
ghost use Rattle.ct_io.specs.Counts.{Rose};
ghost use Rattle.plan_check.specs.Checked.{plan_in};
ghost use Rattle.sound_plans.specs.Sound.{IsRuled};
ghost use Rattle.source_lines.specs.declared.supply.ChangeFiles.{ChangeFiles as Files};
ghost use Rattle.source_lines.specs.Supply.{AreWithin, is_by_table};
ghost use Rattle.plan_rules.specs.Doings.{network};
ghost use Rattle.stream_model.specs.Machine.{opened};
ghost use Rattle.job_stream.specs.Early.{FinishesOver, ForFinished, MayWrite, opening};
ghost use Rattle.job_ending.specs.Runs.{RunsThere};
ghost use Rattle.job_stream.specs.Stream.{streamed, streamed_within};
ghost use Rattle.job_stream.specs.Writing.{IsSheetOf};

use crate::early::{EarlySession, run_early};
use crate::orders::go_over;
use crate::sheet::{Sheet, Tools, sheet_of};
use ct_change::Steps;
use ct_io::Sink;
use exec_core::Session;
use job_ending::{Halt, LimitName};
use job_text::{LineWriter, NamedSources, Orders};
use phys_plan::{Exchange, Plan};
use plan_check::CheckedPlan;
use session_open::OpenFault;
use source_lines::{ChangeFiles, read_files};
use std::alloc::Global;
use std::marker::Brand;
use std::mem::forget;
use std::sync::ledger::{Blank, Ledger};
use stream_model::PrintList;

const MOST_SENT: u32 = 4294967295;

/// Runs a sound plan over change files of at most 67,108,864 bytes each, and an order: each line of the order is steps of the job, or lines
/// that are taken; then all lines that are left are taken, file by file, and the job is drained. What a step printed is written on `out`
/// behind it, or behind at most 63 more moves from the same channel, each item as a line by the types of the sink's columns, and a `-D` into
/// an upsert sink by its key. Without an order, and where rows don't go to other subtasks, moves are made early, and what is printed is kept in memory and
/// written at the end; where such a run halts, it is made anew in its order. It sends at most 4,294,967,295 changes. Where the process ends with `out`, what the job
/// keeps isn't freed.
pub fn stream<K: Sink>(
    alloc: Global,
    checked: &CheckedPlan,
    files: ChangeFiles,
    orders: &Orders,
    out: &mut K,
) -> Result<(), Halt>
    requires ruled { IsRuled (plan_in checked.now) }
    requires within { AreWithin files }
    ensures { RunsThere (streamed (plan_in checked.now) files orders.now) (Rose (K.faults out.old) (K.faults out.new)) (K.written out.old) (K.written out.new) result }
{
    stream_within(alloc, checked, files, orders, MOST_SENT, out)
}

/// The same of a run that sends at most so many changes.
pub fn stream_within<K: Sink>(
    alloc: Global,
    checked: &CheckedPlan,
    files: ChangeFiles,
    orders: &Orders,
    sent_limit: u32,
    out: &mut K,
) -> Result<(), Halt>
    requires ruled { IsRuled (plan_in checked.now) }
    requires within { AreWithin files }
    ensures { RunsThere (streamed_within sent_limit (plan_in checked.now) files orders.now) (Rose (K.faults out.old) (K.faults out.new)) (K.written out.old) (K.written out.new) result }
{
    let by_table = is_by_table(&files);
    let Ok(sheet) = sheet_of(alloc, &checked.plan().sink, by_table) else {
        return Err(Halt::Memory);
    };
    run_job::<K, Brand>(
        checked,
        &files,
        orders,
        sent_limit,
        &sheet,
        Blank::new(1),
        out,
    )
}

// Whether each source has a change file of its own.
fn is_by_table(files: &ChangeFiles) -> bool
    ensures { result ≡ is_by_table files.now }
{
    match files {
        ChangeFiles::One(_) => false,
        ChangeFiles::Each(_) => true,
    }
}

// The job is run, without an order with its moves made early if it can be. Nobody reads how many steps that takes.
fn run_job<K: Sink, L: Ledger>(
    checked: &CheckedPlan,
    files: &ChangeFiles,
    orders: &Orders,
    sent_limit: u32,
    sheet: &Sheet,
    blank: Blank,
    out: &mut K,
) -> Result<(), Halt>
    requires name { blank.name ≡ L.name }
    requires parts { blank.parts ≡ L.parts }
    requires some { 0 < L.parts }
    requires ruled { IsRuled (plan_in checked.now) }
    requires within { AreWithin files.now }
    requires sheet { IsSheetOf (plan_in checked.now).sink sheet.now }
    requires by_table { sheet.now.by_table ≡ is_by_table files.now }
    ensures { RunsThere (streamed_within sent_limit (plan_in checked.now) files.now orders.now) (Rose (K.faults out.old) (K.faults out.new)) (K.written out.old) (K.written out.new) result }
{
    let plan = checked.plan();
    let Ok(sources) = NamedSources::new(sheet.alloc, &plan.sources) else {
        return Err(Halt::Memory);
    };
    let mut tools = Tools::<L> {
        steps: Steps::new(blank),
        writer: LineWriter::new(sheet.alloc),
        printed: PrintList::new(sheet.alloc),
    };
    if orders.is_empty() && !is_spread(plan) {
        if let Some(early) = try_early(checked, files, sent_limit, &sources, sheet, &mut tools) {
            return write_early(early, sheet, &mut tools, out);
        }
    }
    run_by_order(
        checked, files, orders, sent_limit, &sources, sheet, &mut tools, out,
    )
}

// Whether rows go from each subtask of a node to all of the next: most of them would wait for the drain, with all that the others print.
fn is_spread(plan: &Plan) -> bool {
    if plan.parallelism == 1 {
        return false;
    }
    for edge in plan.edges.as_slice() {
        if let Exchange::Hash(_) = edge.exchange {
            return true;
        }
    }
    false
}

// The job opens, and goes over its files without an order, with its moves made early.
fn try_early<L: Ledger>(
    checked: &CheckedPlan,
    files: &ChangeFiles,
    sent_limit: u32,
    sources: &NamedSources<'_>,
    sheet: &Sheet,
    tools: &mut Tools<L>,
) -> Option<EarlySession>
    requires ruled { IsRuled (plan_in checked.now) }
    requires within { AreWithin files.now }
    requires sheet { IsSheetOf (plan_in checked.now).sink sheet.now }
    requires sources { sources.now ≡ (plan_in checked.now).sources }
    ensures within { IfSome result (λ early. (opened (network (plan_in checked.now))).sends ≤ sent_limit) }
    ensures finished { IfSome result (FinishesOver sheet.now (plan_in checked.now) sent_limit files.now) }
{
    let Ok(mut lines) = read_files(sheet.alloc, files) else {
        return None;
    };
    match Session::open_job(sheet.alloc, checked, sent_limit) {
        Ok(session) => run_early(session, &mut lines, sources, sheet, tools),
        Err(_) => None,
    }
}

// What such a run kept is written.
fn write_early<K: Sink, L: Ledger>(
    early: EarlySession,
    sheet: &Sheet,
    tools: &mut Tools<L>,
    out: &mut K,
) -> Result<(), Halt>
    requires ready { MayWrite sheet.now early }
    ensures { (files : Files) → ForFinished sheet.now early (λ plan limit p. p ≡ opening (network plan) files → sheet.now.by_table ≡ is_by_table files → (opened (network plan)).sends ≤ limit
        → RunsThere (streamed_within limit plan files []) (Rose (K.faults out.old) (K.faults out.new)) (K.written out.old) (K.written out.new) result) }
{
    match early.write(sheet, tools, out) {
        Ok(ended) => {
            let_go(ended, out);
            Ok(())
        }
        Err(halt) => Err(halt),
    }
}

// The job opens, and goes over its files by an order.
fn run_by_order<K: Sink, L: Ledger>(
    checked: &CheckedPlan,
    files: &ChangeFiles,
    orders: &Orders,
    sent_limit: u32,
    sources: &NamedSources<'_>,
    sheet: &Sheet,
    tools: &mut Tools<L>,
    out: &mut K,
) -> Result<(), Halt>
    requires ruled { IsRuled (plan_in checked.now) }
    requires within { AreWithin files.now }
    requires sheet { IsSheetOf (plan_in checked.now).sink sheet.now }
    requires by_table { sheet.now.by_table ≡ is_by_table files.now }
    requires sources { sources.now ≡ (plan_in checked.now).sources }
    ensures { RunsThere (streamed_within sent_limit (plan_in checked.now) files.now orders.now) (Rose (K.faults out.old) (K.faults out.new)) (K.written out.old) (K.written out.new) result }
{
    let Ok(mut lines) = read_files(sheet.alloc, files) else {
        return Err(Halt::Memory);
    };
    match Session::open_job(sheet.alloc, checked, sent_limit) {
        Ok(session) => match go_over(session, &mut lines, orders, sources, sheet, tools, out) {
            Ok(ended) => {
                let_go(ended, out);
                Ok(())
            }
            Err(halt) => Err(halt),
        },
        Err(OpenFault::Limit) => Err(Halt::Limit(LimitName::Sent)),
        Err(OpenFault::Memory) => Err(Halt::Memory),
    }
}

// The session of a run that has ended. What it keeps is left to the system where the process ends too, since to free it row by row takes
// long.
fn let_go<K: Sink>(session: Session, out: &K) {
    if out.is_last() {
        forget(session);
    }
}
