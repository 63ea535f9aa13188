//! The lines of an order, and the end behind them.
ghost use Rattle.std.specs.Prelude.{◌≡◌, ℕ, Bool, List, IfOk, IfErr};
ghost use Rattle.ct_catalog.specs.declared.table.TableDef.{TableDef};
ghost use Rattle.phys_plan.specs.declared.plan.Plan.{Plan};
ghost use Rattle.source_lines.specs.Supply.{file_named};
ghost use Rattle.stream_model.specs.Looks.{few_in_flight};
ghost use Rattle.job_stream.specs.Parts.{end_run, lines_refusal, named_run, opened_run, order_run, orders_run, refusal_at, verb_run};
ghost use Rattle.job_stream.specs.Stops.{buffer_refusal};
ghost use Rattle.job_stream.specs.Writing.{ForPlaces, Goes, HaltsOn, HaltsTaking, MayMove, MayRun, MayTake, Takes, told};

use crate::drains::{drain, move_all};
use crate::sheet::{Sheet, Tools};
use crate::steps::go_step;
use crate::takes::{take_many, take_rest};
use ct_change::Steps;
use ct_io::Sink;
use ct_value::OrderCode;
use exec_core::Session;
use job_ending::Halt;
use job_text::{ChangeLines, NamedSources, OrderLine, Orders, Verb};
use session_core::{Buffer, Lane};
use std::sync::ledger::Ledger;
use stream_model::Event;

// The place of the file from which an order takes: that of the table of this number from 1, or the only one.
fn file_named(by_table: bool, table: u32) -> Option<usize>
    ensures { result ≡ file_named by_table table }
{
    if by_table {
        (table as usize).checked_sub(1)
    } else {
        Some(0)
    }
}

// Why so many lines can't be taken of the file at a place.
fn take_refusal(files: &Vec<ChangeLines<'_>>, place: Option<usize>, count: u32) -> Option<OrderCode>
    ensures { (plan : Plan) (limit : ℕ) (by_table : Bool) → result ≡ lines_refusal place count by_table plan limit files.now.items }
{
    let Some(place) = place else {
        return Some(OrderCode::NoSuchPlace);
    };
    match files.get(place) {
        None => Some(OrderCode::NoSuchPlace),
        Some(lines) => {
            if count <= lines.left() {
                None
            } else {
                Some(OrderCode::NoMoreChanges)
            }
        }
    }
}

// Why so many changes can't be moved from a channel that holds so many, or isn't there.
fn move_refusal(held: Option<u32>, count: u32) -> Option<OrderCode>
    ensures { result ≡ few_in_flight held count }
{
    match held {
        None => Some(OrderCode::NoSuchPlace),
        Some(held) => {
            if count <= held {
                None
            } else {
                Some(OrderCode::TooFew(held))
            }
        }
    }
}

// Why a bundle can't be flushed.
fn flush_refusal(buffer: Buffer) -> Option<OrderCode>
    ensures { result ≡ buffer_refusal buffer }
{
    match buffer {
        Buffer::NoPlace => Some(OrderCode::NoSuchPlace),
        Buffer::NoBuffer => Some(OrderCode::NoBuffer),
        Buffer::Holds(_) => None,
    }
}

// Why a line of an order can't begin.
fn refusal(
    session: &Session,
    files: &Vec<ChangeLines<'_>>,
    verb: Verb,
    sheet: &Sheet,
) -> Option<OrderCode>
    requires ready { MayMove sheet.now session.now }
    ensures { (sources : List TableDef) → ForPlaces sheet.now sources session.now files.now.items (λ plan limit p. result ≡ refusal_at verb sheet.now.by_table plan limit p) }
{
    match verb {
        Verb::Take { table, count } => {
            take_refusal(files, file_named(sheet.by_table, table), count)
        }
        Verb::Move {
            edge,
            from,
            to,
            count,
        } => move_refusal(session.in_flight(edge, from, to), count),
        Verb::Flush { node, subtask } => flush_refusal(session.buffered(node, subtask)),
        Verb::Drain => None,
    }
}

// So many next lines of a file, if it is named.
fn take_named<L: Ledger>(
    session: Session,
    files: &mut Vec<ChangeLines<'_>>,
    place: Option<usize>,
    count: u32,
    sources: &NamedSources<'_>,
    steps: &mut Steps<L>,
) -> Result<Session, Halt>
    requires ready { MayTake sources.now session }
    ensures ok { IfOk result (λ next. Takes sources.now session files.old.items (named_run place count) next files.new.items) }
    ensures halts { IfErr result (λ halt. HaltsTaking sources.now session files.old.items (named_run place count) halt) }
{
    match place {
        Some(place) => take_many(session, files, place, count, sources, steps),
        None => Ok(session),
    }
}

// What a line of an order asks for.
fn act<K: Sink, L: Ledger>(
    session: Session,
    files: &mut Vec<ChangeLines<'_>>,
    verb: Verb,
    sources: &NamedSources<'_>,
    sheet: &Sheet,
    tools: &mut Tools<L>,
    out: &mut K,
) -> Result<Session, Halt>
    requires ready { MayRun sheet.now sources.now session }
    ensures ok { IfOk result (λ next. Goes sheet.now sources.now session files.old.items (verb_run verb) next files.new.items (told K.written K.faults out.old) (told K.written K.faults out.new)) }
    ensures halts { IfErr result (λ halt. HaltsOn sheet.now sources.now session files.old.items (verb_run verb) (told K.written K.faults out.old) (told K.written K.faults out.new) halt) }
{
    match verb {
        Verb::Take { table, count } => {
            let place = file_named(sheet.by_table, table);
            take_named(session, files, place, count, sources, &mut tools.steps)
        }
        Verb::Move {
            edge,
            from,
            to,
            count,
        } => move_all(session, Lane { edge, from, to }, count, sheet, tools, out),
        Verb::Flush { node, subtask } => {
            go_step(session, Event::Flush { node, subtask }, sheet, tools, out)
        }
        Verb::Drain => drain(session, sheet, tools, out),
    }
}

// A line of an order, unless it can't begin.
fn follow_one<K: Sink, L: Ledger>(
    session: Session,
    files: &mut Vec<ChangeLines<'_>>,
    order: &OrderLine,
    sources: &NamedSources<'_>,
    sheet: &Sheet,
    tools: &mut Tools<L>,
    out: &mut K,
) -> Result<Session, Halt>
    requires ready { MayRun sheet.now sources.now session }
    ensures ok { IfOk result (λ next. Goes sheet.now sources.now session files.old.items (order_run order.now) next files.new.items (told K.written K.faults out.old) (told K.written K.faults out.new)) }
    ensures halts { IfErr result (λ halt. HaltsOn sheet.now sources.now session files.old.items (order_run order.now) (told K.written K.faults out.old) (told K.written K.faults out.new) halt) }
{
    match refusal(&session, files, order.verb, sheet) {
        Some(code) => Err(Halt::Order {
            code,
            line: order.line,
        }),
        None => act(session, files, order.verb, sources, sheet, tools, out),
    }
}

// The lines of an order, one after the other.
fn follow<K: Sink, L: Ledger>(
    session: Session,
    files: &mut Vec<ChangeLines<'_>>,
    orders: &Orders,
    sources: &NamedSources<'_>,
    sheet: &Sheet,
    tools: &mut Tools<L>,
    out: &mut K,
) -> Result<Session, Halt>
    requires ready { MayRun sheet.now sources.now session }
    ensures ok { IfOk result (λ next. Goes sheet.now sources.now session files.old.items (orders_run orders.now) next files.new.items (told K.written K.faults out.old) (told K.written K.faults out.new)) }
    ensures halts { IfErr result (λ halt. HaltsOn sheet.now sources.now session files.old.items (orders_run orders.now) (told K.written K.faults out.old) (told K.written K.faults out.new) halt) }
{
    let mut followed = session;
    let lines = orders.as_slice();
    'orders: for place in 0..lines.len() {
        followed = follow_one(followed, files, &lines[place], sources, sheet, tools, out)?;
    }
    Ok(followed)
}

// What is left of the files is taken, and the job is drained.
fn finish<K: Sink, L: Ledger>(
    session: Session,
    files: &mut Vec<ChangeLines<'_>>,
    sources: &NamedSources<'_>,
    sheet: &Sheet,
    tools: &mut Tools<L>,
    out: &mut K,
) -> Result<Session, Halt>
    requires ready { MayRun sheet.now sources.now session }
    ensures ok { IfOk result (λ next. Goes sheet.now sources.now session files.old.items end_run next files.new.items (told K.written K.faults out.old) (told K.written K.faults out.new)) }
    ensures halts { IfErr result (λ halt. HaltsOn sheet.now sources.now session files.old.items end_run (told K.written K.faults out.old) (told K.written K.faults out.new) halt) }
{
    let taken = take_rest(session, files, sources, &mut tools.steps)?;
    drain(taken, sheet, tools, out)
}

/// The lines of an order, and then the end.
pub(crate) fn go_over<K: Sink, L: Ledger>(
    session: Session,
    files: &mut Vec<ChangeLines<'_>>,
    orders: &Orders,
    sources: &NamedSources<'_>,
    sheet: &Sheet,
    tools: &mut Tools<L>,
    out: &mut K,
) -> Result<Session, Halt>
    requires ready { MayRun sheet.now sources.now session }
    ensures ok { IfOk result (λ next. Goes sheet.now sources.now session files.old.items (opened_run orders.now) next files.new.items (told K.written K.faults out.old) (told K.written K.faults out.new)) }
    ensures halts { IfErr result (λ halt. HaltsOn sheet.now sources.now session files.old.items (opened_run orders.now) (told K.written K.faults out.old) (told K.written K.faults out.new) halt) }
{
    let followed = follow(session, files, orders, sources, sheet, tools, out)?;
    finish(followed, files, sources, sheet, tools, out)
}
