//! The changelog of a script.
ghost use Rattle.std.specs.Prelude.{◌≡◌, ◌≤◌};
ghost use Rattle.command_line.specs.Requests.{input_view, names_view};
ghost use Rattle.ct_io.specs.Counts.{Rose};
ghost use Rattle.job_ending.specs.Endings.{IsPrintable};
ghost use Rattle.job_ending.specs.Runs.{Runs, RunsThere, ending_of};
ghost use Rattle.job_judgement.specs.Judged.{IsJudged};
ghost use Rattle.job_judgement.specs.Views.{accepted_view};
ghost use Rattle.plan_check.specs.Checked.{plan_in};
ghost use Rattle.sound_plans.specs.Sound.{IsRuled};
ghost use Rattle.source_lines.specs.Supply.{AreWithin, is_by_table};
ghost use Rattle.job_stream.specs.Stream.{streamed};
ghost use Rattle.job_run.specs.Outcome.{run_files, run_named, run_plan, run_script};

use crate::files::{load_input, load_order};
use crate::load::load_script;
use command_line::{FileNames, Input};
use ct_io::{Shelf, Sink};
use ct_value::Text;
use job_ending::Halt;
use job_judgement::Accepted;
use job_plan::planned;
use job_stream::stream;
use job_text::Orders;
use plan_check::CheckedPlan;
use source_lines::ChangeFiles;
use std::alloc::Global;

/// Runs the script of these names over the change files, by the order of this name.
pub fn run_names<F: Shelf, K: Sink>(
    alloc: Global,
    names: &FileNames,
    order: &Option<Text>,
    shelf: &mut F,
    out: &mut K,
) -> Result<(), Halt>
    ensures runs { Runs (F.holdings shelf.old) (run_named (names_view names.now) order.now) (Rose (F.faults shelf.old) (F.faults shelf.new)) (Rose (K.faults out.old) (K.faults out.new)) (K.written out.old) (K.written out.new) (ending_of result) }
    ensures printable { IsPrintable (ending_of result) }
{
    let script = load_script(alloc, shelf, &names.script)?;
    run_script(alloc, &script, &names.input, order, shelf, out)
}

fn run_script<F: Shelf, K: Sink>(
    alloc: Global,
    script: &Accepted,
    input: &Input,
    order: &Option<Text>,
    shelf: &mut F,
    out: &mut K,
) -> Result<(), Halt>
    requires judged { IsJudged (accepted_view script.now) }
    ensures runs { Runs (F.holdings shelf.old) (λ h. run_script h (input_view input.now) order.now (accepted_view script.now)) (Rose (F.faults shelf.old) (F.faults shelf.new)) (Rose (K.faults out.old) (K.faults out.new)) (K.written out.old) (K.written out.new) (ending_of result) }
    ensures printable { IsPrintable (ending_of result) }
    ensures later { F.faults shelf.old ≤ F.faults shelf.new }
{
    let checked = planned(alloc, script)?;
    run_plan(alloc, &checked, input, order, shelf, out)
}

fn run_plan<F: Shelf, K: Sink>(
    alloc: Global,
    checked: &CheckedPlan,
    input: &Input,
    order: &Option<Text>,
    shelf: &mut F,
    out: &mut K,
) -> Result<(), Halt>
    requires ruled { IsRuled (plan_in checked.now) }
    ensures runs { Runs (F.holdings shelf.old) (λ h. run_plan h (input_view input.now) order.now (plan_in checked.now)) (Rose (F.faults shelf.old) (F.faults shelf.new)) (Rose (K.faults out.old) (K.faults out.new)) (K.written out.old) (K.written out.new) (ending_of result) }
    ensures printable { IsPrintable (ending_of result) }
    ensures later { F.faults shelf.old ≤ F.faults shelf.new }
{
    let files = load_input(alloc, shelf, input, &checked.plan().sources)?;
    run_files(alloc, checked, files, order, shelf, out)
}

// The run over change files.
fn run_files<F: Shelf, K: Sink>(
    alloc: Global,
    checked: &CheckedPlan,
    files: ChangeFiles,
    order: &Option<Text>,
    shelf: &mut F,
    out: &mut K,
) -> Result<(), Halt>
    requires ruled { IsRuled (plan_in checked.now) }
    requires within { AreWithin files }
    ensures runs { Runs (F.holdings shelf.old) (λ h. run_files h order.now (plan_in checked.now) files) (Rose (F.faults shelf.old) (F.faults shelf.new)) (Rose (K.faults out.old) (K.faults out.new)) (K.written out.old) (K.written out.new) (ending_of result) }
    ensures printable { IsPrintable (ending_of result) }
    ensures later { F.faults shelf.old ≤ F.faults shelf.new }
{
    let orders = load_order(alloc, shelf, order, is_by_table(&files))?;
    run_lines(alloc, checked, files, &orders, out)
}

// Whether each source has a file of its own.
fn is_by_table(files: &ChangeFiles) -> bool
    ensures { result ≡ is_by_table files.now }
{
    matches!(files, ChangeFiles::Each(_))
}

// The run over the lines of change files and of an order.
fn run_lines<K: Sink>(
    alloc: Global,
    checked: &CheckedPlan,
    files: ChangeFiles,
    orders: &Orders,
    out: &mut K,
) -> Result<(), Halt>
    requires ruled { IsRuled (plan_in checked.now) }
    requires within { AreWithin files }
    ensures runs { RunsThere (streamed (plan_in checked.now) files orders.now) (Rose (K.faults out.old) (K.faults out.new)) (K.written out.old) (K.written out.new) result }
    ensures printable { IsPrintable (ending_of result) }
{
    stream(alloc, checked, files, orders, out)
}
