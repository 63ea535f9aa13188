//! The batch answer of a script.
ghost use Rattle.std.specs.Prelude.{◌≤◌};
ghost use Rattle.command_line.specs.Requests.{input_view, names_view};
ghost use Rattle.ct_io.specs.Counts.{Rose};
ghost use Rattle.job_ending.specs.Endings.{IsPrintable};
ghost use Rattle.job_ending.specs.Runs.{Runs, ending_of};
ghost use Rattle.job_judgement.specs.Judged.{IsJudged};
ghost use Rattle.job_judgement.specs.Views.{accepted_view};
ghost use Rattle.job_batch.specs.Batch.{with_changes};
ghost use Rattle.job_run.specs.Outcome.{batch_named, batch_script, over_input};

use crate::files::load_input;
use crate::load::load_script;
use command_line::{FileNames, Input};
use ct_io::{Shelf, Sink};
use job_batch::batch;
use job_ending::Halt;
use job_judgement::Accepted;
use job_plan::planned;
use std::alloc::Global;

/// Answers the query of the script of these names over the first lines of each change file, or over all.
pub fn batch_names<F: Shelf, K: Sink>(
    alloc: Global,
    names: &FileNames,
    first: Option<u64>,
    shelf: &mut F,
    out: &mut K,
) -> Result<(), Halt>
    ensures runs { Runs (F.holdings shelf.old) (batch_named (names_view names.now) first) (Rose (F.faults shelf.old) (F.faults shelf.new)) (Rose (K.faults out.old) (K.faults out.new)) (K.written out.old) (K.written out.new) (ending_of result) }
    ensures printable { IsPrintable (ending_of result) }
{
    let script = load_script(alloc, shelf, &names.script)?;
    batch_script(alloc, &script, &names.input, first, shelf, out)
}

fn batch_script<F: Shelf, K: Sink>(
    alloc: Global,
    script: &Accepted,
    input: &Input,
    first: Option<u64>,
    shelf: &mut F,
    out: &mut K,
) -> Result<(), Halt>
    requires judged { IsJudged (accepted_view script.now) }
    ensures runs { Runs (F.holdings shelf.old) (λ h. batch_script h (input_view input.now) first (accepted_view script.now)) (Rose (F.faults shelf.old) (F.faults shelf.new)) (Rose (K.faults out.old) (K.faults out.new)) (K.written out.old) (K.written out.new) (ending_of result) }
    ensures printable { IsPrintable (ending_of result) }
    ensures later { F.faults shelf.old ≤ F.faults shelf.new }
{
    planned(alloc, script)?;
    answer_script(alloc, script, input, first, shelf, out)
}

// The answer over the lines of change files.
fn answer_script<F: Shelf, K: Sink>(
    alloc: Global,
    script: &Accepted,
    input: &Input,
    first: Option<u64>,
    shelf: &mut F,
    out: &mut K,
) -> Result<(), Halt>
    requires judged { IsJudged (accepted_view script.now) }
    ensures runs { Runs (F.holdings shelf.old) (λ h. over_input h (input_view input.now) script.now.inserted.sources (with_changes (accepted_view script.now) first)) (Rose (F.faults shelf.old) (F.faults shelf.new)) (Rose (K.faults out.old) (K.faults out.new)) (K.written out.old) (K.written out.new) (ending_of result) }
    ensures printable { IsPrintable (ending_of result) }
    ensures later { F.faults shelf.old ≤ F.faults shelf.new }
{
    let files = load_input(alloc, shelf, input, &script.inserted.sources)?;
    batch(alloc, script, first, files, out)
}
