//! The plan of a script.
ghost use Rattle.ct_io.specs.Counts.{Rose};
ghost use Rattle.job_ending.specs.Endings.{IsPrintable};
ghost use Rattle.job_ending.specs.Runs.{Runs, RunsThere, ending_of};
ghost use Rattle.job_judgement.specs.Judged.{IsJudged};
ghost use Rattle.job_judgement.specs.Views.{accepted_view};
ghost use Rattle.job_run.specs.Outcome.{explain_script, with_script};

use crate::load::load_script;
use ct_io::{Shelf, Sink};
use ct_value::Text;
use job_ending::Halt;
use job_judgement::Accepted;
use job_plan::{explain, planned};
use std::alloc::Global;

/// Writes the plan of the script of this name.
pub fn explain_name<F: Shelf, K: Sink>(
    alloc: Global,
    name: &Text,
    shelf: &mut F,
    out: &mut K,
) -> Result<(), Halt>
    ensures runs { Runs (F.holdings shelf.old) (λ h. with_script h name.now explain_script) (Rose (F.faults shelf.old) (F.faults shelf.new)) (Rose (K.faults out.old) (K.faults out.new)) (K.written out.old) (K.written out.new) (ending_of result) }
    ensures printable { IsPrintable (ending_of result) }
{
    let script = load_script(alloc, shelf, name)?;
    explain_script(alloc, &script, out)
}

fn explain_script<K: Sink>(alloc: Global, script: &Accepted, out: &mut K) -> Result<(), Halt>
    requires judged { IsJudged (accepted_view script.now) }
    ensures runs { RunsThere (explain_script (accepted_view script.now)) (Rose (K.faults out.old) (K.faults out.new)) (K.written out.old) (K.written out.new) result }
    ensures printable { IsPrintable (ending_of result) }
{
    let checked = planned(alloc, script)?;
    explain(alloc, checked.plan(), out)
}
