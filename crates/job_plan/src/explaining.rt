//! The text of a plan on the output.
ghost use Rattle.ct_io.specs.Counts.{Rose};
ghost use Rattle.job_ending.specs.Runs.{RunsThere};
ghost use Rattle.job_plan.specs.Shown.{shown};

use ct_io::{Sink, put_all};
use job_ending::Halt;
use phys_plan::{Plan, explain_text};
use std::alloc::Global;

/// Writes a plan, one line for each node (Flink documentation, "EXPLAIN Statements").
pub fn explain<K: Sink>(alloc: Global, plan: &Plan, out: &mut K) -> Result<(), Halt>
    ensures { RunsThere (shown plan.now) (Rose (K.faults out.old) (K.faults out.new)) (K.written out.old) (K.written out.new) result }
{
    let Ok(text) = explain_text(alloc, plan, 0) else {
        return Err(Halt::Memory);
    };
    match put_all(out, text.as_slice()) {
        Ok(()) => Ok(()),
        Err(_) => Err(Halt::WriteFault),
    }
}
