//! What the words ask for.
ghost use Rattle.std.specs.Prelude.{◌≡◌, ◌⊎◌, ℕ, List, Some, None};
ghost use Rattle.ct_value.specs.declared.row.Row.{Row};
ghost use Rattle.ct_value.specs.declared.ty.ColTy.{ColTy};
ghost use Rattle.command_line.specs.Words.{request_of};
ghost use Rattle.ct_io.specs.Counts.{Rose};
ghost use Rattle.ct_io.specs.Holdings.{Holdings};
ghost use Rattle.job_ending.specs.Endings.{IsPrintable};
ghost use Rattle.job_ending.specs.Runs.{Runs};
ghost use Rattle.job_run.specs.Answers.{AreAnswers, Wrote};
ghost use Rattle.job_run.specs.Complete.{HasNoArithmetic};
ghost use Rattle.job_run.specs.Edges.{AreCarried};
ghost use Rattle.job_run.specs.Headline.{IsHeadline};
ghost use Rattle.job_run.specs.Outcome.{outcome};

use crate::batches::batch_names;
use crate::changelogs::run_names;
use crate::explains::explain_name;
use crate::sums::load_lines;
use command_line::{Request, WordsFault, request_of};
use ct_io::{Shelf, Sink};
use ct_value::Text;
use job_ending::{Ending, ending_of};
use std::alloc::Global;

/// Does what the words ask for, from the words to the last written line. It writes no line of its ending.
pub fn run<F: Shelf, K: Sink>(alloc: Global, words: &[Text], shelf: &mut F, out: &mut K) -> Ending
    ensures runs { Runs (F.holdings shelf.old) (outcome words.now) (Rose (F.faults shelf.old) (F.faults shelf.new)) (Rose (K.faults out.old) (K.faults out.new)) (K.written out.old) (K.written out.new) result }
    ensures printable { IsPrintable result }
    ensures usage { result ≡ Ending.Usage → request_of words.now ≡ None }
    ensures wrong_use { request_of words.now ≡ None → (result ≡ Ending.Usage) ⊎ (result ≡ Ending.Memory) }
    ensures answers { (h : Holdings) → F.holdings shelf.old ≡ Some h → Wrote (K.written out.old) (K.written out.new) (AreAnswers words.now h) }
    ensures edges { (h : Holdings) → F.holdings shelf.old ≡ Some h → Wrote (K.written out.old) (K.written out.new) (AreCarried words.now h) }
    ensures headline { result ≡ Ending.Done → (h : Holdings) → F.holdings shelf.old ≡ Some h → IsHeadline words.now h (outcome words.now h).bytes }
    ensures range { (h : Holdings) → F.holdings shelf.old ≡ Some h → HasNoArithmetic words.now h → (node subtask : ℕ) (row : Row) (columns : List ColTy) → result ≡ Ending.Range node subtask row columns → ⊥ }
{
    run_asked(alloc, words, shelf, out)
}

// The job that the words ask for.
fn run_asked<F: Shelf, K: Sink>(alloc: Global, words: &[Text], shelf: &mut F, out: &mut K) -> Ending
    ensures runs { Runs (F.holdings shelf.old) (outcome words.now) (Rose (F.faults shelf.old) (F.faults shelf.new)) (Rose (K.faults out.old) (K.faults out.new)) (K.written out.old) (K.written out.new) result }
    ensures printable { IsPrintable result }
    ensures usage { result ≡ Ending.Usage → request_of words.now ≡ None }
    ensures wrong_use { request_of words.now ≡ None → (result ≡ Ending.Usage) ⊎ (result ≡ Ending.Memory) }
{
    match request_of(alloc, words) {
        Ok(Request::Run { names, order }) => {
            ending_of(run_names(alloc, &names, &order, shelf, out))
        }
        Ok(Request::Batch { names, first }) => {
            ending_of(batch_names(alloc, &names, first, shelf, out))
        }
        Ok(Request::Explain(name)) => ending_of(explain_name(alloc, &name, shelf, out)),
        Ok(Request::Load { seed, lines }) => ending_of(load_lines(alloc, seed, lines, out)),
        Err(WordsFault::Usage) => Ending::Usage,
        Err(WordsFault::Memory) => Ending::Memory,
    }
}
