//! The top call: one job, from its words to its ending. Its clauses speak of the outcome that the words and the files have
//! (`job_run`), of written bytes and faults (`ct_io`), and of endings (`job_ending`).
#![tactic(auto)]

ghost use Rattle.std.specs.Prelude.{◌≡◌, ◌⊎◌, ℕ, List, Some, None, false};
ghost use Rattle.ct_value.specs.declared.row.Row.{Row};
ghost use Rattle.ct_value.specs.declared.ty.ColTy.{ColTy};
ghost use Rattle.command_line.specs.Words.{request_of};
ghost use Rattle.ct_io.specs.Counts.{Rose};
ghost use Rattle.ct_io.specs.Holdings.{Holdings};
ghost use Rattle.ct_io.specs.Written.{Appends, AppendsPart};
ghost use Rattle.job_ending.specs.Endings.{ending_line};
ghost use Rattle.job_ending.specs.Runs.{is_free, IsCaused};
ghost use Rattle.job_run.specs.Answers.{AreAnswers, Wrote};
ghost use Rattle.job_run.specs.Complete.{HasNoArithmetic, MayEndWell};
ghost use Rattle.job_run.specs.Edges.{AreCarried};
ghost use Rattle.job_run.specs.Headline.{IsHeadline};
ghost use Rattle.job_run.specs.Outcome.{outcome};

use ct_io::{Shelf, Sink};
use ct_value::Text;
use job_ending::report;
pub use job_ending::{Ending, LimitName, status};
use job_run::run;
use std::alloc::Global;

/// Does the job that the words name: it loads the script, the change files and the order from the shelf, in this order, writes the
/// changelog of the sink on `out`, or the rows of the batch answer, each line by itself, and where it doesn't end well one line on `err`.
/// Or it loads the script alone and writes its plan.
///
/// The words are `--script NAME --changes NAME`, in any order, or `--feeds PREFIX` in place of `--changes NAME`, where each table that is
/// read has a change file of its own, named by the prefix, the table's name and `.csv`. `--order NAME` may stand there too: its lines say
/// when how many changes are taken, which channels are moved, and when the job is drained. `--do run` may be told, or `--do batch` and,
/// where only the first so many lines of the one change file count, `--first COUNT`. Those for a plan are `--script NAME --do explain`.
/// `--do load --seed NUMBER --lines COUNT` reads no file: it runs a script of its own over lines that it makes, and writes the line of
/// its sums.
pub fn run_job<F: Shelf, K: Sink, E: Sink>(
    alloc: Global,
    words: &[Text],
    shelf: &mut F,
    out: &mut K,
    err: &mut E,
) -> Ending
    // The ending is the outcome's, where it doesn't come from outside.
    ensures cause { IsCaused (F.holdings shelf.old) (outcome words.now) (Rose (F.faults shelf.old) (F.faults shelf.new)) (Rose (K.faults out.old) (K.faults out.new)) result }
    ensures usage { result ≡ Ending.Usage → request_of words.now ≡ None }
    ensures wrong_use { request_of words.now ≡ None → (result ≡ Ending.Usage) ⊎ (result ≡ Ending.Memory) }

    // Where neither the shelf nor `out` faults, the ending is the outcome's, or want of memory.
    ensures complete { (Rose (F.faults shelf.old) (F.faults shelf.new) → ⊥) → (Rose (K.faults out.old) (K.faults out.new) → ⊥) → (h : Holdings) → F.holdings shelf.old ≡ Some h → (result ≡ (outcome words.now h).ending) ⊎ (result ≡ Ending.Memory) }

    // So it ends well, or by want of memory, where nothing that it reads is refused.
    ensures ends_well { (Rose (F.faults shelf.old) (F.faults shelf.new) → ⊥) → (Rose (K.faults out.old) (K.faults out.new) → ⊥) → (h : Holdings) → F.holdings shelf.old ≡ Some h → MayEndWell words.now h → (result ≡ Ending.Done) ⊎ (result ≡ Ending.Memory) }

    // What is written is a first part of the outcome's bytes, and all of them where the ending doesn't come from outside.
    ensures part { (h : Holdings) → F.holdings shelf.old ≡ Some h → AppendsPart (K.written out.old) (K.written out.new) (outcome words.now h).bytes }
    ensures whole { is_free result ≡ false → (h : Holdings) → F.holdings shelf.old ≡ Some h → Appends (K.written out.old) (K.written out.new) (outcome words.now h).bytes }

    // Whatever the ending: a run has written the lines of items and a first part of one more, and before each quiet line they fold to the
    // query's answer over the tables that as many first lines of each change file leave as that line tells.
    ensures answers { (h : Holdings) → F.holdings shelf.old ≡ Some h → Wrote (K.written out.old) (K.written out.new) (AreAnswers words.now h) }

    // And they are what the script's sound plan printed on the machine, where every edge carried only the kinds of its mode.
    ensures edges { (h : Holdings) → F.holdings shelf.old ≡ Some h → Wrote (K.written out.old) (K.written out.new) (AreCarried words.now h) }

    // A run that ends well has written its answers to the last line of each change file, and a batch answer that ends well is the query's.
    ensures headline { result ≡ Ending.Done → (h : Holdings) → F.holdings shelf.old ≡ Some h → IsHeadline words.now h (outcome words.now h).bytes }

    // A run of a script without arithmetic never leaves a type's range.
    ensures range { (h : Holdings) → F.holdings shelf.old ≡ Some h → HasNoArithmetic words.now h → (node subtask : ℕ) (row : Row) (columns : List ColTy) → result ≡ Ending.Range node subtask row columns → ⊥ }

    // The ending's line is on `err`.
    ensures reported { (Rose (E.faults err.old) (E.faults err.new) → ⊥) → Appends (E.written err.old) (E.written err.new) (ending_line result) }
{
    let ending = run(alloc, words, shelf, out);
    report(alloc, ending, err)
}
