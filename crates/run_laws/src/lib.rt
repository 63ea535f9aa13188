//! What is known of runs over change files and an order, as the machine makes them.
//!
//! Promised: a run over a sound plan that answers what a tree does, however it goes and ends, has printed, before each quiet item, a
//! changelog whose fold by the mode of the sink's table is the tree's answer over as many first lines of each change file as the item
//! tells, and every edge carried only changes that it admits (`specs/Headline`); each row that a run prints, also one that halts, has the
//! columns that the sink sends, which may go into its table (`specs/Rows`), or of a delete by key the key's. A run that stops out of range
//! does so at a subtask of a node that is out of range, by what the node does, on changes on which that subtask may rely, and the row at
//! which it stops has the columns that the stop names, whose types exist; a run each of whose lines may be taken goes to its end, or halts
//! at a line of its order, out of range or by the limit (`specs/Stops`). A run over a sound plan that calculates nothing never stops out of
//! range, and the plan of a tree that calculates nothing is such a plan, with what is inferred of it (`specs/Runs`). Moves may be made
//! early, and lead to the same state (`specs/Early`). Three functions stand for the main theorems, which are their contracts; the rest are
//! lemmas. It stands on the machine, on the lines of change files and on what is known of sound plans, and has no code.
#![tactic(auto)]

mod stopped_runs;
mod tame_runs;

ghost use Rattle.run_laws.specs.Headline.{RunsPrintAnswers};

pub use stopped_runs::runs_stop_where_out;
pub use tame_runs::runs_stay_in_range;

/// In a run over a sound plan that answers what a tree does, what was printed before each quiet item is a valid changelog of the sink's
/// mode, as it is written, and folds by it to the tree's answer over the rows that as many first lines of each change file as the item
/// tells leave in each source.
pub fn runs_print_answers()
    ensures { RunsPrintAnswers }
{}
