//! The changes of sources, taken one after another, and the lines of change files that bring them.
//!
//! Promised: a change is refused exactly where the machine's table refuses it after those taken before (`specs/Kept`), and the bag of
//! a `SourceFold` is the fold of the changes taken (`specs/Folding`). `SourceChecks` keeps no more of them than their checks need.
//! `bags_of` answers the rows that the first so many lines of change files, taken file by file, leave in each source, or the first line
//! that is refused, by its number and its file's table (`specs/Taken`, `specs/Supply`); a `FeedFold` takes the file of the first source part by
//! part (`specs/Feeds`); `read_files` gives the readers of files. Lemmas tell that lines that aren't refused, and the rows that they
//! leave, have their tables' columns, and that lines of several files taken in any order are taken as file by file. `specs/Run` says how
//! a run over change files and an order goes. Rows are found by key or by themselves, in a tree. It stands on the lines of `job_text`, on
//! declared tables and on the machine's definitions.
#![tactic(auto)]

mod bags;
mod checks;
mod fault;
mod feed_fold;
mod folds;
mod kept;
mod keyed_rows;
mod refusals;
mod supply;
mod take;

pub use bags::{Bags, bags_of};
pub use checks::SourceChecks;
pub use fault::TakeFault;
pub use feed_fold::FeedFold;
pub use folds::SourceFold;
pub use refusals::SourceFault;
pub use supply::{ChangeFiles, read_files};
