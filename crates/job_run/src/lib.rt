//! One job, from its words to its last written line: it loads, judges and plans the script, loads the change files and the order, and
//! hands them on to the run of the plan or to the batch answer; or it writes the plan, or the sums over a run on lines that are made. Its
//! definitions say what a job on words and files answers and writes (`specs/Outcome`), what a job that ends well has written
//! (`specs/Headline`), and what it needs for that (`specs/Complete`).
#![tactic(auto)]

mod batches;
mod changelogs;
mod explains;
mod files;
mod kept;
mod load;
mod log;
mod requests;
mod running_sums;
mod summaries;
mod summing;
mod sums;

pub use requests::run;
