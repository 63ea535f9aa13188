//! The batch answer of a script over the first lines of its change files.
//!
//! Promised: `batch` ends as `specs/Batch` says, and writes the rows of the query's answer on its tree, over the tables that the first lines
//! leave, in the order of rows, each copy by itself; `batch_over` writes them over rows that are known. It stands on the judgement of
//! scripts, the lines taken and the answer of the algebra.
#![tactic(auto)]

mod answers;
mod lines;
mod writing;

pub use writing::{batch, batch_over};
