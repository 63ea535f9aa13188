//! The keys of a plan's nodes.
//!
//! Promised: `infer_keys` answers for each node the three families that `specs/Keys` defines, read from the inputs up over the
//! exchanges of the plan's edges: the keys of each answer, those that hold at every moment in what one subtask sends, and the sets
//! that fix the subtask. It stands on sets of columns and on the types of plans.
#![tactic(auto)]

mod infer;
mod joins;
mod nodes;
mod seen;

pub use infer::{infer_keys, set_keys};
pub use joins::{Joining, join_keys};
pub use seen::{Seen, everywhere};
