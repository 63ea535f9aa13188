//! One subtask of a node: its operator, and the bundle in which changes wait for it.
//!
//! Promised: a subtask that stands for what it folded and for what its bundle holds stands for one change more behind `take`, which
//! hands the bundle to the operator as one piece where it is full then, and for the same changes, folded, behind `flush`; what is
//! emitted is what the rule emits. It stands on the trait of operators and on the machine's network.
#![tactic(auto)]

mod emitted;
mod folding;
mod subtask;

pub use emitted::Emitted;
pub use subtask::Subtask;
