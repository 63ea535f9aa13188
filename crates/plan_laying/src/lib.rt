//! Nodes and exchanges, laid of a tree of the algebra.
//!
//! Promised: what `plan_of` answers is the plan of the tree (`plan_rules/specs/Pieces`): a
//! node for each node of the tree, each behind its inputs, a normalizer behind the scan of each upsert table, and the sink behind all;
//! each fault says what is so of the tree (`specs/Faults`). `with_materializer` answers a plan with a materializer before its sink
//! (`specs/Topped`). It stands on the algebra and on plans.
#![tactic(auto)]

mod laying;
mod laying_fault;
mod make;
mod materializer;
mod operators;
mod parts;
mod scan;
mod steps;
mod tree;
mod way;

pub use laying_fault::LayingFault;
pub use make::plan_of;
pub use materializer::with_materializer;
