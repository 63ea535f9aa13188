//! The operator of a local group, the first of the two phases in which groups can be taken.
//!
//! Promised: `LocalGroup` is an `Operator` and a `PieceOperator` by the rule of local groups of `phase_rules`: for each group of a
//! piece it tells what its rows come and gone amount to. It keeps nothing between pieces. It stands on the local accumulators of
//! `agg_fns` and the bundles of `mini_batch`.
#![tactic(auto)]

mod amounts;
mod groups;
mod local;
mod tally;
mod telling;

pub use local::LocalGroup;
