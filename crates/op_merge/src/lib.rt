//! The second phase of two-phase aggregation: the operator that merges partial rows.
//!
//! Promised: `MergeGroup` is an `Operator` and a `PieceOperator` by the rule of merging groups of `phase_rules`, for
//! any mode of its output that tells rows that change and go. Of each group whose partial rows amount to something it
//! keeps a `Kept`, which stands for the partial rows that came (`specs/Kept`, `specs/Groups`). It stands on the merging
//! accumulators of `agg_fns`.
#![tactic(auto)]

mod group;
mod groups;
mod kept;
mod merger;
mod pieces;
mod turn;

pub use group::MergeGroup;
pub use kept::Kept;
pub use merger::Merger;
