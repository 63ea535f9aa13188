//! The operator of grouped aggregates.
//!
//! Promised: `Group` is an `Operator` by the rule of groups of `emission_rules`, for any mode of its input and of its output, with
//! all aggregates, with and without key columns. It is proved once, from the contracts and laws of the modes of `ct_change`. Of each
//! group that has rows it keeps a `Kept`, which stands for the group's rows; `take_turn` makes of it what a change does, and tells
//! the group's row before and after. It stands on the accumulators of `agg_fns`.
#![tactic(auto)]

mod counter;
mod fold;
mod group;
mod groups;
mod kept;
mod pieces;
mod turn;

pub use counter::Counter;
pub use group::Group;
pub use kept::Kept;
pub use turn::take_turn;
