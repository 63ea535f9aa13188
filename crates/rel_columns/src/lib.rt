//! The columns of the clauses of a query, from those of their inputs.
//!
//! Promised: each function answers the columns that `rel_algebra` defines for a clause, and none exactly where it isn't well-typed
//! over the columns of its input.
#![tactic(auto)]

mod calls;
mod common;
mod items;
mod sides;

pub use calls::group_columns;
pub use common::set_columns;
pub use items::{is_condition, item_columns};
pub use sides::{join_columns, rank_columns};
