//! Trees of expressions are bound: the first refusal of the walk, or an expression over the columns in reach, or in a grouped
//! select over the columns of the row of a group: the GROUP BY expressions, and then the aggregate calls.
//!
//! Promised: each call answers what the definition of `binding` says of the tree or of the column, or its refusal. It stands on the
//! nodes of `bind_nodes` and the shapes of `bind_shapes`, and knows no clauses of queries.
#![tactic(auto)]

mod calls;
mod conjuncts;
mod group;
mod keys;
mod reach;
mod walk;

pub use calls::{call_column, call_column_if, call_type, is_distinct};
pub use conjuncts::{
    bind_by, bind_conjuncts, bind_each, bind_in_group, bind_operands, bind_over, conditions,
};
pub use group::Group;
pub use keys::{group_of, has_no_keys, key_of, key_of_column, plus};
pub use reach::Reach;
pub use walk::{after, bind};
