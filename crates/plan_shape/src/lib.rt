//! The rule Shape of plans, and the columns that their nodes send.
//!
//! Promised: `is_whole` and `has_shape` answer whether a plan, and each of its nodes, have the shape that `specs/Shape` defines: the
//! tables, how many nodes, edges, subtasks and inputs there are, what feeds what, and under which nodes some operators stand.
//! `next_columns` answers the columns of a node, from those of the nodes before it, as `plan_rules` defines them: none where it isn't
//! well-typed or isn't built yet. It stands on the types of plans and on `rel_columns`, which answers the columns of a clause.
#![tactic(auto)]

mod consumers;
mod input_columns;
mod inputs;
mod joins;
mod node_columns;
mod nodes;
mod ranks;
mod tables;

pub use input_columns::{NodeColumns, numbered_columns, only_input, same_columns};
pub use inputs::have_parts;
pub use joins::pairs_fit;
pub use node_columns::next_columns;
pub use nodes::{has_shape, is_whole};
pub use ranks::are_columns;
