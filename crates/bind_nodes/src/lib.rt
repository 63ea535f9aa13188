//! An expression over columns for each node of a tree, made of the expressions of its operands, where the table of expressions
//! gives it a type.
//!
//! Promised: each call answers what the definition of `binding` says of the node, or its refusal. It stands on expressions and
//! their types, and knows no trees.
#![tactic(auto)]

mod bound;
mod calls;
mod cases;
mod nodes;
mod size;

pub use bound::{Bound, Bounds, columns_are_truths, operands};
pub use calls::{CallForm, call, is_count};
pub use cases::{Branch, Branches, case, cast_to};
pub use nodes::{
    added, between, column, compare, conjunction, disjunction, found_column, in_list, like,
    literal, multiplied, negated_if, negation, null_test, number, signed,
};
