//! The answer of a query, told on its tree with its names: what SQL means, clause by clause.
//!
//! Promised: definitions alone. `specs/Table` is the table of expressions on what operands are, `specs/Names` tells what names stand
//! for, `specs/Shapes` when two trees are equal once names are resolved, `specs/Stands` what a tree stands for, `specs/Answer` the
//! answer of a query. It stands on the clauses of queries, and knows neither binding nor the algebra.
#![tactic(auto)]

mod function;
mod scope;

pub use function::Function;
pub use scope::{Found, Scope, ScopeColumn};
