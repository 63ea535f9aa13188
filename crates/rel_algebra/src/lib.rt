//! The relational algebra: its trees, the clauses of a query, and the batch answers of trees.
//!
//! Promised: definitions, and lemmas over them. Each clause (filter, project, union, set operations, joins, grouping, aggregates, Top-N) is a
//! function from bags, and from what its expressions are at a row, to a bag or out of range. `specs/Types` says which trees are
//! well-typed, `specs/Answer` what their batch answers are, one clause for each node. Lemmas tell what each clause is of a sum of
//! bags, that an answer's rows have the tree's columns, and that the count of groups in `specs/GroupedCounts` is the clause of
//! grouping. It stands on values, bags and expressions.
#![tactic(auto)]

mod agg;
mod join;
mod rel;
mod sets;
mod sort;

pub use agg::{Agg, AggCall, Aggs};
pub use join::{JoinKind, Pair, Pairs};
pub use rel::{Rel, Rels};
pub use sets::{SetKind, set_column, set_copies, set_kind};
pub use sort::{SortCol, Sorts};
