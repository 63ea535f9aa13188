//! The emission rules, with their facts.
//!
//! Promised: what a filter, a project, a union, a set operation, a normalizer, a materializer, a sink's writer, a group, a join of
//! any kind and a Top-N emit (`specs`, a file a rule, and a file of what the node needs of its edges), and that each, between edges
//! that suit it, meets the facts of nodes in however many subtasks it runs: lemmas in `proofs/laws`, for groups, joins and Top-N
//! also contracts. The rule of a group is a function of the rows of each group before what comes and after each change of it; that
//! of joins, of the rows of both sides before a change and of what goes and comes by it; that of Top-N compares the first rows of a
//! change's partition before and after it, rank by rank where the rank is a column or there is one alone, else as what left and
//! what entered; that of a materializer compares the last row that stands under a change's key before and after it; that of a set
//! operation, how many copies of a change's row it leaves. It stands on the clauses of `rel_algebra`, and on the records of
//! `op_rules`.
#![tactic(auto)]

mod grouping;
mod joining;
mod ranking;

pub use grouping::groups_stand;
pub use joining::joins_stand;
pub use ranking::topn_stands;
