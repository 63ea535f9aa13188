//! Reads selects: their items, sources, joins and clauses.
//!
//! Promised: `select_part` answers what its rule's reading gives, over any reader of the expressions and queries that stand within. It
//! stands on the shared readers of `sql_reading`.
#![tactic(auto)]

mod selects;

pub use selects::select_part;
