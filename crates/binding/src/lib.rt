//! Binding: from a query on its tree to the algebra, or the first refusal that the walk of the tree meets.
//!
//! Promised: definitions alone. `specs/Expressions` binds expressions, `specs/InGroups` those of a grouped select, `specs/Queries`
//! clauses, selects and queries, and `specs/Inserts` an INSERT with its sink. It stands on the answer of queries, whose look-up of names
//! it shares, and on the algebra.
#![tactic(auto)]
