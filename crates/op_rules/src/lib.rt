//! How operators emit: rules as functions of all that came, the facts that hold of a node between its edges, and what an operator is.
//!
//! Promised: the records that a rule and its facts are (`specs/Rules`, `specs/Tasks`), and the traits `Operator` and
//! `PieceOperator`; that a change on which a subtask may rely may come to its rule is a lemma. The rules themselves, with their
//! facts, are `emission_rules`. It stands on the changelogs of `ct_change`.
#![tactic(auto)]

mod operator;

pub use operator::{OpFault, Operator, PieceOperator};
