//! The operator of set operations: INTERSECT and EXCEPT, with ALL or without.
//!
//! Promised: `SetOp` is an `Operator` by the rule of set operations of `emission_rules`. It stands on the bags of `ct_change`.
#![tactic(auto)]

mod set_op;

pub use set_op::SetOp;
