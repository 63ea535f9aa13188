//! A bound query is rewritten to the algebra.
//!
//! Promised: `to_rel` answers the algebra of a query whose names are bound (`specs/Rewritten`), and refuses it for a rank without a bound
//! alone: the walk in which names are bound has taken each other refusal. Both walks together are the definition of `binding`
//! (`two_walks` of `proofs/laws/Theorems`). It stands on `binder`.
#![tactic(auto)]

mod fault;
mod inserted;
mod walk;

pub use fault::RewriteFault;
pub use inserted::Inserted;
pub use walk::to_rel;
