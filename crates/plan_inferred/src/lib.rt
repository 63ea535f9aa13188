//! Whether a plan says what is inferred of it, and how an upsert sink takes its changes.
//!
//! Promised: `infer` answers the tables of `specs/Inferred`, and each test answers, for one node, the rule of `specs/Rules` that it
//! is named for: the keys that the node says, the kinds, updates and exchange of the edge that leaves it, and whether a sink may take
//! what comes to it. `way_of` answers the first way in which an upsert sink may take its changes that `specs/Ways` finds open,
//! `way_at` the same of a plan's node. Every table is made once for all nodes. Lemmas tell that, where each node stands behind its
//! inputs, the keys, kinds and update keys of the nodes are the one table in which each node's are made of its inputs'
//! (`specs/Local`), so a rule that looks at one node and its inputs says the same as the whole inference. It stands on the inference
//! of keys and modes.
#![tactic(auto)]

mod edges;
mod inferred;
mod keys;
mod sinks;
mod ways;

pub use edges::{has_kinds, has_update, is_exchanged};
pub use inferred::{Inferred, infer};
pub use keys::has_keys;
pub use sinks::{first_input, suits_sink, way_at};
pub use ways::{Way, way_of};
