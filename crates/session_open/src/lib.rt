//! How a job opens: operators are made for a plan's nodes, a plan's wiring is laid out for look-ups, and the nodes send what they
//! open with.
//!
//! Promised: `open_job` answers a session that stands for the empty run of the plan's network, whatever its operators and in however
//! many subtasks, or stops exactly where the opening rows pass the limit. `AnyOperator` runs by the rule of the operator that it is,
//! and is made for each node of a plan whose operators are built by the rule of that node, each edge in its own mode: `AnyMode` is
//! any mode of an edge. Where inserts alone come, an operator keeps nothing for rows that might go. It stands on plans, on sessions
//! and on the operators.
#![tactic(auto)]

mod any;
mod bundles;
mod drain;
mod edges;
mod fault;
mod feeds;
mod inputs;
mod locals;
mod made;
mod making;
mod mode;
mod numbers;
mod opened;
mod opening;
mod routes;
mod sources;
mod tables;
mod types;
mod wires;
mod wiring;

pub use any::AnyOperator;
pub use fault::OpenFault;
pub use made::PlanOperator;
pub use mode::{AnyKept, AnyMode};
pub use opened::open_job;
pub use sources::PlanSource;
pub use wires::Wires;
