//! Sessions: what is kept in place of the machine's histories, for any plan and any operators.
//!
//! Promised: a session stands for every list of events whose machine state agrees with what it keeps; behind `step` and
//! `drain` it stands for the longer list, or they stop exactly where the machine stops, with its cause; what is printed
//! is handed out once. What is printed, in flight and counted (`Traffic`) agrees with a state of the machine after each
//! call, or stops as the machine does, and so does what the subtasks of all nodes hold (`Operators`). It stands on
//! subtasks, on channels and on the machine.
#![tactic(auto)]

mod operators;
mod printing;
mod relay;
mod session;
mod session_drain;
mod session_looks;
mod session_opened;
mod session_relay;
mod sessions;
mod source;
mod traffic;
mod traffic_quiet;
mod wiring;
mod wiring_looks;

pub use operators::Operators;
pub use relay::RelayOperator;
pub use session::{Buffer, Session};
pub use source::{SourceCheck, SourceFault};
pub use traffic::Traffic;
pub use wiring::{Feed, Lane, Stage, TableWiring, Wiring};
