//! Channels between subtasks: what is in flight, and which subtask a change goes to.
//!
//! Promised: a channel from each subtask to each for each edge (`Channels`) hands out what was sent through it in order; a change goes
//! where the machine says that the edge's exchange sends it (`goes_to`), and so do all that a subtask sends through an edge, or the
//! scans of a table through theirs (`send_all`, `scan_all`).
#![tactic(auto)]

mod channels;
mod exchange;
mod quiet;
mod routes;
mod sending;

pub use channels::Channels;
pub use exchange::{KeyRoute, Route};
pub use routes::goes_to;
pub use sending::{scan_all, send_all};
