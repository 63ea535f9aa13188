//! Plans: nodes, the edges that leave them, what is known of both, and a plan as text.
//!
//! Promised: the types of plans, with all that a plan may have. `specs/Reading` says what the nodes of a plan have by what their
//! inputs have, read from the inputs up; `specs/Columns` of which columns operators speak; each call answers what these define.
//! `explain_text` answers the lines that `specs/Explained` defines, one for each node: its number, what it does, its inputs, where
//! its changes go and which kinds they have. It stands on expressions, on the algebra and on the catalogue's tables.
#![tactic(auto)]

mod columns;
mod edge;
mod exchanges;
mod explain;
mod node;
mod numbers;
mod plan;
mod texts;

pub use columns::{left_columns, plain_columns, right_columns};
pub use edge::{Edge, Edges, Exchange};
pub use explain::explain_text;
pub use node::{KeyInfo, Keys, Node, Nodes, Op, PairLists};
pub use numbers::numbered;
pub use plan::{Plan, Rule};
