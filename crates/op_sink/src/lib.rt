//! The writer of a sink, and the materializer that stands before it where the sink's key may have several rows for a moment.
//!
//! Promised: `SinkWriter` is an `Operator` by its rule of `emission_rules`, whose changes are those printed, and `Materialize` by its,
//! which shows the last of the rows that stand under each key.
#![tactic(auto)]

mod materialize;
mod standing;
mod writer;

pub use materialize::Materialize;
pub use writer::SinkWriter;
