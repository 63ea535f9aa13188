//! The outside, as traits: shelves that hold files and sinks that take output; shelves and sinks in memory; and text offered to a
//! sink.
//!
//! Promised: a shelf's `load` answers the bytes that it holds, and a sink's `put` takes a first part of what it is given; neither
//! fails unless its count of faults rose, or the file isn't there. Those in memory tell all that they hold and took, as long as there
//! is room. `put_all` offers a piece until all of it is taken, `put_copies` a line as often as it has copies; what was written when
//! the sink fails is a first part of that. It stands on values.
#![tactic(auto)]

mod calls;
mod files;
mod growing_sink;
mod mem_shelf;
mod mem_sink;
mod put;
mod shelf;
mod sink;
mod sure_shelf;
mod sure_sink;

pub use calls::Calls;
pub use files::Files;
pub use growing_sink::GrowingSink;
pub use mem_shelf::MemShelf;
pub use mem_sink::MemSink;
pub use put::{put_all, put_copies};
pub use shelf::{LoadFault, Shelf};
pub use sink::{PutFailed, Sink};
pub use sure_shelf::SureShelf;
pub use sure_sink::SureSink;
