//! The files and the streams of the system.
//!
//! Promised: `FileShelf` and `Stream` are a shelf and a sink that count each failure. What files hold and what was written they don't tell.
//! It stands on the traits of a shelf and a sink.
#![tactic(auto)]

mod file_shelf;
mod stream;

pub use file_shelf::FileShelf;
pub use stream::Stream;
