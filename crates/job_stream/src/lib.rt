//! A run over a plan, change files and an order, to its last line.
//!
//! Promised: `stream` ends as the machine's run over the plan, the files and the order does, and writes what that has printed
//! (`specs/Stream`); `stream_within` does so under another limit on the changes sent. What a step printed is written right behind it.
//! Without an order moves are made early, and what they print is kept (`specs/Early`), which leads to the same state. Each function within
//! goes along a part of the run (`specs/Parts`), from a place where its session stands to one where the next stands, or halts as that part
//! does (`specs/Writing`). It stands on how jobs open, on sessions, on lines that are read, and on printed lines.
#![tactic(auto)]

mod drains;
mod early;
mod lines;
mod orders;
mod sheet;
mod steps;
mod streaming;
mod takes;

pub use streaming::{stream, stream_within};
