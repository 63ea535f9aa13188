//! How a run ends: its endings, each with the line that it writes and its exit status, and what it means that an ending has its
//! cause. It stands on printed rows (`job_text`) and on what sinks take (`ct_io`), and says nothing of scripts.
#![tactic(auto)]

mod ending;
mod halt;
mod reporting;

pub use ending::{Ending, LimitName, ending_line, status};
pub use halt::{Halt, ending_of};
pub use reporting::report;
