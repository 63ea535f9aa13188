//! The machine of histories, which says what a job does, for any plan and any number of subtasks, and the theorem over
//! it. No code of the engine stands here.
#![tactic(auto)]

mod events;
mod promises;

pub use events::{Counts, Event, PrintItem, PrintList, StepFault, Stopped};
pub use promises::{plans_compose, printed_folds_to_answer, runs_are_safe, runs_drain};
