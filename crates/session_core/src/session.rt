use crate::{Operators, Traffic, Wiring};
use session_subtasks::Emitted;

/// A job: its operators, the checks of its sources, what is in flight and printed, how it is wired, and what a subtask emitted last and
/// hasn't handed on.
#[derive(Drop)]
pub struct Session<O, S> {
    pub operators: Operators<O>,
    pub sources: Vec<S>,
    pub traffic: Traffic,
    pub wiring: Wiring,
    pub emitted: Emitted,
}

/// What a subtask keeps of a bundle: there is no such subtask, its node keeps none, or so many changes.
#[derive(Clone, Copy, Debug, PartialEq, Eq)]
pub enum Buffer {
    NoPlace,
    NoBuffer,
    Holds(u32),
}
