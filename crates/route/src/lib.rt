//! How changes go from one subtask to another: in channels, and to which subtask.
//!
//! Promised: a `Channel` hands out what was sent through it, in order, and keeps only what is in flight; `key_text` is the text of a
//! row's key, and `subtask_of` the subtask of a text. It stands on the changes of `ct_change` and the field texts of `ct_field`.
#![tactic(auto)]

mod channel;
mod key;
mod subtask;

pub use channel::Channel;
pub use key::key_text;
pub use subtask::subtask_of;
