//! Accumulators of aggregates: those that follow values as they come and go, and those of the two phases in which values can also be
//! taken: the first tells what values come and gone amount to, and the second merges what it is told.
//!
//! Promised: an `Acc` that stands for a bag of values stands for that bag with a value more after `add`, with one less after `remove`
//! and with one in the place of another after `replace`, and its `result` is the value of its call on that bag (`specs/Standing`); a
//! sum is out of range exactly where it leaves its limit. A `LocalAcc` tells what values come and gone amount to (`specs/Partial`,
//! `specs/ComeAndGone`), and a `MergeAcc` what partials amount to together (`specs/MergedPartials`). `picked` is the value that a row
//! has for a call (`specs/Picked`). It stands on the definition of aggregates of `rel_algebra`.
#![tactic(auto)]

mod acc;
mod cells;
mod distinct;
mod kept;
mod local_acc;
mod merge_acc;
mod merged_numbers;
mod net;
mod net_numbers;
mod number;
mod numbers;
mod picking;
mod value_bag;

pub use acc::{Acc, AccFault};
pub use distinct::Distinct;
pub use local_acc::LocalAcc;
pub use merge_acc::MergeAcc;
pub use merged_numbers::MergedNumbers;
pub use net_numbers::NetNumbers;
pub use numbers::Numbers;
pub use picking::picked;
pub use value_bag::ValueBag;
