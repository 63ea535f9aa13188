//! Mini-batches: changes that a group holds back and folds key by key.
//!
//! Promised: a `Bundle` holds the changes of each key in order of arrival and hands the keys out in the order in which they were
//! first seen (`specs/Held`), also where the keys are the first values of rows (`specs/Groups`). It stands on the changes of `ct_change` and on `indexmap`.
#![tactic(auto)]

mod bundle;
mod first_values;
mod groups;

pub use bundle::Bundle;
