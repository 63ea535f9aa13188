//! State that is kept by key: bags of rows by key, and the last row of each key.
//!
//! Promised: a `KeyedBag` is a map from keys to the bags of their rows, in which no key without rows is kept. A join keeps one for
//! each side, by its key. The rows of a key are a `SmallBag`, which keeps a row that stands alone without a map. `LastRows` is the
//! map that `ct_change` keeps for an upsert changelog. The crate stands on the bags of `ct_change`.
#![tactic(auto)]

mod keyed_bag;
mod small_bag;

pub use ct_change::LastRows;
pub use keyed_bag::KeyedBag;
pub use small_bag::{SmallBag, SmallBagRows};
