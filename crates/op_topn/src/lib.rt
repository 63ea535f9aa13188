//! The operator of Top-N, and rows kept in rank order, from which the first ones are read without a sort.
//!
//! Promised: `TopN` is an `Operator` by the rule of Top-N of `emission_rules`, for any mode of its input and of its output that can
//! tell it. It is proved once, from the contracts and laws of the modes of `ct_change`. Of each partition that has rows it keeps all
//! of them, in rank order (`RankedRows`), so that a row that leaves the first ones is followed by the next. Keys compare as their
//! rows do in the rank order of `rel_algebra`; a `RankedRows` stands for a bag of rows, also after one copy more or less, and hands
//! out exactly the keys of the first ones in rank order, in one step each.
#![tactic(auto)]

mod compare;
mod key;
mod order;
mod partitions;
mod ranks;
mod rows;
mod telling;
mod topn;

pub use compare::rank_compare;
pub use key::RankKey;
pub use order::RankOrder;
pub use partitions::{Firsts, TopBy, turn_partition, turn_rows};
pub use rows::{RankedRows, rows_of};
pub use telling::tell;
pub use topn::TopN;
