//! The form Top-N: select lists with a rank, the bound that the select outside sets on it, and who reads the rank.
//!
//! Promised: each call answers what the definition of `query_answer` says of the form: which select has a rank, which of the conjuncts
//! outside bounds it, and whether anything else outside looks at it. It stands on names and on what select lists list, and binds
//! nothing.
#![tactic(auto)]

mod conjuncts;
mod kept;
mod literals;
mod places;
mod rank_entries;
mod rank_mentions;
mod ranked_lists;
mod source_columns;
mod top;

pub use conjuncts::{Conjunct, Conjuncts, push_conjuncts};
pub use kept::is_kept;
pub use rank_entries::ranked_entries;
pub use ranked_lists::{Ranked, ranked_query, ranked_select};
pub use top::{Top, top_of};
