//! Clauses of a select are bound: FROM a table, conditions as one, a select list without groups, its Project, DISTINCT; and terms of a
//! query are put together.
//!
//! Promised: each call answers what the definition of `binding` says of the clause, or its refusal. It stands on bound
//! expressions, and knows neither groups nor whole queries.
#![tactic(auto)]

mod calls;
mod from;
mod lists;
mod plain;
mod relation;
mod selects;
mod sets;

pub use calls::{is_grouped, item_calls, select_calls};
pub use from::{all_of, read, renamed};
pub use lists::{few, finished, projected};
pub use plain::{each_listed, list_plain, plain_select};
pub use relation::Relation;
pub use selects::once;
pub use sets::{Run, begun, by_word, closed, operated};
