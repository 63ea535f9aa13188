//! What a select makes of several rows is bound: the joins of FROM, and GROUP BY.
//!
//! Promised: `joined` answers what the definition of `binding` says of two sources and their ON, or its refusal: a Join with its key
//! pairs and the rest of its condition; `kind_of` is the kind of join that a word tells. `grouped_select` answers what the definition
//! says of a grouped select, or its refusal: GROUP BY, HAVING, the list over the rows of groups, and the Group below them. It stands on
//! bound expressions and clauses, and knows no whole queries.
#![tactic(auto)]

mod calls;
mod lists;
mod on;
mod rel;
mod selects;
mod sides;
mod split;

pub use on::{joined, kind_of};
pub use selects::grouped_select;
