//! What is bound of queries within a query: the conjuncts of a WHERE, with those of an EXISTS's subquery that look outside and what a
//! subquery's rows are to match; and select lists with a rank: PARTITION BY, ORDER BY and the items over the columns of the sources,
//! and the first rows of each partition.
//!
//! Promised: each call answers what the definition of `binding` says of a conjunct or of the form Top-N, or its refusal. It stands on
//! bound clauses, and knows no queries: what a subquery, FROM and WHERE are bound to comes from above.
#![tactic(auto)]

mod first;
mod list;
mod matched;
mod part;
mod places;
mod plain;
mod sole;
mod split;

pub use first::{first_ranked, unbounded};
pub use list::{RankedList, ranked_list};
pub use matched::{exists_part, kept, member_part, own_value};
pub use part::{Outside, Part, Parts, alone, tests};
pub use plain::plain_part;
pub use sole::{Framed, bounded};
