//! Queries and INSERTs are bound to the algebra.
//!
//! Promised: `bind` answers what the definitions (`specs/Bound`) say of the names of an INSERT, or its first refusal but that of a rank
//! without a bound; `bind_query` answers what the definition of `binding` says of a query, with free ranks or without. It stands on
//! bound clauses, groups, joins and subqueries.
#![tactic(auto)]

mod bound;
mod gathered;
mod inserts;
mod queries;
mod selected;
mod sinks;
mod spent;

pub use bound::{Bound, BoundQuery};
pub use inserts::bind;
pub use queries::bind_query;
