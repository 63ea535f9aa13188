//! The operators on single rows: filter, project, union, and the normalizer of upsert tables.
//!
//! Promised: each is an `Operator` by its rule of `emission_rules`. A row that passes unchanged is moved, not copied. They stand on
//! the values of expressions and on the laws of changelogs.
#![tactic(auto)]

mod filter;
mod gone;
mod normalize;
mod project;
mod union;

pub use filter::FilterOp;
pub use normalize::NormalizeOp;
pub use project::ProjectOp;
pub use union::UnionOp;
