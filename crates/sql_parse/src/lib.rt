//! Reads scripts: the statements of a text, or its first refusal.
//!
//! Promised: `parse_script` answers by what a text is as a script, and stands on the readers for its work and on the theorem of
//! `sql_grammar` for its promise. `sum` reads operands (primaries, signs, products and sums), and `expression` tests of sums, NOT, and
//! the chains of AND and OR: each over a reader of what stands within brackets, and each answers what its rule's reading gives, in one
//! clause. It stands on the shared readers of `sql_reading` and on the reader of queries of `sql_queries`.
#![tactic(auto)]

mod chain_nodes;
mod depth;
mod expressions;
mod operand_nodes;
mod operands;
mod script;

pub use expressions::expression;
pub use operands::{boxed_query, sum};
pub use script::{ParseFault, parse_script};
