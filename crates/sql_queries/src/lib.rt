//! Reads queries: terms of selects with INTERSECT, UNION ALL and EXCEPT between them, and the order and the limit behind them.
//!
//! Promised: `query` answers what its rule's reading gives, over any reader of the expressions and queries that stand within. It
//! stands on the shared readers of `sql_reading` and on the reader of selects of `sql_selects`.
#![tactic(auto)]

mod terms;

pub use terms::query;
