//! Results of aggregates over rows with their counts.
//!
//! Promised: `agg_result` answers the definition's value, or none exactly where that is out of range; its sums are exact, being made in
//! 256 bits, which no sum of fewer than 2^64 values with counts below 2^64 leaves. It stands on the definition of aggregates of
//! `rel_algebra`.
#![tactic(auto)]

mod aggregate;
mod distinct_values;
mod extremes;
mod results;
mod totals;
mod wide;

pub use aggregate::agg_result;
