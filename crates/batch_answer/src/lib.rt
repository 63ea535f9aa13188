//! The batch answer of a tree of the algebra, by a plain program over the rows of its tables.
//!
//! Promised: `answer_of` answers the rows that `rel_algebra` defines as the batch answer, and `Out` exactly where that is out of
//! range, or the answer of the tree or of one of its parts has 2^64 copies of a row or more. Each clause's function answers what the
//! clause makes of rows with their counts, and `Out` only where that is out of range or has 2^64 copies of a row or more: joins,
//! groups and partitions by key, through ordered maps, and ranks by one sort a partition. It stands on `rel_algebra`, whose columns
//! `rel_columns` answers.
#![tactic(auto)]

mod columns;
mod groups;
mod index;
mod joins;
mod matches;
mod nodes;
mod ranks;
mod rows;
mod sets;
mod sizes;
mod tables;
mod tally;
mod walk;

pub use groups::group_rows;
pub use index::{Counted, Index};
pub use joins::{inner_join, join_rows, semi_join};
pub use ranks::rank_rows;
pub use rows::{filter_rows, project_rows, union_rows};
pub use sets::set_rows;
pub use tables::{Bags, TypeLists};
pub use tally::Tally;
pub use walk::answer_of;
