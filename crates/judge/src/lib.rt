//! The judgement of a script, step by step, and its first step: what the script declares and asks for, or the first reason of the
//! text and the catalogue to refuse it, at its statement.
//!
//! Promised: `judge` answers `specs/Judgement`. Lemmas tell what the tables of a judged script keep to: each column has a type that
//! exists, each column of a key is there, and no table has more than 64 columns. It stands on the grammar (`sql_parse`) and on what
//! CREATE TABLE and SET mean (`ct_catalog`). Later steps take what it answers.
#![tactic(auto)]

mod asked;
mod statements;

pub use asked::{Asked, Insert, Inserts};
pub use statements::{JudgeFault, judge};
