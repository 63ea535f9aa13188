//! The judgement of a script to its end: what its INSERT is bound to, or the first reason to refuse the script.
//!
//! Promised: `judged` answers the judgement of the definitions (`specs/Judgement`), which takes the text, the catalogue, the names of the
//! query and its algebra in this order. It stands on the judgement's first step (`judge`), on `binder` and on `rewrite`.
#![tactic(auto)]

mod accepted;
mod inserts;
mod judging;

pub use accepted::Accepted;
pub use judging::judged;
