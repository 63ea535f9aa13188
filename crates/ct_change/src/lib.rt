//! Changes of a table, lists of them, bags of rows, and the modes in which changes are written.
//!
//! Promised: what rows a list of changes leaves in append, retract and upsert mode and which lists are valid (`specs/Changelog`);
//! what goes and what comes by a change, and which changes replace a row by another (`specs/Emission`); the row by which an upsert
//! changelog tells that a row went (`specs/KeyRows`); a `Bag` is the bag of the rows put in it; and what `ChangeMode`, `InMode` and `OutMode` say of every mode, from which, with the lemmas of `proofs/laws`,
//! operators are proved. It stands on the order of rows and the bags of `ct_value`.
#![tactic(auto)]

mod append;
mod bag;
mod change;
mod key_rows;
mod kind;
mod last_rows;
mod mode;
mod promises;
mod retract;
mod steps;
mod update;
mod upsert;

pub use append::Append;
pub use bag::{Bag, BagRows};
pub use change::{Change, Changes, Diff};
pub use key_rows::{among, key_row};
pub use kind::{Declared, Kind, KindSet};
pub use last_rows::LastRows;
pub use mode::{ChangeMode, InMode, OutMode};
pub use promises::valid_changelog_means_its_fold;
pub use retract::Retract;
pub use steps::Steps;
pub use update::Update;
pub use upsert::UpsertBy;
