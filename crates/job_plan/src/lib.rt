//! The plan of an accepted script, and its text, written.
//!
//! Promised: `planned` answers the plan of the definition (`specs/Planned`), as plans are seen; or it refuses the script at its
//! statement exactly where the definition does. The plan is sound, and its operators have rules. `explain` writes the plan's text
//! (`specs/Shown`), or a first part of it where the output fails or memory is wanting. Lemmas tell that two plans that differ in
//! nothing but where the parts of their expressions lie are inferred, refused, planned, shown and run alike, and that the plan that is
//! laid of what an accepted INSERT is bound to is one that the planner takes, for the tables and settings of any script. It stands on
//! the judgement of scripts, on the laws of queries, on the plans of trees and on the planner.
#![tactic(auto)]

mod explaining;
mod planning;

pub use explaining::explain;
pub use planning::planned;
