//! Plans that were checked.
//!
//! Promised: `check_plan` accepts exactly the plans whose nodes all meet the seven rules that `specs/Sound` tells, and names the first
//! rule that a node breaks and the first such node; a `CheckedPlan` keeps to them. `infer_plan` answers all that is inferred of a
//! plan. It stands on `plan_shape`, on the columns of clauses and nodes, and on what is inferred of a plan.
#![tactic(auto)]

mod chains;
mod check;
mod checked;
mod edges;
mod known;
mod nodes;
mod operators;
mod sinks;

pub use check::{PlanFault, check_plan};
pub use checked::CheckedPlan;
pub use edges::edge_admits;
pub use known::infer_plan;
pub use sinks::keep_nulls;
