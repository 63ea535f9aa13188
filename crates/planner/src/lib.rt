//! The planner: from what is laid of a tree of the algebra to a plan that is checked.
//!
//! Promised: `refusal` answers the first of the refusals that `specs/Refusals` tells, in the order in which they count: ties in a
//! Top-N, changes into an append table, an upsert table whose key isn't unique, NULL where it may not stand, a materializer that is
//! needed and off, and too many nodes. `plan` answers a checked plan, or exactly the first refusal: the plan is the one that is laid,
//! with a materializer before its sink where that takes what comes by one (`specs/Tops`), and with what is inferred of it so. That such
//! a plan is sound is proved, so it isn't checked. It stands on what is laid, on what is inferred of plans and on their check.
#![tactic(auto)]

mod fault;
mod planning;
mod promises;
mod refusals;
mod sinks;
mod sizes;
mod ties;

pub use fault::PlannerFault;
pub use plan_check::{CheckedPlan, PlanFault, check_plan};
pub use planning::plan;
pub use promises::planned_plans_are_ruled;
pub use refusals::refusal;
pub use sinks::{has_materializer, sink_way};
