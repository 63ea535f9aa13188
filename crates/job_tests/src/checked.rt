// A plan that the planner made, and the check of plans.
use crate::scripts::{COUNT_ALL, COUNT_APPEND};
use crate::sent::plan_of;
use plan_check::check_plan;
use std::alloc::Global;

// Whether the check accepts the plan of a script, and keeps as much of it as the planner did.
fn is_accepted(alloc: Global, script: &str) -> bool {
    let Ok(planned) = plan_of(alloc, script) else {
        return false;
    };
    let kept = planned.inferred().columns.len();
    match check_plan(alloc, planned.into_plan()) {
        Ok(checked) => checked.inferred().columns.len() == kept,
        Err(_) => false,
    }
}

#[test]
fn the_check_accepts_what_is_planned(rt: HostRuntime) {
    assert!(rt; is_accepted(rt.alloc(), COUNT_APPEND));
    assert!(rt; is_accepted(rt.alloc(), COUNT_ALL));
}
