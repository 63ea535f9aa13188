//! What is planned is sound. The function stands for a theorem, which is its contract.
ghost use Rattle.planner.specs.Planned.{PlannedPlansAreRuled};

/// What is planned of a plan as it is laid is sound, and its operators have rules.
pub fn planned_plans_are_ruled()
    ensures { PlannedPlansAreRuled }
{}
