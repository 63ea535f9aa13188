//! Runs over plans that calculate nothing. The function stands for a theorem, which is its contract.
ghost use Rattle.run_laws.specs.Runs.{RunsStayInRange};

/// A run over a sound plan that calculates nothing never stops by a value that leaves the range of its type.
pub fn runs_stay_in_range()
    ensures { RunsStayInRange }
{}
