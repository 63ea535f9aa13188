//! Where a run over change files stops out of range. The function stands for a theorem, which is its contract.
ghost use Rattle.run_laws.specs.Stops.{RunsStopWhereOut};

/// A run over a sound plan that stops out of range does so where a subtask of a node is out of range.
pub fn runs_stop_where_out()
    ensures { RunsStopWhereOut }
{}
