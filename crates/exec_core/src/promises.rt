//! The function stands for a theorem, which is its contract.
ghost use Rattle.exec_core.specs.Opening.{PlansOpen};

/// A job of a sound plan whose operators have rules can be opened with the operators of its nodes and the columns that they send.
pub fn plans_open()
    ensures { PlansOpen }
{}
