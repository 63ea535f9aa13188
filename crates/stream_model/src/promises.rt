//! What is known of the machine. Each function stands for a theorem, which is its contract.
ghost use Rattle.stream_model.specs.Drain.{RunsAreSafe, RunsDrain};
ghost use Rattle.stream_model.specs.Theorem.{Composes, PrintedFolds};

/// In every state of every run over a plan whose nodes meet their facts, each edge's changes are valid and of its kinds,
/// each subtask may rely on what it takes, and at every quiet moment what each node sent, and what was printed, is the
/// batch answer over the changes taken.
pub fn plans_compose()
    ensures { Composes }
{}

/// In every such state each prefix of what was printed is a valid changelog of the sink's mode, each removal of an upsert
/// changelog its key row, and at every quiet moment it folds to the batch answer.
pub fn printed_folds_to_answer()
    ensures { PrintedFolds }
{}

/// In every such state, and in all to which it leads, the front of each channel may be consumed, and no subtask consumed
/// more changes than were sent, nor were more sent than the limit.
pub fn runs_are_safe()
    ensures { RunsAreSafe }
{}

/// In every such state a drain leads to a quiet one, or stops where a node is out of range, by the limit or for want of
/// memory.
pub fn runs_drain()
    ensures { RunsDrain }
{}
