//! What is known of the rule of Top-N over every history. The function stands for a theorem, which is its contract.
ghost use Rattle.emission_rules.specs.TopFits.{TopNStands};

/// A Top-N that takes a hash edge by its partition meets the facts of nodes, in however many subtasks it runs: all that it emits
/// folds to the first rows of each partition of what it took, each prefix of it stands, with its kinds, columns and keys, and the
/// parts add up.
pub fn topn_stands()
    ensures { TopNStands }
{}
