//! What is known of the rule of a group over every history. The function stands for a theorem, which is its contract.
ghost use Rattle.emission_rules.specs.GroupFits.{GroupsStand};

/// A group that takes a hash edge by its columns meets the facts of nodes, in however many subtasks it runs: all that it emits folds to
/// the batch answer of what it took, each prefix of it stands, with its kinds, columns and keys, and the parts add up.
pub fn groups_stand()
    ensures { GroupsStand }
{}
