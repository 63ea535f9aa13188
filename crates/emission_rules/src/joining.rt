//! What is known of joins between their edges. The function stands for a theorem, which is its contract.
ghost use Rattle.emission_rules.specs.JoinFits.{JoinsStand, JoinsTake};

/// A join between edges that suit it meets the facts of nodes, in however many subtasks it runs, over edges of bags and over
/// after-only edges: all that it emits folds to the batch answer of what it took, each prefix of it stands, with its kinds, columns
/// and keys, and the parts add up. What its edges carry may come to its ports.
pub fn joins_stand()
    ensures facts { JoinsStand }
    ensures takes { JoinsTake }
{}
