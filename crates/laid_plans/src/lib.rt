//! The plans that are laid of trees, with what is inferred of them.
//!
//! Promised: a plan of the right shape, types and exchanges, whose operators have rules, is sound once the keys, kinds and updates
//! that are inferred of it stand in it, where what comes to its sink suits the table (`specs/Inferred`). The plan that is laid of a
//! well-typed tree whose unions have two inputs or more, into a table of any mode whose columns suit the tree's, with or without a
//! materializer by the table's key before the sink, meets the rules of sound plans on shape, types and exchanges, and its operators
//! have rules (`specs/Shapes`). The algebra of the plan that is laid of a tree is the tree, whatever is inferred of it and whatever
//! stands before its sink (`specs/Erased`): the function stands for that theorem. The others are lemmas. It stands on the plans of
//! trees, on the check of plans and on what is inferred of them, and has no code.
#![tactic(auto)]

ghost use Rattle.laid_plans.specs.Erased.{LaidPlansAreErased};

/// The algebra of a plan that is laid of a tree, with what is inferred of it, is the tree.
pub fn laid_plans_are_erased()
    ensures { LaidPlansAreErased }
{}
