//! The rules of two-phase aggregation, with their facts.
//!
//! Promised, by definitions and lemmas: what a local group emits for a piece, for each of its groups one partial row of what the group's
//! changes come and gone amount to (`specs/LocalGrouping`), and that it meets the facts of nodes in however many subtasks it runs: each
//! prefix of what it sent stands for rows of its input (`specs/LocalFits`, `proofs/laws/LocalFacts`), in each group for those that
//! some first pieces leave (`specs/LocalPrefixes`); what a merging group emits for
//! partial rows (`specs/Merging`), and that it meets the facts of nodes with the batch answer of the group in one phase
//! (`specs/MergeFits`, `proofs/laws/MergeFacts`). It stands on the partials of `agg_fns` and on the rule of groups of `emission_rules`,
//! and has no code.
#![tactic(auto)]
