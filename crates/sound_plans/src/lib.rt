//! What is known of sound plans.
//!
//! Promised: the network of every plan whose nodes meet the rules of sound plans, and whose operators have rules, is wired as the
//! composition theorem asks; each of its nodes has columns and meets its facts, each port takes what its edge carries, and each node
//! answers as its tree does; so each prefix of what a run over it printed is a valid changelog of the sink's mode, which at a quiet
//! moment folds to the sink's batch answer (`specs/Sound`); and in every state all holds that the composition theorem says
//! (`specs/States`). The functions stand for these theorems, the lemmas of `proofs/laws` for their parts: what a sound plan
//! says of a node, between what its inputs send and what it sends (`specs/Outputs`, `specs/Agrees`); sets of columns and families of
//! such sets, and the keys that are seen over an edge; and that each node that agrees fits between its edges as its rule asks
//! (`specs/RowFits`, `specs/JoinFits`). It stands on the check of plans, on what is inferred of them and on the rules of operators,
//! and has no code.
#![tactic(auto)]

mod promises;

pub use promises::{
    sound_plans_answer, sound_plans_hold, sound_plans_meet_facts, sound_plans_print,
};
