//! Worked histories of rules, worked runs of the machine, and worked plans. No code runs: each is proved by computing the
//! definitions.
//!
//! Promised, by lemmas: what each rule emits for each history is what stands beside it (NULL conditions, an update that a filter
//! splits, items out of range, two ports, an absent key, updates into an upsert sink; for joins, rows padded and matched, duplicates,
//! NULL in a key, updates, an after-only side, rows that are kept by whether they have a match, and a condition that is out of
//! range). `specs/RowsListed` and `specs/JoinsListed` compute what a rule emits on lists of rows, and a lemma says that this is what
//! the rule emits. The machine prints what the worked runs print, and refuses what they say, over networks of its own and over a
//! query's plan. The keys of the nodes of worked plans, the kinds that their edges carry, how these tell updates, and in which way an
//! upsert sink would take what their nodes send are those that stand beside them.
#![tactic(auto)]
