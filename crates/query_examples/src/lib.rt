//! Worked examples of what queries are bound to and what they mean, and of the algebra. No code runs: each is proved by computing the
//! definitions.
//!
//! Promised, by lemmas: over the texts that spell them, queries have the refusals, columns, names, trees of the algebra, types and
//! values that stand beside them. The batch answer of each worked tree is the one beside it, worked by hand or as a database
//! documents it: NULL in joins, NOT IN beside NULL, aggregates of nothing, of NULL and of texts, averages, Top-N with equal rows, and
//! a query over three tables. `specs/Listed` computes the answer on lists, and a lemma says that this is the answer.
#![tactic(auto)]
