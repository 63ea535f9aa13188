//! What never leaves a type's range. Only sums, products, signs, casts, concatenations, SUM and AVG can lead out of it.
//!
//! Promised, by definitions (`specs/Arithmetic`, where these stand in a script; `specs/Tame`, which trees of the algebra have none)
//! and by lemmas: where none is written in a query, the tree that it is bound to only hands on, compares and counts values. A filter,
//! a project, a union, a normalizer, a materializer, a sink, a group, a join and a Top-N whose expressions and calls calculate nothing
//! are never out of range, over texts as short as a field's and fewer changes than a BIGINT counts, and they hand on short texts
//! (`specs/Ranges`). So are a local group, whose partial rows sum up no more changes than a bundle holds, and the group that merges
//! them.
//! It stands on the definitions of binding and of the emission rules, and has no code.
#![tactic(auto)]
