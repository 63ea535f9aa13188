//! Worked examples of fields, expressions and changes. No code runs: each is proved by computing the definitions.
//!
//! Promised, by lemmas: each definition comes to the value that stands beside the example. Fields and expressions: spellings of each
//! type and texts that are none, numbers at 38 digits and at the ends of INT and BIGINT, three-valued logic, lazy forms, LIKE and
//! CAST. Changes: which kinds add, what is emitted for a replaced row, what goes and comes by a change, how a group tells its size,
//! and where a key is routed.
#![tactic(auto)]
