//! Worked examples of texts: scripts and their trees, what scripts declare and set, and change files. No code runs: each is proved by
//! computing the definitions.
//!
//! Promised, by lemmas: each entry of the tables in `specs` holds of `read_text`, which the grammar's theorem ties to what a text is
//! as a script; of `asked_of`, which `judge` answers; and of the lines of a change file (ends of records, quotes, the byte order
//! mark, fields, and records that are refused).
#![tactic(auto)]
