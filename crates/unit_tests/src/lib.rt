//! Tests that memory suffices where there is enough of it, each call once: values, texts and codes, fields, files and a sink in memory;
//! the parser, also in time for the longest scripts, and the catalogue; what operators keep, bundles, modes, and a materializer under one
//! key of which many rows stand. What the calls answer is in their contracts; that the definitions say what they should is shown by
//! `value_examples`, `text_examples` and `run_examples`; expressions, lines of change files, orders and histories of all operators are tried
//! by runs of the program (`tests/runs`).
#![tactic(auto)]

#[cfg(test)]
mod bundles;
#[cfg(test)]
mod declaring;
#[cfg(test)]
mod fields;
#[cfg(test)]
mod longest;
#[cfg(test)]
mod materializer;
#[cfg(test)]
mod modes;
#[cfg(test)]
mod outside;
#[cfg(test)]
mod reading;
#[cfg(test)]
mod rows;
#[cfg(test)]
mod state;
#[cfg(test)]
mod values;
