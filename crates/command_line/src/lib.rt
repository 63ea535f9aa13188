//! The command line: what the words after the program's name ask for.
//!
//! Promised: what is asked for exactly where the command's definition (`specs/Words`) finds no fault in the words, each needed
//! option is there and no other is, and a wrong use exactly elsewhere. It stands on the library `clap`.
#![tactic(auto)]

mod command;
mod words;

pub use words::{FileNames, Input, Request, WordsFault, request_of};
