//! Tokens, and how a text and its statements are cut into them.
//!
//! Promised: a text's tokens up to the first place where there is none, each the longest that can be read; where each statement
//! ends; and whether more than 32 parentheses and CASEs are open in it. It stands on values.
#![tactic(auto)]

mod statements;
mod token;
mod tokens;

pub use statements::{is_too_deep, split_statement};
pub use token::{Keyword, Symbol, Token};
pub use tokens::{Tokens, tokens_of};
