//! Readers that the whole parser shares: single words at the head of tokens, lists of any rule, lists of expressions, names of types,
//! and CREATE TABLE and SET.
//!
//! Promised: each call answers what its rule's reading gives (`sql_grammar`), said in one clause; one loop with one proof reads every
//! list. It stands on the definitions of the grammar.
#![tactic(auto)]

mod again;
mod definitions;
mod lists;
mod nested;
mod types;
mod words;

pub use again::{Again, Rule, led, listed, repeat};
pub use definitions::{create, set};
pub use lists::{order_by, trees};
pub use nested::Nested;
pub use types::type_name;
pub use words::{
    Read, Stop, after_keyword, after_symbol, beside, direction_word, flagged, join_word, keyword,
    name, name_word, negatable_word, number, primary_word, product_word, rest_word, set_word,
    sign_word, statement_word, sum_word, symbol, text,
};
