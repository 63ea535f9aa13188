//! When two trees are equal once names are resolved to columns and parentheses are left aside: their shapes are written as
//! numbers, and equal shapes are equal lists of them.
//!
//! Promised: `shape_code` writes the shape that `query_answer` gives a tree, and `place` finds the first of several trees whose
//! shape equals one, among their places by shape. It knows no binding.
#![tactic(auto)]

mod code;
mod lookup;

pub use code::{Code, column_code, shape_code};
pub use lookup::{Key, Places, place, places_of};
