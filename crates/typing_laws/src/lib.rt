//! What is known of well-typed expressions and trees of the algebra.
//!
//! Promised, for every expression that has a type over the columns of a row: it is there a value of that type, or NULL where the type
//! says that NULL may come, or out of range (`specs/Meaning`); it reads no column but the row's, and its value rests on the columns
//! that it reads alone (`specs/Reads`). Over tables whose rows have their columns, the rows of the answer of every well-typed tree
//! have the tree's columns, types and NULLs; each column of a well-typed tree has a type that exists, where the columns of the tables
//! have. It stands on the definitions of fields, expressions and the algebra, and has no code.
#![tactic(auto)]

mod of_answers;
mod of_expressions;

pub use of_answers::answers_fit;
pub use of_expressions::values_are_of_their_column;
