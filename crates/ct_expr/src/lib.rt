//! Expressions over the columns of a row: their types, and their values in three-valued logic.
//!
//! Promised: `type_of` answers the type that the table of expressions gives, or none exactly where it gives none, and `eval` answers
//! the value of the definition at every row, or `Out` exactly where that is out of range, for every expression, also one without a
//! type. Each column function answers one line of the table of types; `Expr::dup` answers an equal tree. `specs/Types` and
//! `specs/Values` are the table, a function a line. Definitions see the code's expressions by `specs/View`; `specs/Views` makes one
//! of the code's of each of theirs. It stands on values and fields.
#![tactic(auto)]

mod cast;
mod dup;
mod evaluate;
mod expr;
mod found;
mod like;
mod types;
mod values;

pub use dup::dup_exprs;
pub use evaluate::{EvalFault, eval};
pub use expr::{ArithOp, Expr, Exprs, When, Whens};
pub use types::{
    arith_col, case_col, cast_col, char_length_col, coalesce_col, common_ty, compare_col,
    is_truths, literal_col, logic_col, null_if_col, null_test_col, number_col, same_ty, texts_col,
    truth_col, type_of,
};
