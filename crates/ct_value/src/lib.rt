//! Values and what is made of them: texts, bytes, rows, lists; the order of rows; bags of rows as definitions see them; and
//! the codes of refusals.
//!
//! Promised: each type is seen by contracts as the list or value that it holds, and each call answers what it says of that
//! list; the order of rows is total and tells all rows apart (`specs/Order`), and equal rows are fed alike to a hasher
//! (`specs/Hashed`); a bag is known by its copies (`specs/Bag`). It stands on std alone.
#![tactic(auto)]

mod abbreviation;
mod boxed;
mod bytes;
mod codes;
mod dup;
mod each;
mod list;
mod memory;
mod row;
mod text;
mod ty;
mod value;

pub use boxed::Boxed;
pub use bytes::Bytes;
pub use codes::{ChangeCode, OrderCode, ScriptCode};
pub use dup::Dup;
pub use list::List;
pub use memory::{Memory, beside};
pub use row::{Cols, Numbers, Row, Values};
pub use text::{Text, TextFault};
pub use ty::{ColTy, ColTys, Ty};
pub use value::{CompareOp, Value};
