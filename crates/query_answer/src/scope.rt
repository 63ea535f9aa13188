//! Columns in reach.

use ct_value::{ColTy, List, Text};

/// A column in reach of a select: the source that it is of and its own name, where they have one.
#[derive(Debug, Drop)]
pub struct ScopeColumn {
    pub source: Option<Text>,
    pub name: Option<Text>,
    pub ty: ColTy,
}

/// The columns in reach, side by side.
pub type Scope = List<ScopeColumn>;

/// What a name stands for: no column, the one at a place, counted from 0, or several.
#[derive(Clone, Copy, Debug, PartialEq, Eq)]
pub enum Found {
    Absent,
    At(u32, ColTy),
    Several,
}
