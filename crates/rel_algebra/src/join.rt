use ct_value::{Dup, List, Memory};

/// Which rows without a match a join keeps, padded with NULLs (Flink documentation, "Joins").
#[derive(Clone, Copy, Debug, PartialEq, Eq)]
pub enum JoinKind {
    /// None.
    Inner,
    /// Those of the left side.
    Left,
    /// Those of the right side.
    Right,
    /// Those of both sides.
    Full,
}

/// A column of the left side that has to equal a column of the right side. Columns are counted from 0 on each side.
#[derive(Clone, Copy, Debug, PartialEq, Eq)]
pub struct Pair {
    pub left: u32,
    pub right: u32,
}

impl Dup for Pair {
    fn dup(&self) -> Result<Pair, Memory> {
        Ok(*self)
    }
}

/// A list of pairs of columns.
pub type Pairs = List<Pair>;
