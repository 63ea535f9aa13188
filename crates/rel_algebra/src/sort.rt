use ct_value::{Dup, List, Memory};

/// A column by which rows are ordered, counted from 0, and whether its order is turned round.
#[derive(Clone, Copy, Debug, PartialEq, Eq)]
pub struct SortCol {
    pub col: u32,
    pub desc: bool,
}

impl Dup for SortCol {
    fn dup(&self) -> Result<SortCol, Memory> {
        Ok(*self)
    }
}

/// The columns by which rows are ordered, the first one first.
pub type Sorts = List<SortCol>;
