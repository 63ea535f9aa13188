use ct_value::{Dup, List, Memory};

/// An aggregate function (Flink documentation, "Group Aggregation").
#[derive(Clone, Copy, Debug, PartialEq, Eq)]
pub enum AggCall {
    /// `COUNT(*)`, the number of rows.
    CountAll,
    Count,
    CountDistinct,
    Sum,
    Min,
    Max,
    Avg,
}

/// A call of an aggregate function: `arg` is the input column whose values it takes, none for `COUNT(*)`,
/// and `filter` the input column that has to be TRUE for a row to count. Columns are counted from 0.
#[derive(Clone, Copy, Debug, PartialEq, Eq)]
pub struct Agg {
    pub call: AggCall,
    pub arg: Option<u32>,
    pub filter: Option<u32>,
}

impl Dup for Agg {
    fn dup(&self) -> Result<Agg, Memory> {
        Ok(*self)
    }
}

/// A list of aggregate calls.
pub type Aggs = List<Agg>;
