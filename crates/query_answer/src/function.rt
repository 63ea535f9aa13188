//! What the names of functions mean.

use rel_algebra::AggCall;

/// What a call's name means.
#[derive(Clone, Copy, Debug, PartialEq, Eq)]
pub enum Function {
    /// An aggregate function; COUNT is `Count`, whatever its arguments are.
    Aggregate(AggCall),
    Coalesce,
    NullIf,
    CharLength,
    RowNumber,
    /// A function whose answer changes from call to call.
    Changing,
    Unknown,
}
