//! What the first token says where several rules may follow.
use ct_value::{CompareOp, Text};

/// What the first token of a primary says.
#[derive(Drop)]
pub enum PrimaryWord {
    /// A number, as it was written.
    Number(Text),
    /// A text, without its quotes.
    Str(Text),
    /// TRUE or FALSE.
    Truth(bool),
    /// NULL.
    Null,
    /// A name, and whether it stood in backticks.
    Name(Text, bool),
    /// CAST.
    Cast,
    /// An opening bracket.
    Bracket,
    /// CASE.
    Case,
}

/// The word of a test before which NOT may stand.
#[derive(Clone, Copy)]
pub enum NegatableWord {
    Between,
    In,
    Like,
}

/// What the first token of the rest of a test says.
#[derive(Clone, Copy)]
pub enum RestWord {
    /// The sign of a comparison.
    Compare(CompareOp),
    /// IS.
    Is,
    /// NOT, behind which one of the words of `NegatableWord` has to follow.
    Not,
    /// BETWEEN, IN or LIKE.
    Negatable(NegatableWord),
}

/// What the first token of a statement says.
#[derive(Clone, Copy)]
pub enum StatementWord {
    Create,
    Set,
    Insert,
}
