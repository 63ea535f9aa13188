use ct_value::Text;

/// A keyword of the language. It is written in any case of letters.
#[derive(Clone, Copy, Debug, PartialEq, Eq)]
pub enum Keyword {
    All,
    And,
    As,
    Asc,
    Between,
    By,
    Case,
    Cast,
    Create,
    Desc,
    Distinct,
    Else,
    End,
    Enforced,
    Except,
    Exists,
    False,
    Filter,
    From,
    Full,
    Group,
    Having,
    In,
    Inner,
    Insert,
    Intersect,
    Into,
    Is,
    Join,
    Key,
    Left,
    Like,
    Limit,
    Not,
    Null,
    On,
    Or,
    Order,
    Outer,
    Over,
    Partition,
    Primary,
    Right,
    Select,
    Set,
    Table,
    Then,
    True,
    Union,
    When,
    Where,
    With,
}

/// A symbol of the language; `!=` is read as `<>`.
#[derive(Clone, Copy, Debug, PartialEq, Eq)]
pub enum Symbol {
    Open,
    Close,
    Comma,
    Dot,
    Semicolon,
    Equal,
    NotEqual,
    Less,
    LessEqual,
    Greater,
    GreaterEqual,
    Plus,
    Minus,
    Times,
    Divide,
    Modulo,
    Concat,
}

/// A token of a script.
#[derive(Debug, Drop)]
pub enum Token {
    Keyword(Keyword),
    /// A name; `quoted` says that it stood in backticks, of which `text` has none.
    Name { text: Text, quoted: bool },
    /// A text in single quotes, without them, each doubled quote being one.
    Str(Text),
    /// A number as it was written.
    Number(Text),
    Symbol(Symbol),
}
