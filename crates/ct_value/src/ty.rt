use crate::List;

/// A type of values. A decimal has at most `p` digits, `s` of them behind the point.
#[derive(Clone, Copy, Debug, PartialEq, Eq)]
pub enum Ty {
    Bool,
    /// 32 bits.
    Int,
    /// 64 bits.
    BigInt,
    Decimal { p: u32, s: u32 },
    Text,
}

/// The type of a column, and whether NULL may stand in it.
#[derive(Clone, Copy, Debug, PartialEq, Eq)]
pub struct ColTy {
    pub ty: Ty,
    pub nullable: bool,
}

/// The types of columns, the first column first.
pub type ColTys = List<ColTy>;
