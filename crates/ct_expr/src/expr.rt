//! Trees of expressions.

use ct_value::{Boxed, CompareOp, List, Ty, Value};

/// How two numbers are put together.
#[derive(Clone, Copy, Debug, PartialEq, Eq)]
pub enum ArithOp {
    Add,
    Sub,
    Mul,
}

/// Expressions in order.
pub type Exprs = List<Expr>;

/// The branches of a CASE in order.
pub type Whens = List<When>;

/// A branch of a CASE: the result where the condition is TRUE.
#[cycle(expr)]
#[derive(Drop)]
pub struct When {
    pub cond: Expr,
    pub result: Expr,
}

/// An expression over the columns of a row, which are counted from 0. A number is unscaled.
#[cycle(expr)]
pub enum Expr {
    Column {
        col: u32,
        ty: Ty,
    },
    Literal {
        value: Value,
        ty: Ty,
    },
    Neg(Boxed<Expr>),
    Arith {
        op: ArithOp,
        left: Boxed<Expr>,
        right: Boxed<Expr>,
    },
    Compare {
        op: CompareOp,
        left: Boxed<Expr>,
        right: Boxed<Expr>,
    },
    And(Exprs),
    Or(Exprs),
    Not(Boxed<Expr>),
    IsNull(Boxed<Expr>),
    InList {
        value: Boxed<Expr>,
        items: Exprs,
    },
    Case {
        whens: Whens,
        otherwise: Option<Boxed<Expr>>,
    },
    Coalesce(Exprs),
    NullIf {
        left: Boxed<Expr>,
        right: Boxed<Expr>,
    },
    Cast {
        value: Boxed<Expr>,
        ty: Ty,
    },
    Concat {
        left: Boxed<Expr>,
        right: Boxed<Expr>,
    },
    CharLength(Boxed<Expr>),
    Like {
        value: Boxed<Expr>,
        pattern: Boxed<Expr>,
    },
}

// By hand, so that whoever owns an expression doesn't prove again how each kind of it is dropped.
impl Drop for Expr {
    #[cycle(drops)]
    fn drop(self) {
        match self {
            Expr::Column { col: _col, ty: _ty } => {}
            Expr::Literal { value, ty: _ty } => drop(value),
            Expr::Neg(value) | Expr::Not(value) | Expr::IsNull(value) | Expr::CharLength(value) => {
                drop(value)
            }
            Expr::Arith {
                op: _op,
                left,
                right,
            } => {
                drop(left);
                drop(right);
            }
            Expr::Compare {
                op: _op,
                left,
                right,
            } => {
                drop(left);
                drop(right);
            }
            Expr::And(list) | Expr::Or(list) | Expr::Coalesce(list) => drop(list),
            Expr::InList { value, items } => {
                drop(value);
                drop(items);
            }
            Expr::Case { whens, otherwise } => {
                drop(whens);
                drop(otherwise);
            }
            Expr::NullIf { left, right } | Expr::Concat { left, right } => {
                drop(left);
                drop(right);
            }
            Expr::Cast { value, ty: _ty } => drop(value),
            Expr::Like { value, pattern } => {
                drop(value);
                drop(pattern);
            }
        }
    }
}
