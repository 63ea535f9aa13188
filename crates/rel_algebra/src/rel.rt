//! Trees of the relational algebra.

use crate::{Aggs, JoinKind, Pairs, Sorts};
use ct_expr::{Expr, Exprs};
use ct_value::{Boxed, Cols, List};

/// A query as a tree of the relational algebra. Columns are counted from 0, and those of two inputs stand side by side, the left's
/// first.
#[cycle(rel)]
pub enum Rel {
    /// The rows of a table, counted from 0.
    Scan {
        source: u32,
    },
    /// The rows on which the condition is TRUE.
    Filter {
        input: Boxed<Rel>,
        cond: Expr,
    },
    /// For each row, the values of the items.
    Project {
        input: Boxed<Rel>,
        items: Exprs,
    },
    /// The rows of all inputs.
    Union {
        inputs: Rels,
    },
    /// A row for each group of rows that agree on the first `keys` columns: these, then the aggregates.
    Group {
        input: Boxed<Rel>,
        keys: u32,
        aggs: Aggs,
    },
    /// The pairs of rows that agree on `on` and on which `rest` is TRUE.
    Join {
        left: Boxed<Rel>,
        right: Boxed<Rel>,
        kind: JoinKind,
        on: Pairs,
        rest: Option<Expr>,
    },
    /// The rows of the left that have such a match on the right, or with `anti` those that have none.
    Semi {
        left: Boxed<Rel>,
        right: Boxed<Rel>,
        anti: bool,
        on: Pairs,
        rest: Option<Expr>,
    },
    /// The rows of the left that aren't on the right, or without `except` those that both have; with `all` each copy counts, and
    /// else each row stands once. Both have so many columns.
    SetOp {
        left: Boxed<Rel>,
        right: Boxed<Rel>,
        except: bool,
        all: bool,
        columns: u32,
    },
    /// The first `bound` rows of each partition, `ranked` with their ranks as the last column.
    Rank {
        input: Boxed<Rel>,
        partition: Cols,
        order: Sorts,
        bound: u32,
        ranked: bool,
    },
}

impl Drop for Rel {
    // Goes down the first input in a loop: a chain of joins takes no stack, whatever its length.
    #[cycle(drops)]
    fn drop(mut self) {
        loop {
            match self {
                Rel::Scan { source: _source } => return,
                Rel::Filter { input, cond } => {
                    drop(cond);
                    self = Boxed::into_inner(input);
                }
                Rel::Project { input, items } => {
                    drop(items);
                    self = Boxed::into_inner(input);
                }
                Rel::Union { inputs } => {
                    drop(inputs);
                    return;
                }
                Rel::Group {
                    input,
                    keys: _keys,
                    aggs,
                } => {
                    drop(aggs);
                    self = Boxed::into_inner(input);
                }
                Rel::Join {
                    left,
                    right,
                    kind: _kind,
                    on,
                    rest,
                } => {
                    drop(right);
                    drop(on);
                    drop(rest);
                    self = Boxed::into_inner(left);
                }
                Rel::Semi {
                    left,
                    right,
                    anti: _anti,
                    on,
                    rest,
                } => {
                    drop(right);
                    drop(on);
                    drop(rest);
                    self = Boxed::into_inner(left);
                }
                Rel::SetOp {
                    left,
                    right,
                    except: _except,
                    all: _all,
                    columns: _columns,
                } => {
                    drop(right);
                    self = Boxed::into_inner(left);
                }
                Rel::Rank {
                    input,
                    partition,
                    order,
                    bound: _bound,
                    ranked: _ranked,
                } => {
                    drop(partition);
                    drop(order);
                    self = Boxed::into_inner(input);
                }
            }
        }
    }
}

/// Trees of the algebra in order.
pub type Rels = List<Rel>;
