//! The columns of which operators speak.
ghost use Rattle.std.specs.Prelude.{◌≡◌, IfOk};
ghost use Rattle.ct_expr.specs.View.{expr_view};
ghost use Rattle.rel_algebra.specs.Items as i;
ghost use Rattle.rel_algebra.specs.Joins.{left_columns, right_columns};
ghost use Rattle.phys_plan.specs.Columns as c;

use ct_expr::Expr;
use ct_value::{Cols, List, Memory};
use rel_algebra::Pair;
use std::alloc::Global;

/// Of each item the column that it hands on, if it is a plain column.
pub fn plain_columns(alloc: Global, items: &[Expr]) -> Result<List<Option<u32>>, Memory>
    ensures { IfOk result (λ plain. plain ≡ c.plain_columns items.now) }
{
    let mut plain = List::new(alloc);
    for item in items {
        plain.push(plain_column(item))?;
    }
    Ok(plain)
}

#[tactic(auto, unfolding(ct_expr::specs::View::expr_view))]
fn plain_column(item: &Expr) -> Option<u32>
    ensures { result ≡ i.plain_column (expr_view item.now) }
{
    match item {
        Expr::Column { col, .. } => Some(*col),
        _ => None,
    }
}

/// The left columns of pairs.
pub fn left_columns(alloc: Global, on: &[Pair]) -> Result<Cols, Memory>
    ensures { IfOk result (λ cols. cols ≡ left_columns on.now) }
{
    let mut cols = Cols::new(alloc);
    for pair in on {
        cols.push(pair.left)?;
    }
    Ok(cols)
}

/// The right columns of pairs.
pub fn right_columns(alloc: Global, on: &[Pair]) -> Result<Cols, Memory>
    ensures { IfOk result (λ cols. cols ≡ right_columns on.now) }
{
    let mut cols = Cols::new(alloc);
    for pair in on {
        cols.push(pair.right)?;
    }
    Ok(cols)
}
