//! Expressions over columns.
ghost use Rattle.std.specs.Prelude.{◌≡◌, IfOk};
ghost use Rattle.ct_expr.specs.Types as e;
ghost use Rattle.ct_expr.specs.View.{expr_view, exprs_view};
ghost use Rattle.ct_field.specs.Typed as f;
ghost use Rattle.rel_algebra.specs.Types as t;

use ct_expr::{Expr, Exprs, type_of};
use ct_value::{ColTy, ColTys, Memory, Ty};

/// The columns of items over these columns, where each has a type.
pub fn item_columns(items: &Exprs, columns: &ColTys) -> Result<Option<ColTys>, Memory>
    ensures { IfOk result (λ made. made ≡ t.item_columns columns.now (exprs_view items.now)) }
{
    let mut made = columns.beside();
    for item in items.as_slice() {
        let Some(column) = type_of(item, columns) else {
            return Ok(None);
        };
        made.push(column)?;
    }
    Ok(Some(made))
}

/// Whether an expression is BOOLEAN over these columns.
pub fn is_condition(cond: &Expr, columns: &ColTys) -> bool
    ensures { result ≡ t.is_condition columns.now (expr_view cond.now) }
{
    match type_of(cond, columns) {
        None => false,
        Some(column) => is_boolean(column),
    }
}

// Whether a column is BOOLEAN.
pub(crate) fn is_boolean(column: ColTy) -> bool
    ensures condition { result ≡ e.is_truths column.ty }
    ensures filter { result ≡ f.is_truths column.ty }
{
    matches!(column.ty, Ty::Bool)
}
