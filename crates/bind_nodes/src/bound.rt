ghost use Rattle.bind_names.specs.declared.fault.BindFault.TheVariants as f;
ghost use Rattle.std.specs.Prelude.{◌≡◌, Ok, Err, IfOk, IsErrOf};
ghost use Rattle.ct_value.specs.declared.codes.ScriptCode.{ScriptCode};
ghost use Rattle.ct_expr.specs.Types.{all_truths};
ghost use Rattle.ct_expr.specs.View.{expr_view, exprs_view};
ghost use Rattle.binding.specs.Nodes as n;
ghost use Rattle.binding.specs.Nodes.{columns, expr_list};
ghost use Rattle.bind_nodes.specs.Views.{bound_view, bounds_view};

use crate::size::Size;
use bind_names::BindFault;
use ct_expr::{Expr, Exprs, logic_col};
use ct_value::{Boxed, ColTy, List, Memory, ScriptCode, Ty};
use std::alloc::Global;

/// An expression with its type.
#[derive(Drop)]
pub struct Bound {
    pub expr: Boxed<Expr>,
    pub column: ColTy,
    pub(crate) size: Size,
}

/// Expressions with their types, in order.
pub type Bounds = List<Bound>;

// An expression of this type, where there is one, over operands of this size.
pub(crate) fn typed(
    alloc: Global,
    column: Option<ColTy>,
    operands: Size,
    expr: Expr,
) -> Result<Bound, BindFault>
    ensures ok { IfOk result (λ x. n.typed column (expr_view expr) ≡ Ok (bound_view x)) }
    ensures refused { (code : ScriptCode) → IsErrOf result (f.Refused code) → n.typed column (expr_view expr) ≡ Err code }
{
    let expr = Boxed::new(alloc, expr)?;
    let size = operands.above()?;
    match column {
        Some(column) => Ok(Bound { expr, column, size }),
        None => Err(BindFault::Refused(ScriptCode::TypeMismatch)),
    }
}

/// The expressions without their types.
pub fn operands(alloc: Global, bounds: Bounds) -> Result<Exprs, Memory>
    ensures { IfOk result (λ exprs. exprs_view exprs ≡ expr_list (bounds_view bounds)) }
{
    let mut exprs = Exprs::with_capacity(alloc, bounds.len())?;
    for bound in bounds.into_vec() {
        exprs.push(Boxed::into_inner(bound.expr))?;
    }
    Ok(exprs)
}

/// The column of AND or OR of expressions: there is one or more, and each is BOOLEAN.
#[tactic(auto, using(crate::proofs::Folds::truths_out))]
pub fn columns_are_truths(bounds: &Bounds) -> Option<ColTy>
    ensures { result ≡ all_truths (columns (bounds_view bounds.now)) }
{
    if bounds.is_empty() {
        return None;
    }
    let mut all = ColTy {
        ty: Ty::Bool,
        nullable: false,
    };
    for bound in bounds.as_slice() {
        all = logic_col(all, bound.column)?;
    }
    Some(all)
}
