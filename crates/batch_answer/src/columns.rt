//! The columns of each node, where it is well-typed.
ghost use Rattle.std.specs.Prelude.{◌≡◌, List as Seq, Some, IfOk};
ghost use Rattle.ct_expr.specs.View.{exprs_view};
ghost use Rattle.ct_value.specs.declared.ty.ColTy.{ColTy as Column};
ghost use Rattle.rel_algebra.specs.Types as t;
ghost use Rattle.rel_algebra.specs.Groups as g;
ghost use Rattle.rel_algebra.specs.Sets as s;
ghost use Rattle.batch_answer.specs.Parts.{begun};

use ct_expr::Exprs;
use ct_value::{ColTys, Memory};
use rel_algebra::{Aggs, SetKind, set_kind};
use rel_columns::{group_columns, item_columns, set_columns};

/// The columns of items over these columns.
pub(crate) fn projected_columns(items: &Exprs, columns: &ColTys) -> Result<ColTys, Memory>
    ensures { IfOk result (λ made. (all : Seq Column) → t.item_columns columns.now (exprs_view items.now) ≡ Some all → made ≡ all) }
{
    match item_columns(items, columns)? {
        None => Ok(columns.beside()),
        Some(made) => Ok(made),
    }
}

/// The key's columns, then the calls'.
pub(crate) fn grouped_columns(keys: u32, columns: &ColTys, aggs: &Aggs) -> Result<ColTys, Memory>
    ensures { IfOk result (λ made. (all : Seq Column) → g.group_columns keys columns.now aggs.now ≡ Some all → made ≡ all) }
{
    match group_columns(keys, columns, aggs)? {
        None => Ok(columns.beside()),
        Some(made) => Ok(made),
    }
}

/// The common columns of inputs, with those of one input more.
pub(crate) fn more_columns(so_far: Option<ColTys>, columns: ColTys) -> Result<ColTys, Memory>
    ensures { IfOk result (λ made. (all : Seq Column) → begun so_far columns ≡ Some all → made ≡ all) }
{
    match so_far {
        None => Ok(columns),
        Some(others) => shared_columns(&others, &columns),
    }
}

/// The columns of EXCEPT, or else of INTERSECT.
pub(crate) fn operated_columns(
    except: bool,
    left: &ColTys,
    right: &ColTys,
) -> Result<ColTys, Memory>
    ensures { IfOk result (λ made. (all : Seq Column) → s.set_columns (s.set_kind except) left.now right.now ≡ Some all → made ≡ all) }
{
    match set_columns(set_kind(except), left, right)? {
        None => Ok(left.beside()),
        Some(made) => Ok(made),
    }
}

// The common columns of two inputs.
fn shared_columns(columns: &ColTys, others: &ColTys) -> Result<ColTys, Memory>
    ensures { IfOk result (λ made. (all : Seq Column) → t.common_columns columns.now others.now ≡ Some all → made ≡ all) }
{
    match set_columns(SetKind::Union, columns, others)? {
        None => Ok(columns.beside()),
        Some(made) => Ok(made),
    }
}
