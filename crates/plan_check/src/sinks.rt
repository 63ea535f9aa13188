//! What a sink takes.
ghost use Rattle.std.specs.Prelude.{◌≡◌, map, option_copied};
ghost use Rattle.rel_algebra.specs.GoesInto as g;
ghost use Rattle.plan_check.specs.Types as t;

use ct_catalog::{ColDef, TableDef};
use ct_expr::same_ty;
use ct_value::{ColTy, ColTys, Ty};
use phys_plan::Op;

/// Whether a node has columns, and those of a sink go into its table.
pub(crate) fn is_typed_by(sink: &TableDef, op: &Op, columns: Option<&ColTys>) -> bool
    ensures { result ≡ t.is_typed_by sink.now op.now (option_copied columns.entry) }
{
    match columns {
        None => false,
        Some(columns) => is_typed(sink, op, columns),
    }
}

fn is_typed(sink: &TableDef, op: &Op, columns: &ColTys) -> bool
    ensures { result ≡ t.is_typed_by sink.now op.now (Some columns.now) }
{
    match op {
        Op::Sink => fit_sink(columns, sink.cols.as_slice()),
        _ => true,
    }
}

fn fit_sink(columns: &ColTys, sink: &[ColDef]) -> bool
    ensures { result ≡ t.fit_sink columns.now (map (λ c. c.ty) sink.now) }
{
    go_into(columns.as_slice(), sink) && keep_nulls(columns.as_slice(), sink)
}

// Whether the columns are as many as the sink's, and each goes into its own.
fn go_into(columns: &[ColTy], sink: &[ColDef]) -> bool
    ensures { result ≡ g.go_into columns.now (map (λ c. c.ty) sink.now) }
{
    match columns {
        [] => sink.is_empty(),
        [column, columns @ ..] => match sink {
            [] => false,
            [first, sink @ ..] => goes_into(*column, first.ty) && go_into(columns, sink),
        },
    }
}

fn goes_into(column: ColTy, sink: ColTy) -> bool
    ensures { result ≡ g.goes_into column sink }
{
    same_ty(column.ty, sink.ty) || widens(column.ty, sink.ty)
}

// INT goes into BIGINT, and a decimal into one of the same scale and no smaller precision.
fn widens(ty: Ty, sink: Ty) -> bool
    ensures { result ≡ g.widens ty sink }
{
    match (ty, sink) {
        (Ty::Int, Ty::BigInt) => true,
        (Ty::Decimal { p, s }, Ty::Decimal { p: q, s: u }) => p <= q && s == u,
        _ => false,
    }
}

/// Whether NULL may stand in the sink's columns wherever it may in these, column by column.
pub fn keep_nulls(columns: &[ColTy], sink: &[ColDef]) -> bool
    ensures { result ≡ t.keep_nulls columns.now (map (λ c. c.ty) sink.now) }
{
    match columns {
        [] => true,
        [column, columns @ ..] => match sink {
            [] => true,
            [first, sink @ ..] => {
                (!column.nullable || first.ty.nullable) && keep_nulls(columns, sink)
            }
        },
    }
}
