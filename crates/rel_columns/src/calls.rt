//! Groups.
ghost use Rattle.std.specs.Prelude.{◌≡◌, ◌==◌, ◌++◌, ◌||◌, Bool, cond, take, is_some, slice_get, option_map, Some, None, IfOk};
ghost use Rattle.ct_field.specs.Typed.{is_number};
ghost use Rattle.ct_expr.specs.Types as e;
ghost use Rattle.rel_algebra.specs.Aggregates as a;
ghost use Rattle.rel_algebra.specs.Groups as g;

use crate::items::is_boolean;
use ct_value::{ColTy, ColTys, Memory, Ty};
use rel_algebra::{Agg, AggCall, Aggs};

/// The column of a count.
pub(crate) const COUNT: ColTy = ColTy {
    ty: Ty::BigInt,
    nullable: false,
};

/// The key's columns, then the calls'; none where one of them has no type or a key column isn't there.
pub fn group_columns(keys: u32, columns: &ColTys, aggs: &Aggs) -> Result<Option<ColTys>, Memory>
    ensures { IfOk result (λ made. made ≡ g.group_columns keys columns.now aggs.now) }
{
    if keys as usize <= columns.len() {
        grouped(keys, columns, aggs)
    } else {
        Ok(None)
    }
}

// The first columns, then the calls', where each has a type.
fn grouped(keys: u32, columns: &ColTys, aggs: &Aggs) -> Result<Option<ColTys>, Memory>
    ensures { IfOk result (λ made. made ≡ option_map (λ results. take keys columns.now ++ results) (a.agg_types columns.now (keys == 0) aggs.now)) }
{
    match call_columns(columns, keys == 0, aggs)? {
        None => Ok(None),
        Some(results) => Ok(Some(behind_keys(keys, columns, results)?)),
    }
}

// The first columns, then these.
fn behind_keys(keys: u32, columns: &ColTys, results: ColTys) -> Result<ColTys, Memory>
    ensures { IfOk result (λ made. made ≡ take keys columns.now ++ results) }
{
    let mut made = columns.dup()?;
    made.truncate(keys as usize);
    made.append(results)?;
    Ok(made)
}

// The columns of calls, where each has a type.
fn call_columns(columns: &ColTys, global: bool, aggs: &Aggs) -> Result<Option<ColTys>, Memory>
    ensures { IfOk result (λ made. made ≡ a.agg_types columns.now global aggs.now) }
{
    let mut made = columns.beside();
    for agg in aggs.as_slice() {
        let Some(column) = agg_column(columns, global, *agg) else {
            return Ok(None);
        };
        made.push(column)?;
    }
    Ok(Some(made))
}

// The column of a call, where it is well-typed.
fn agg_column(columns: &ColTys, global: bool, agg: Agg) -> Option<ColTy>
    ensures { result ≡ a.agg_type columns.now global agg }
{
    if filter_fits(columns, agg.filter) {
        call_column(columns, has_gaps(global, agg), agg)
    } else {
        None
    }
}

// Whether a filter's column is there, and BOOLEAN.
fn filter_fits(columns: &ColTys, filter: Option<u32>) -> bool
    ensures { result ≡ a.filter_fits columns.now filter }
{
    match filter {
        None => true,
        Some(column) => is_boolean_at(columns, column),
    }
}

// Whether a column is there, and BOOLEAN.
fn is_boolean_at(columns: &ColTys, column: u32) -> bool
    ensures { result ≡ a.column_is_truth (slice_get columns.now column) }
{
    match columns.get(column as usize) {
        None => false,
        Some(column) => is_boolean(*column),
    }
}

// Whether a call may have no value though its argument is never NULL.
fn has_gaps(global: bool, agg: Agg) -> bool
    ensures { result ≡ (global || is_some agg.filter) }
{
    global || agg.filter.is_some()
}

// The column of a call, where it has a type.
fn call_column(columns: &ColTys, gaps: bool, agg: Agg) -> Option<ColTy>
    ensures { result ≡ cond (a.arg_fits columns.now agg.arg) (a.call_type gaps agg.call (a.type_in columns.now agg.arg)) None }
{
    match agg.arg {
        None => plain_call(agg.call),
        Some(column) => argument_call(gaps, agg.call, *columns.get(column as usize)?),
    }
}

// The column of a call without an argument.
fn plain_call(call: AggCall) -> Option<ColTy>
    ensures { (gaps : Bool) → result ≡ a.call_type gaps call None }
{
    match call {
        AggCall::CountAll => Some(COUNT),
        _ => None,
    }
}

// The column of a call on an argument's column.
fn argument_call(gaps: bool, call: AggCall, arg: ColTy) -> Option<ColTy>
    ensures { result ≡ a.call_type gaps call (Some arg) }
{
    let nullable = arg.nullable || gaps;
    match call {
        AggCall::CountAll => None,
        AggCall::Count | AggCall::CountDistinct => Some(COUNT),
        AggCall::Sum => number_column(arg.ty, sum_type(arg.ty), nullable),
        AggCall::Min | AggCall::Max => Some(ColTy {
            ty: arg.ty,
            nullable,
        }),
        AggCall::Avg => number_column(arg.ty, average_type(arg.ty), nullable),
    }
}

// A column of a result over numbers.
fn number_column(of: Ty, ty: Ty, nullable: bool) -> Option<ColTy>
    ensures { result ≡ a.column_if (is_number of) (e.col ty nullable) }
{
    match of {
        Ty::Int | Ty::BigInt | Ty::Decimal { .. } => Some(ColTy { ty, nullable }),
        Ty::Bool | Ty::Text => None,
    }
}

// The type of a sum.
fn sum_type(ty: Ty) -> Ty
    ensures { result ≡ a.sum_type ty }
{
    match ty {
        Ty::Decimal { s, .. } => Ty::Decimal { p: 38, s },
        _ => ty,
    }
}

// The type of an average.
fn average_type(ty: Ty) -> Ty
    ensures { result ≡ a.avg_type ty }
{
    match ty {
        Ty::Decimal { s, .. } => Ty::Decimal { p: 38, s: s.max(6) },
        _ => ty,
    }
}
