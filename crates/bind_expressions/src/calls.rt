//! The columns of aggregate calls.
ghost use Rattle.bind_names.specs.declared.fault.BindFault.TheVariants as f;
ghost use Rattle.ct_field.specs.Typed.{is_number};
ghost use Rattle.std.specs.Prelude.{◌≡◌, ◌||◌, cond, None, Ok, Err, option_map, is_some, IfOk, IsErrOf};
ghost use Rattle.ct_value.specs.declared.codes.ScriptCode.{ScriptCode};
ghost use Rattle.rel_algebra.specs.Aggregates as a;
ghost use Rattle.sql_syntax.specs.View.{args_view};
ghost use Rattle.binding.specs.Expressions as e;
ghost use Rattle.binding.specs.InGroups as g;
ghost use Rattle.bind_nodes.specs.Views.{bound_view, bounds_view};

use bind_names::{BindFault, agg_call};
use bind_nodes::{Bound, Bounds, column, is_count};
use ct_expr::{is_truths, number_col};
use ct_value::{ColTy, ScriptCode, Ty};
use rel_algebra::AggCall;
use sql_syntax::Args;
use std::alloc::Global;

// The type in which a sum of values of a type stands.
fn sum_type(ty: Ty) -> Ty
    ensures { result ≡ a.sum_type ty }
{
    match ty {
        Ty::Decimal { s, .. } => Ty::Decimal { p: 38, s },
        other => other,
    }
}

// The type of an average of values of a type: at least 6 decimals.
fn avg_type(ty: Ty) -> Ty
    ensures { result ≡ a.avg_type ty }
{
    match ty {
        Ty::Decimal { s, .. } => Ty::Decimal { p: 38, s: s.max(6) },
        other => other,
    }
}

// A count's column.
fn count_column() -> ColTy
    ensures { result ≡ a.count_column }
{
    ColTy {
        ty: Ty::BigInt,
        nullable: false,
    }
}

// The column of a result of this type, of numbers.
fn of_numbers(gaps: bool, ty: Ty, arg: ColTy) -> Option<ColTy>
    ensures { result ≡ a.column_if (is_number arg.ty) (record { ty = ty; nullable = arg.nullable || gaps }) }
{
    number_col(arg)?;
    Some(ColTy {
        ty,
        nullable: arg.nullable || gaps,
    })
}

/// The column of a call on an argument's column; `gaps` where there may be no value even of an argument that is never NULL.
pub fn call_type(gaps: bool, call: AggCall, arg: Option<ColTy>) -> Option<ColTy>
    ensures { result ≡ a.call_type gaps call arg }
{
    match (call, arg) {
        (AggCall::CountAll, None) => Some(count_column()),
        (AggCall::Count | AggCall::CountDistinct, Some(_)) => Some(count_column()),
        (AggCall::Sum, Some(arg)) => of_numbers(gaps, sum_type(arg.ty), arg),
        (AggCall::Avg, Some(arg)) => of_numbers(gaps, avg_type(arg.ty), arg),
        (AggCall::Min | AggCall::Max, Some(arg)) => Some(ColTy {
            ty: arg.ty,
            nullable: arg.nullable || gaps,
        }),
        _ => None,
    }
}

/// Whether DISTINCT stands before the arguments of a call.
#[tactic(auto, unfolding(sql_syntax::specs::View::args_view))]
pub fn is_distinct(args: &Args) -> bool
    ensures { result ≡ e.is_distinct (args_view args.now) }
{
    match args {
        Args::Empty | Args::Star => false,
        Args::List { distinct, .. } => *distinct,
    }
}

// One operand, or the star of COUNT.
#[tactic(auto, unfolding(sql_syntax::specs::View::args_view))]
fn has_operands(call: AggCall, args: &Args) -> bool
    ensures { result ≡ g.has_operands call (args_view args.now) }
{
    match args {
        Args::Empty => false,
        Args::Star => is_count(call),
        Args::List { values, .. } => values.len() == 1,
    }
}

// The column of the first operand.
#[tactic(auto, using(crate::proofs::Operands::first_there, crate::proofs::Operands::first_absent))]
fn first_column(operands: &Bounds) -> Option<ColTy>
    ensures { result ≡ g.first_column (bounds_view operands.now) }
{
    match operands.get(0) {
        None => None,
        Some(operand) => Some(operand.column),
    }
}

// Whether the condition of a FILTER, where there is one, is BOOLEAN.
fn is_condition_if(filter: &Option<Bound>) -> bool
    ensures { result ≡ g.is_condition_if (option_map bound_view filter.now) }
{
    match filter {
        None => true,
        Some(bound) => is_truths(bound.column.ty),
    }
}

/// The column of a call whose FILTER condition is bound, where that is BOOLEAN; `global` without GROUP BY.
pub fn call_column_if(
    global: bool,
    call: AggCall,
    arg: Option<ColTy>,
    filter: &Option<Bound>,
) -> Option<ColTy>
    ensures { result ≡ cond (g.is_condition_if (option_map bound_view filter.now)) (a.call_type (global || is_some filter.now) call arg) None }
{
    if !is_condition_if(filter) {
        return None;
    }
    call_type(global || filter.is_some(), call, arg)
}

fn column_if(alloc: Global, place: u32, ty: Option<ColTy>) -> Result<Bound, BindFault>
    ensures ok { IfOk result (λ x. g.column_if place ty ≡ Ok (bound_view x)) }
    ensures refused { (code : ScriptCode) → IsErrOf result (f.Refused code) → g.column_if place ty ≡ Err code }
{
    match ty {
        None => Err(BindFault::Refused(ScriptCode::TypeMismatch)),
        Some(ty) => column(alloc, place, ty),
    }
}

/// The column at a place of an aggregate call, its operands and its FILTER condition being bound; `global` without GROUP BY.
pub fn call_column(
    alloc: Global,
    global: bool,
    place: u32,
    call: AggCall,
    args: &Args,
    operands: &Bounds,
    filter: &Option<Bound>,
) -> Result<Bound, BindFault>
    ensures ok { IfOk result (λ x. g.call_column global place call (args_view args.now) (bounds_view operands.now) (option_map bound_view filter.now) ≡ Ok (bound_view x)) }
    ensures refused { (code : ScriptCode) → IsErrOf result (f.Refused code) → g.call_column global place call (args_view args.now) (bounds_view operands.now) (option_map bound_view filter.now) ≡ Err code }
{
    if is_distinct(args) && !is_count(call) {
        return Err(BindFault::Refused(ScriptCode::Unsupported));
    }
    if !has_operands(call, args) || !is_condition_if(filter) {
        return Err(BindFault::Refused(ScriptCode::TypeMismatch));
    }
    let gaps = global || filter.is_some();
    let ty = call_type(gaps, agg_call(call, args), first_column(operands));
    column_if(alloc, place, ty)
}
