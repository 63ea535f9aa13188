//! Calls outside groups.
ghost use Rattle.bind_names.specs.declared.fault.BindFault.TheVariants as f;
ghost use Rattle.std.specs.Prelude.{◌≡◌, [], ◌∷◌, ◌||◌, length, Ok, Err, Some, IfOk, IfSome, IfNone, IsErrOf};
ghost use Rattle.ct_value.specs.declared.codes.ScriptCode.{ScriptCode};
ghost use Rattle.ct_expr.specs.Types.{begun, coalesce_col, gather_some};
ghost use Rattle.query_answer.specs.declared.function.Function.TheVariants as v;
ghost use Rattle.binding.specs.Nodes as n;
ghost use Rattle.binding.specs.Nodes.{columns};
ghost use Rattle.bind_nodes.specs.Views.{bound_view, bounds_view, form_view};

use crate::bound::{Bound, Bounds, operands, typed};
use crate::size::together;
use bind_names::BindFault;
use ct_expr::{Expr, char_length_col, coalesce_col, null_if_col};
use ct_value::{ColTy, ScriptCode};
use query_answer::Function;
use rel_algebra::AggCall;
use std::alloc::Global;

/// What stands at a call besides its operands.
#[derive(Clone, Copy)]
pub struct CallForm {
    pub distinct: bool,
    pub filter: bool,
    pub over: bool,
}

/// Whether an aggregate function is COUNT.
pub fn is_count(call: AggCall) -> bool
    ensures { result ≡ n.is_count call }
{
    matches!(call, AggCall::Count)
}

// The common column of the operands of COALESCE, nullable where all are.
#[tactic(auto, using(crate::proofs::Folds::coalesce_out))]
fn coalesced(bounds: &Bounds) -> Option<ColTy>
    ensures { result ≡ gather_some coalesce_col (columns (bounds_view bounds.now)) }
{
    let mut all = None;
    for bound in bounds.as_slice() {
        all = Some(with_operand(all, bound.column)?);
    }
    all
}

fn with_operand(all: Option<ColTy>, operand: ColTy) -> Option<ColTy>
    ensures { result ≡ begun coalesce_col all (Some operand) }
{
    match all {
        None => Some(operand),
        Some(all) => coalesce_col(all, operand),
    }
}

#[tactic(auto, using(ct_expr::proofs::laws::Views::view_coalesce))]
fn coalesce(alloc: Global, bounds: Bounds) -> Result<Bound, BindFault>
    ensures ok { IfOk result (λ x. n.applied v.Coalesce (bounds_view bounds) ≡ Ok (bound_view x)) }
    ensures refused { (code : ScriptCode) → IsErrOf result (f.Refused code) → n.applied v.Coalesce (bounds_view bounds) ≡ Err code }
{
    let column = coalesced(&bounds);
    let size = together(&bounds);
    let exprs = operands(alloc, bounds)?;
    typed(alloc, column, size, Expr::Coalesce(exprs))
}

// The only operand of a call.
#[tactic(auto, using(crate::proofs::OneOrTwo::only_one))]
fn only(bounds: Bounds) -> Option<Bound>
    ensures one { IfSome result (λ x. bounds_view bounds ≡ bound_view x ∷ []) }
    ensures none { IfNone result (¬ (length bounds ≡ 1)) }
{
    let mut bounds = bounds;
    if bounds.len() != 1 {
        return None;
    }
    bounds.pop()
}

// The two operands of a call.
#[tactic(auto, using(crate::proofs::OneOrTwo::only_two))]
fn both(bounds: Bounds) -> Option<(Bound, Bound)>
    ensures two { IfSome result (λ p. bounds_view bounds ≡ bound_view p.0 ∷ bound_view p.1 ∷ []) }
    ensures none { IfNone result (¬ (length bounds ≡ 2)) }
{
    let mut bounds = bounds;
    if bounds.len() != 2 {
        return None;
    }
    let last = bounds.pop()?;
    let first = bounds.pop()?;
    Some((first, last))
}

#[tactic(auto, using(ct_expr::proofs::laws::Views::view_char_length, crate::proofs::OneOrTwo::not_one))]
fn char_length(alloc: Global, bounds: Bounds) -> Result<Bound, BindFault>
    ensures ok { IfOk result (λ x. n.applied v.CharLength (bounds_view bounds) ≡ Ok (bound_view x)) }
    ensures refused { (code : ScriptCode) → IsErrOf result (f.Refused code) → n.applied v.CharLength (bounds_view bounds) ≡ Err code }
{
    match only(bounds) {
        None => Err(BindFault::Refused(ScriptCode::TypeMismatch)),
        Some(bound) => typed(
            alloc,
            char_length_col(bound.column),
            bound.size,
            Expr::CharLength(bound.expr),
        ),
    }
}

#[tactic(auto, using(ct_expr::proofs::laws::Views::view_null_if, crate::proofs::OneOrTwo::not_two))]
fn null_if(alloc: Global, bounds: Bounds) -> Result<Bound, BindFault>
    ensures ok { IfOk result (λ x. n.applied v.NullIf (bounds_view bounds) ≡ Ok (bound_view x)) }
    ensures refused { (code : ScriptCode) → IsErrOf result (f.Refused code) → n.applied v.NullIf (bounds_view bounds) ≡ Err code }
{
    match both(bounds) {
        None => Err(BindFault::Refused(ScriptCode::TypeMismatch)),
        Some((left, right)) => {
            let column = null_if_col(left.column, right.column);
            let size = left.size.with(right.size);
            let expr = Expr::NullIf {
                left: left.expr,
                right: right.expr,
            };
            typed(alloc, column, size, expr)
        }
    }
}

// What refuses a call of an aggregate function where no group is.
fn no_group(call: AggCall, form: CallForm) -> ScriptCode
    ensures { n.call (v.Aggregate call) (form_view form) [] ≡ Err result }
{
    if form.over || (form.distinct && !is_count(call)) {
        return ScriptCode::Unsupported;
    }
    ScriptCode::NotGrouped
}

// Whether what only aggregate functions take stands at a call.
fn is_adorned(form: CallForm) -> bool
    ensures { result ≡ (form.distinct || (form.filter || form.over)) }
{
    form.distinct || form.filter || form.over
}

/// A call outside groups, its operands being bound.
pub fn call(
    alloc: Global,
    function: Function,
    form: CallForm,
    bounds: Bounds,
) -> Result<Bound, BindFault>
    ensures ok { IfOk result (λ x. n.call function (form_view form) (bounds_view bounds) ≡ Ok (bound_view x)) }
    ensures refused { (code : ScriptCode) → IsErrOf result (f.Refused code) → n.call function (form_view form) (bounds_view bounds) ≡ Err code }
{
    match function {
        Function::Aggregate(call) => Err(BindFault::Refused(no_group(call, form))),
        Function::RowNumber | Function::Unknown => Err(BindFault::Refused(ScriptCode::Unsupported)),
        Function::Changing => Err(BindFault::Refused(ScriptCode::Nondeterministic)),
        _ if is_adorned(form) => Err(BindFault::Refused(ScriptCode::Unsupported)),
        Function::Coalesce => coalesce(alloc, bounds),
        Function::NullIf => null_if(alloc, bounds),
        Function::CharLength => char_length(alloc, bounds),
    }
}
