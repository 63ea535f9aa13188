//! The value of an expression at a row.
ghost use Rattle.std.specs.Prelude.{◌≡◌, Some, None, IfOk, IsErrOf, Option, option_map};
ghost use Rattle.ct_expr.specs.Eval as e;
ghost use Rattle.ct_expr.specs.Found.{held, meaning, with_else};
ghost use Rattle.ct_value.specs.declared.value.Value.{Value as Cell};
ghost use Rattle.ct_value.specs.declared.ty.Ty.TheVariants.{Bool as Truths, Int, Text as Texts};
ghost use Rattle.ct_expr.specs.Expr.{exprs as expr_list, whens as when_list, optional_expr};
ghost use Rattle.ct_expr.specs.View.{expr_view, exprs_view, whens_view};
ghost use Rattle.ct_expr.specs.Expr as x;
ghost use Rattle.ct_expr.specs.Types.{ty_of, arith_ty, otherwise_ty, result_tys, widest};
ghost use Rattle.ct_expr.specs.Operands.{with_first, ty_with_first};
ghost use Rattle.ct_expr.specs.Values.{in_list_of, first_chosen, minus, conversion, char_length, arithmetic, comparison, null_if, concatenation, likeness};

use crate::found::{
    Choice, Found, Meaning, Typed, arithmetic, char_length, comparison, concatenation, conversion,
    likeness, minus, negation, null_if, null_test,
};
use crate::types::{arith_ty, common_of, otherwise_ty, result_ty};
use crate::values::{and_of, compare_of, is_null, is_true, or_of};
use crate::{ArithOp, Expr, Exprs, Whens};
use ct_value::{Boxed, CompareOp, Memory, Row, Ty, Value};
use std::alloc::Global;

/// Why an expression has no value at a row.
#[derive(Clone, Copy, Debug, PartialEq, Eq)]
pub enum EvalFault {
    /// It is out of range there.
    Out,
    Memory,
}

impl From<Memory> for EvalFault {
    ghost use Rattle.std.specs.Prelude.{◌≡◌};
    ghost use Rattle.ct_expr.specs.declared.evaluate.EvalFault.TheVariants as f;

    ghost from_gives = { λ _ fault. fault ≡ f.Memory };

    fn from(_: Memory) -> Self {
        EvalFault::Memory
    }
}

/// The value of an expression at a row, in three-valued logic. `Out` comes exactly where it is out of range there.
/// Nothing is copied on the way but what is new: a comparison of columns takes no memory. Each part is looked at once, but for the
/// types of the results of a CASE and of a COALESCE's operands, which are found once for each form that they stand in.
pub fn eval(alloc: Global, expr: &Expr, row: &Row) -> Result<Value, EvalFault>
    ensures value { IfOk result (λ value. e.eval (expr_view expr.now) row.now ≡ Some value) }
    ensures out { IsErrOf result EvalFault.Out → e.eval (expr_view expr.now) row.now ≡ None }
{
    match found(alloc, expr, row.as_slice())?.value {
        None => Err(EvalFault::Out),
        Some(value) => Ok(value.into_value()?),
    }
}

// The value with the type that its expression says of itself, so that no part is walked again for its type. What is behind the first
// operand stands apart: `found` is on the stack once for each level of a chain, and pays there for the size of its locals.
#[cycle(eval)]
#[tactic(auto, unfolding(crate::specs::View::expr_view, crate::specs::View::when_view))]
fn found<'a>(alloc: Global, expr: &'a Expr, row: &'a [Value]) -> Result<Typed<'a>, Memory>
    ensures value { IfOk result (λ m. meaning m.value ≡ e.eval (expr_view expr.now) row.now) }
    ensures ty { IfOk result (λ m. m.ty ≡ ty_of (expr_view expr.now)) }
{
    match expr {
        Expr::Column { col, ty } => column(*col, *ty, row),
        Expr::Literal { value, ty } => literal(value, *ty),
        Expr::And(exprs) => and(alloc, exprs, row),
        Expr::Or(exprs) => or(alloc, exprs, row),
        Expr::Case { whens, otherwise } => {
            case(alloc, chosen(alloc, whens, row)?, otherwise, whens, row)
        }
        Expr::Coalesce(exprs) => coalesce(alloc, exprs, row),
        Expr::Neg(value)
        | Expr::Not(value)
        | Expr::IsNull(value)
        | Expr::Cast { value, .. }
        | Expr::CharLength(value)
        | Expr::InList { value, .. }
        | Expr::Arith { left: value, .. }
        | Expr::Compare { left: value, .. }
        | Expr::NullIf { left: value, .. }
        | Expr::Concat { left: value, .. }
        | Expr::Like { value, .. } => {
            let first = found(alloc, value, row)?;
            with_first(alloc, expr, first, row)
        }
    }
}

// A form that begins with an operand, at what that one was found to be.
#[cycle(eval)]
#[tactic(auto, unfolding(crate::specs::View::expr_view, crate::specs::View::when_view))]
fn with_first<'a>(
    alloc: Global,
    expr: &'a Expr,
    first: Typed<'a>,
    row: &'a [Value],
) -> Result<Typed<'a>, Memory>
    ensures value { IfOk result (λ m. meaning m.value ≡ with_first (expr_view expr.now) first.entry.ty (meaning first.entry.value) row.now) }
    ensures ty { IfOk result (λ m. m.ty ≡ ty_with_first (expr_view expr.now) first.entry.ty) }
{
    match expr {
        Expr::Neg(_) => Ok(neg(first)),
        Expr::Not(_) => Ok(truths(negation(first.value))),
        Expr::IsNull(_) => Ok(truths(null_test(first.value))),
        Expr::Cast { ty, .. } => cast(alloc, *ty, first),
        Expr::CharLength(_) => Ok(length_of(first)),
        Expr::InList { items, .. } => {
            let Typed { ty, value } = first;
            match value {
                None => Ok(truths(None)),
                Some(value) => in_list(alloc, ty, value.as_value(), items, row),
            }
        }
        Expr::Arith { op, right, .. } => Ok(arith(*op, first, found(alloc, right, row)?)),
        Expr::Compare { op, right, .. } => Ok(compare(*op, first, found(alloc, right, row)?)),
        Expr::NullIf { right, .. } => Ok(null_if_of(first, found(alloc, right, row)?)),
        Expr::Concat { right, .. } => concat(alloc, first, found(alloc, right, row)?),
        Expr::Like { pattern, .. } => like(alloc, first, found(alloc, pattern, row)?),
        Expr::Column { .. }
        | Expr::Literal { .. }
        | Expr::And(_)
        | Expr::Or(_)
        | Expr::Case { .. }
        | Expr::Coalesce(_) => Ok(truths(None)),
    }
}

fn column<'a>(col: u32, ty: Ty, row: &'a [Value]) -> Result<Typed<'a>, Memory>
    ensures value { IfOk result (λ m. meaning m.value ≡ Some (e.cell col row.now)) }
    ensures ty { IfOk result (λ m. m.ty ≡ ty) }
{
    Ok(Typed {
        ty,
        value: Some(cell(row, col)),
    })
}

fn literal<'a>(value: &'a Value, ty: Ty) -> Result<Typed<'a>, Memory>
    ensures value { IfOk result (λ m. meaning m.value ≡ Some value.now) }
    ensures ty { IfOk result (λ m. m.ty ≡ ty) }
{
    Ok(Typed {
        ty,
        value: Some(Found::Lent(value)),
    })
}

fn neg<'a>(of: Typed<'a>) -> Typed<'a>
    ensures value { meaning result.value ≡ minus of.entry.ty (meaning of.entry.value) }
    ensures ty { result.ty ≡ of.entry.ty }
{
    let Typed { ty, value } = of;
    Typed {
        ty,
        value: minus(ty, value),
    }
}

fn cast<'a>(alloc: Global, to: Ty, of: Typed<'a>) -> Result<Typed<'a>, Memory>
    ensures value { IfOk result (λ m. meaning m.value ≡ conversion of.entry.ty to (meaning of.entry.value)) }
    ensures ty { IfOk result (λ m. m.ty ≡ to) }
{
    let Typed { ty, value } = of;
    Ok(Typed {
        ty: to,
        value: conversion(alloc, ty, to, value)?,
    })
}

fn length_of<'a>(of: Typed<'a>) -> Typed<'a>
    ensures value { meaning result.value ≡ char_length (meaning of.entry.value) }
    ensures ty { result.ty ≡ Int }
{
    Typed {
        ty: Ty::Int,
        value: char_length(of.value),
    }
}

fn arith<'a>(op: ArithOp, left: Typed<'a>, right: Typed<'a>) -> Typed<'a>
    ensures value { meaning result.value ≡ arithmetic op left.entry.ty right.entry.ty (meaning left.entry.value) (meaning right.entry.value) }
    ensures ty { result.ty ≡ arith_ty op left.entry.ty right.entry.ty }
{
    Typed {
        ty: arith_ty(op, left.ty, right.ty),
        value: arithmetic(op, left.ty, right.ty, left.value, right.value),
    }
}

fn compare<'a>(op: CompareOp, left: Typed<'a>, right: Typed<'a>) -> Typed<'a>
    ensures value { meaning result.value ≡ comparison op left.entry.ty right.entry.ty (meaning left.entry.value) (meaning right.entry.value) }
    ensures ty { result.ty ≡ Truths }
{
    truths(comparison(op, left.ty, right.ty, left.value, right.value))
}

fn null_if_of<'a>(left: Typed<'a>, right: Typed<'a>) -> Typed<'a>
    ensures value { meaning result.value ≡ null_if left.entry.ty right.entry.ty (meaning left.entry.value) (meaning right.entry.value) }
    ensures ty { result.ty ≡ left.entry.ty }
{
    Typed {
        ty: left.ty,
        value: null_if(left.ty, right.ty, left.value, right.value),
    }
}

fn concat<'a>(alloc: Global, left: Typed<'a>, right: Typed<'a>) -> Result<Typed<'a>, Memory>
    ensures value { IfOk result (λ m. meaning m.value ≡ concatenation (meaning left.entry.value) (meaning right.entry.value)) }
    ensures ty { IfOk result (λ m. m.ty ≡ Texts) }
{
    Ok(Typed {
        ty: Ty::Text,
        value: concatenation(alloc, left.value, right.value)?,
    })
}

fn like<'a>(alloc: Global, left: Typed<'a>, right: Typed<'a>) -> Result<Typed<'a>, Memory>
    ensures value { IfOk result (λ m. meaning m.value ≡ likeness (meaning left.entry.value) (meaning right.entry.value)) }
    ensures ty { IfOk result (λ m. m.ty ≡ Truths) }
{
    Ok(truths(likeness(alloc, left.value, right.value)?))
}

// A column of a row.
fn cell<'a>(row: &'a [Value], col: u32) -> Found<'a>
    ensures { held result ≡ e.cell col row.now }
{
    match row.get(col as usize) {
        None => Found::Made(Value::Null),
        Some(value) => Found::Lent(value),
    }
}

fn truths<'a>(value: Meaning<'a>) -> Typed<'a>
    ensures value { meaning result.value ≡ meaning value.entry }
    ensures ty { result.ty ≡ Truths }
{
    Typed {
        ty: Ty::Bool,
        value,
    }
}

#[cycle(eval)]
#[tactic(auto, using(crate::proofs::Lists::all_out))]
fn and<'a>(alloc: Global, exprs: &'a Exprs, row: &'a [Value]) -> Result<Typed<'a>, Memory>
    ensures value { IfOk result (λ m. meaning m.value ≡ e.eval (x.And (expr_list (exprs_view exprs.now))) row.now) }
    ensures ty { IfOk result (λ m. m.ty ≡ Truths) }
{
    let mut all = Value::Bool(true);
    for expr in exprs.as_slice() {
        match found(alloc, expr, row)?.value {
            None => return Ok(truths(None)),
            Some(value) => all = and_of(&all, value.as_value()),
        }
    }
    Ok(truths(Some(Found::Made(all))))
}

#[cycle(eval)]
#[tactic(auto, using(crate::proofs::Lists::all_out))]
fn or<'a>(alloc: Global, exprs: &'a Exprs, row: &'a [Value]) -> Result<Typed<'a>, Memory>
    ensures value { IfOk result (λ m. meaning m.value ≡ e.eval (x.Or (expr_list (exprs_view exprs.now))) row.now) }
    ensures ty { IfOk result (λ m. m.ty ≡ Truths) }
{
    let mut all = Value::Bool(false);
    for expr in exprs.as_slice() {
        match found(alloc, expr, row)?.value {
            None => return Ok(truths(None)),
            Some(value) => all = or_of(&all, value.as_value()),
        }
    }
    Ok(truths(Some(Found::Made(all))))
}

#[cycle(eval)]
#[tactic(auto, using(crate::proofs::Lists::items_out))]
fn in_list<'a>(
    alloc: Global,
    ty: Ty,
    value: &Value,
    items: &'a Exprs,
    row: &'a [Value],
) -> Result<Typed<'a>, Memory>
    ensures value { IfOk result (λ m. meaning m.value ≡ in_list_of ty value.now (e.typed_evals (expr_list (exprs_view items.now)) row.now)) }
    ensures ty { IfOk result (λ m. m.ty ≡ Truths) }
{
    let mut any = Value::Bool(false);
    for item in items.as_slice() {
        let Typed {
            ty: item_ty,
            value: item,
        } = found(alloc, item, row)?;
        match item {
            None => return Ok(truths(None)),
            Some(item) => {
                let equal = compare_of(CompareOp::Eq, ty, item_ty, value, item.as_value());
                any = or_of(&any, &equal);
            }
        }
    }
    Ok(truths(Some(Found::Made(any))))
}

#[cycle(eval)]
fn coalesce<'a>(alloc: Global, exprs: &'a Exprs, row: &'a [Value]) -> Result<Typed<'a>, Memory>
    ensures value { IfOk result (λ m. meaning m.value ≡ e.eval (x.Coalesce (expr_list (exprs_view exprs.now))) row.now) }
    ensures ty { IfOk result (λ m. m.ty ≡ ty_of (x.Coalesce (expr_list (exprs_view exprs.now)))) }
{
    let ty = common_of(exprs);
    for expr in exprs.as_slice() {
        match found(alloc, expr, row)?.value {
            None => return Ok(Typed { ty, value: None }),
            Some(value) => {
                if !is_null(value.as_value()) {
                    return Ok(Typed {
                        ty,
                        value: Some(value),
                    });
                }
            }
        }
    }
    Ok(Typed {
        ty,
        value: Some(Found::Made(Value::Null)),
    })
}

// The result of the first branch whose condition is TRUE.
#[cycle(eval)]
#[tactic(auto, using(crate::proofs::Lists::chosen_more, crate::proofs::Lists::chosen_out, crate::proofs::Lists::chosen_here))]
fn chosen<'a>(alloc: Global, whens: &'a Whens, row: &'a [Value]) -> Result<Choice<'a>, Memory>
    ensures { IfOk result (λ c. (o : Option Cell) → with_else c o ≡ first_chosen (e.branches (when_list (whens_view whens.now)) row.now) o) }
{
    for when in whens.as_slice() {
        match found(alloc, &when.cond, row)?.value {
            None => return Ok(Choice::Chosen(None)),
            Some(truth) => {
                if is_true(truth.as_value()) {
                    return Ok(Choice::Chosen(found(alloc, &when.result, row)?.value));
                }
            }
        }
    }
    Ok(Choice::Otherwise)
}

// What was chosen, or else the ELSE, which is NULL where there is none.
#[cycle(eval)]
fn case<'a>(
    alloc: Global,
    choice: Choice<'a>,
    otherwise: &'a Option<Boxed<Expr>>,
    whens: &'a Whens,
    row: &'a [Value],
) -> Result<Typed<'a>, Memory>
    ensures value { IfOk result (λ m. meaning m.value ≡ with_else choice.entry (e.otherwise (optional_expr (option_map expr_view otherwise.now)) row.now)) }
    ensures ty { IfOk result (λ m. m.ty ≡ otherwise_ty (optional_expr (option_map expr_view otherwise.now)) (widest (result_tys (when_list (whens_view whens.now))))) }
{
    let ty = otherwise_ty(otherwise, result_ty(whens));
    match choice {
        Choice::Chosen(value) => Ok(Typed { ty, value }),
        Choice::Otherwise => match otherwise {
            None => Ok(Typed {
                ty,
                value: Some(Found::Made(Value::Null)),
            }),
            Some(expr) => Ok(Typed {
                ty,
                value: found(alloc, expr, row)?.value,
            }),
        },
    }
}
