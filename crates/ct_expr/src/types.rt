//! The types of expressions.
ghost use Rattle.std.specs.Prelude.{◌≡◌, ◌≤◌, nat_le, Some, option_map};
ghost use Rattle.ct_expr.specs.Expr.{exprs as expr_list, whens as when_list, optional_expr};
ghost use Rattle.ct_expr.specs.View.{expr_view, exprs_view, whens_view};
ghost use Rattle.ct_field.specs.Fields.{scale_of};
ghost use Rattle.ct_expr.specs.Types as t;
ghost use Rattle.ct_expr.specs.Types.{scale, arith_ty, number_ty, is_number, is_truths, is_texts, same_ty, common_ty, comparable, can_arith, can_cast, value_fits, ty_of, tys_of, result_tys, otherwise_ty, widest, with_ty};

use crate::values::is_null;
use crate::{ArithOp, Expr, Exprs, Whens};
use ct_field::{in_range, is_type};
use ct_value::{Boxed, ColTy, ColTys, Ty, Value};

// The decimals of a type.
pub(crate) fn scale(ty: Ty) -> u32
    ensures value { result ≡ scale ty }
    ensures most { result ≤ 38 }
{
    match ty {
        Ty::Decimal { s, .. } => s.min(38),
        _ => 0,
    }
}

fn is_number(ty: Ty) -> bool
    ensures { result ≡ is_number ty }
{
    matches!(ty, Ty::Int | Ty::BigInt | Ty::Decimal { .. })
}

/// Whether a type is BOOLEAN.
pub fn is_truths(ty: Ty) -> bool
    ensures { result ≡ is_truths ty }
{
    matches!(ty, Ty::Bool)
}

fn is_texts(ty: Ty) -> bool
    ensures { result ≡ is_texts ty }
{
    matches!(ty, Ty::Text)
}

/// Whether two types are the same.
pub fn same_ty(left: Ty, right: Ty) -> bool
    ensures { result ≡ same_ty left right }
{
    match (left, right) {
        (Ty::Bool, Ty::Bool)
        | (Ty::Int, Ty::Int)
        | (Ty::BigInt, Ty::BigInt)
        | (Ty::Text, Ty::Text) => true,
        (Ty::Decimal { p, s }, Ty::Decimal { p: q, s: t }) => p == q && s == t,
        _ => false,
    }
}

/// The common type of two types; `None` exactly where they have none.
pub fn common_ty(left: Ty, right: Ty) -> Option<Ty>
    ensures { result ≡ common_ty left right }
{
    match (left, right) {
        (Ty::Bool, Ty::Bool) => Some(Ty::Bool),
        (Ty::Int, Ty::Int) => Some(Ty::Int),
        (Ty::Int | Ty::BigInt, Ty::BigInt) | (Ty::BigInt, Ty::Int) => Some(Ty::BigInt),
        (Ty::Decimal { p, s }, Ty::Decimal { p: q, s: t }) if s == t => Some(Ty::Decimal {
            p: p.max(q),
            s,
        }),
        (Ty::Text, Ty::Text) => Some(Ty::Text),
        _ => None,
    }
}

fn comparable(left: Ty, right: Ty) -> bool
    ensures { result ≡ comparable left right }
{
    (is_number(left) && is_number(right))
        || (is_truths(left) && is_truths(right))
        || (is_texts(left) && is_texts(right))
}

// The type of a number that has these decimals beside a decimal.
fn number_ty(decimals: u32, left: Ty, right: Ty) -> Ty
    ensures { result ≡ number_ty decimals left right }
{
    match (left, right) {
        (Ty::Int, Ty::Int) => Ty::Int,
        (Ty::Int | Ty::BigInt, Ty::BigInt) | (Ty::BigInt, Ty::Int) => Ty::BigInt,
        _ => Ty::Decimal { p: 38, s: decimals },
    }
}

// The type of a sum, a difference or a product.
pub(crate) fn arith_ty(op: ArithOp, left: Ty, right: Ty) -> Ty
    ensures { result ≡ arith_ty op left right }
{
    let (left_scale, right_scale) = (scale(left), scale(right));
    match op {
        ArithOp::Add | ArithOp::Sub => number_ty(left_scale.max(right_scale), left, right),
        ArithOp::Mul => number_ty(left_scale + right_scale, left, right),
    }
}

fn can_arith(op: ArithOp, left: Ty, right: Ty) -> bool
    ensures { result ≡ can_arith op left right }
{
    is_number(left) && is_number(right) && decimals_fit(arith_ty(op, left, right))
}

fn decimals_fit(ty: Ty) -> bool
    ensures { result ≡ nat_le (scale_of ty) 38 }
{
    match ty {
        Ty::Decimal { s, .. } => s <= 38,
        _ => true,
    }
}

fn can_cast(from: Ty, to: Ty) -> bool
    ensures { result ≡ can_cast from to }
{
    (is_number(from) && (is_number(to) || is_texts(to)))
        || (is_truths(from) && (is_truths(to) || is_texts(to)))
        || (is_texts(from) && is_texts(to))
}

// Whether a value is NULL or of a type.
fn value_fits(ty: Ty, value: &Value) -> bool
    ensures { result ≡ value_fits ty value.now }
{
    match (value, ty) {
        (Value::Null, _) | (Value::Bool(_), Ty::Bool) | (Value::Text(_), Ty::Text) => true,
        (Value::Num(num), ty) => in_range(ty, *num),
        _ => false,
    }
}

// The type that an expression says of itself.
#[cycle(ty_of)]
#[tactic(auto, unfolding(crate::specs::View::expr_view, crate::specs::View::when_view))]
pub(crate) fn ty_of(expr: &Expr) -> Ty
    ensures { result ≡ ty_of (expr_view expr.now) }
{
    match expr {
        Expr::Column { ty, .. } | Expr::Literal { ty, .. } | Expr::Cast { ty, .. } => *ty,
        Expr::Neg(value) => ty_of(value),
        Expr::Arith { op, left, right } => arith_ty(*op, ty_of(left), ty_of(right)),
        Expr::Case { whens, otherwise } => otherwise_ty(otherwise, result_ty(whens)),
        Expr::Coalesce(exprs) => common_of(exprs),
        Expr::NullIf { left, .. } => ty_of(left),
        Expr::Concat { .. } => Ty::Text,
        Expr::CharLength(_) => Ty::Int,
        Expr::Compare { .. } | Expr::And(_) | Expr::Or(_) | Expr::Not(_) => Ty::Bool,
        Expr::IsNull(_) | Expr::InList { .. } | Expr::Like { .. } => Ty::Bool,
    }
}

// With one type more.
fn wider(all: Option<Ty>, ty: Ty) -> Ty
    ensures { result ≡ with_ty all ty }
{
    match all {
        None => ty,
        Some(all) => common_ty(all, ty).unwrap_or(all),
    }
}

#[cycle(ty_of)]
pub(crate) fn common_of(exprs: &Exprs) -> Ty
    ensures { result ≡ widest (tys_of (expr_list (exprs_view exprs.now))) }
{
    let mut all = None;
    for expr in exprs.as_slice() {
        all = Some(wider(all, ty_of(expr)));
    }
    all.unwrap_or(Ty::Bool)
}

#[cycle(ty_of)]
#[tactic(auto, using(crate::proofs::Lists::results_more))]
pub(crate) fn result_ty(whens: &Whens) -> Ty
    ensures { result ≡ widest (result_tys (when_list (whens_view whens.now))) }
{
    let mut all = None;
    for when in whens.as_slice() {
        all = Some(wider(all, ty_of(&when.result)));
    }
    all.unwrap_or(Ty::Bool)
}

#[cycle(ty_of)]
pub(crate) fn otherwise_ty(otherwise: &Option<Boxed<Expr>>, all: Ty) -> Ty
    ensures { result ≡ otherwise_ty (optional_expr (option_map expr_view otherwise.now)) all }
{
    match otherwise {
        None => all,
        Some(expr) => wider(Some(all), ty_of(expr)),
    }
}

/// The type of an expression over the columns of a row, and whether NULL may come. `None` exactly where the table of
/// expressions gives none. It takes no memory.
#[cycle(type_of)]
#[tactic(auto, unfolding(crate::specs::View::expr_view, crate::specs::View::when_view))]
pub fn type_of(expr: &Expr, cols: &ColTys) -> Option<ColTy>
    ensures { result ≡ t.type_of (expr_view expr.now) cols.now }
{
    match expr {
        Expr::Column { col, ty } => column_col(cols, *col, *ty),
        Expr::Literal { value, ty } => literal_col(value, *ty),
        Expr::Neg(value) => number_col(type_of(value, cols)?),
        Expr::Arith { op, left, right } => arith_col(
            *op,
            type_of(left, cols)?,
            type_of(right, cols)?,
        ),
        Expr::Compare { left, right, .. } => compare_col(
            type_of(left, cols)?,
            type_of(right, cols)?,
        ),
        Expr::And(exprs) | Expr::Or(exprs) => all_truths(exprs, cols),
        Expr::Not(value) => truth_col(type_of(value, cols)?),
        Expr::IsNull(value) => Some(null_test_col(type_of(value, cols)?)),
        Expr::InList { value, items } => in_list_col(type_of(value, cols)?, items, cols),
        Expr::Case { whens, otherwise } => {
            all_conds(whens, cols)?;
            otherwise_of(otherwise, cols, result_cols(whens, cols))
        }
        Expr::Coalesce(exprs) => coalesced(exprs, cols),
        Expr::NullIf { left, right } => null_if_col(type_of(left, cols)?, type_of(right, cols)?),
        Expr::Cast { value, ty } => cast_col(*ty, type_of(value, cols)?),
        Expr::Concat { left, right } => texts_col(
            Ty::Text,
            type_of(left, cols)?,
            type_of(right, cols)?,
        ),
        Expr::CharLength(value) => char_length_col(type_of(value, cols)?),
        Expr::Like { value, pattern } => texts_col(
            Ty::Bool,
            type_of(value, cols)?,
            type_of(pattern, cols)?,
        ),
    }
}

fn col(ty: Ty, nullable: bool) -> ColTy
    ensures { result ≡ t.col ty nullable }
{
    ColTy { ty, nullable }
}

fn column_col(cols: &ColTys, column: u32, ty: Ty) -> Option<ColTy>
    ensures { result ≡ t.column_col column ty cols.now }
{
    let found = *cols.get(column as usize)?;
    if same_ty(found.ty, ty) {
        Some(found)
    } else {
        None
    }
}

/// The column of a literal: of its type, where the value is NULL or of that type; NULL stands in it only where it is NULL.
pub fn literal_col(value: &Value, ty: Ty) -> Option<ColTy>
    ensures { result ≡ t.literal_col value.now ty }
{
    if is_type(ty) && value_fits(ty, value) {
        Some(col(ty, is_null(value)))
    } else {
        None
    }
}

/// The column of a number with a sign before it; `None` exactly where it is no number.
pub fn number_col(of: ColTy) -> Option<ColTy>
    ensures { result ≡ t.number_col of }
{
    if is_number(of.ty) { Some(of) } else { None }
}

/// The column of NOT; `None` exactly where the operand is no truth value.
pub fn truth_col(of: ColTy) -> Option<ColTy>
    ensures { result ≡ t.truth_col of }
{
    if is_truths(of.ty) { Some(of) } else { None }
}

/// The column of IS NULL, in which NULL never stands.
pub fn null_test_col(of: ColTy) -> ColTy
    ensures { Some result ≡ t.null_test_col of }
{
    let _ = of;
    col(Ty::Bool, false)
}

/// The column of a sum, a difference or a product of two numbers; `None` exactly where one is no number, or the result would have
/// more than 38 decimals.
pub fn arith_col(op: ArithOp, left: ColTy, right: ColTy) -> Option<ColTy>
    ensures { result ≡ t.arith_col op left right }
{
    if can_arith(op, left.ty, right.ty) {
        Some(col(
            arith_ty(op, left.ty, right.ty),
            left.nullable || right.nullable,
        ))
    } else {
        None
    }
}

/// The column of a comparison; `None` exactly where the two types have no order in common.
pub fn compare_col(left: ColTy, right: ColTy) -> Option<ColTy>
    ensures { result ≡ t.compare_col left right }
{
    if comparable(left.ty, right.ty) {
        Some(col(Ty::Bool, left.nullable || right.nullable))
    } else {
        None
    }
}

/// The column of AND or OR of two truth values; `None` exactly where one is none.
pub fn logic_col(left: ColTy, right: ColTy) -> Option<ColTy>
    ensures { result ≡ t.logic_col left right }
{
    if is_truths(left.ty) && is_truths(right.ty) {
        Some(col(Ty::Bool, left.nullable || right.nullable))
    } else {
        None
    }
}

/// The common column of two results of a CASE, nullable where one is; `None` exactly where they have no common type.
pub fn case_col(left: ColTy, right: ColTy) -> Option<ColTy>
    ensures { result ≡ t.case_col left right }
{
    Some(col(
        common_ty(left.ty, right.ty)?,
        left.nullable || right.nullable,
    ))
}

/// The common column of two operands of COALESCE, nullable where both are; `None` exactly where they have no common type.
pub fn coalesce_col(left: ColTy, right: ColTy) -> Option<ColTy>
    ensures { result ≡ t.coalesce_col left right }
{
    Some(col(
        common_ty(left.ty, right.ty)?,
        left.nullable && right.nullable,
    ))
}

/// The column of NULLIF: that of the first operand, nullable; `None` exactly where the two cannot be compared.
pub fn null_if_col(left: ColTy, right: ColTy) -> Option<ColTy>
    ensures { result ≡ t.null_if_col left right }
{
    if comparable(left.ty, right.ty) {
        Some(col(left.ty, true))
    } else {
        None
    }
}

/// The column of a CAST to a type; `None` exactly where there is no such cast.
pub fn cast_col(ty: Ty, of: ColTy) -> Option<ColTy>
    ensures { result ≡ t.cast_col ty of }
{
    if is_type(ty) && can_cast(of.ty, ty) {
        Some(col(ty, of.nullable))
    } else {
        None
    }
}

/// A column of this type over two texts; `None` exactly where one is no text.
pub fn texts_col(ty: Ty, left: ColTy, right: ColTy) -> Option<ColTy>
    ensures { result ≡ t.texts_col ty left right }
{
    if is_texts(left.ty) && is_texts(right.ty) {
        Some(col(ty, left.nullable || right.nullable))
    } else {
        None
    }
}

/// The column of CHAR_LENGTH; `None` exactly where the operand is no text.
pub fn char_length_col(of: ColTy) -> Option<ColTy>
    ensures { result ≡ t.char_length_col of }
{
    if is_texts(of.ty) {
        Some(col(Ty::Int, of.nullable))
    } else {
        None
    }
}

// The type of AND or OR of expressions.
#[cycle(type_of)]
#[tactic(auto, using(crate::proofs::Lists::truths_out))]
fn all_truths(exprs: &Exprs, cols: &ColTys) -> Option<ColTy>
    ensures { result ≡ t.all_truths (t.types_of (expr_list (exprs_view exprs.now)) cols.now) }
{
    if exprs.is_empty() {
        return None;
    }
    let mut all = col(Ty::Bool, false);
    for expr in exprs.as_slice() {
        all = both_truths(all, type_of(expr, cols))?;
    }
    Some(all)
}

// Two truth values, where the second is one.
fn both_truths(left: ColTy, right: Option<ColTy>) -> Option<ColTy>
    ensures { result ≡ t.both_of t.logic_col (Some left) right }
{
    logic_col(left, right?)
}

// The type of the conditions of branches together.
#[cycle(type_of)]
#[tactic(auto, using(crate::proofs::Lists::conds_out, crate::proofs::Lists::conds_more))]
fn all_conds(whens: &Whens, cols: &ColTys) -> Option<ColTy>
    ensures { result ≡ t.all_truths (t.conds_of (when_list (whens_view whens.now)) cols.now) }
{
    if whens.is_empty() {
        return None;
    }
    let mut all = col(Ty::Bool, false);
    for when in whens.as_slice() {
        all = both_truths(all, type_of(&when.cond, cols))?;
    }
    Some(all)
}

// The type of the equalities of a value with items.
#[cycle(type_of)]
#[tactic(auto, using(crate::proofs::Lists::in_list_out))]
fn in_list_col(of: ColTy, items: &Exprs, cols: &ColTys) -> Option<ColTy>
    ensures { result ≡ t.in_list_col of (t.types_of (expr_list (exprs_view items.now)) cols.now) }
{
    if items.is_empty() {
        return None;
    }
    let mut all = col(Ty::Bool, false);
    for item in items.as_slice() {
        all = one_equality(of, all, type_of(item, cols))?;
    }
    Some(all)
}

// With the equality of a value with one item more.
fn one_equality(of: ColTy, all: ColTy, item: Option<ColTy>) -> Option<ColTy>
    ensures { result ≡ t.both_of (λ a d. t.both_of t.logic_col (Some a) (t.compare_col of d)) (Some all) item }
{
    both_truths(all, compare_col(of, item?))
}

// The common type of expressions, nullable where all are.
#[cycle(type_of)]
fn coalesced(exprs: &Exprs, cols: &ColTys) -> Option<ColTy>
    ensures { result ≡ t.gather_some t.coalesce_col (t.types_of (expr_list (exprs_view exprs.now)) cols.now) }
{
    let mut all = None;
    for expr in exprs.as_slice() {
        all = Some(with_operand(all, type_of(expr, cols))?);
    }
    all
}

fn with_operand(all: Option<ColTy>, operand: Option<ColTy>) -> Option<ColTy>
    ensures { result ≡ t.begun t.coalesce_col all operand }
{
    match all {
        None => operand,
        Some(all) => coalesce_col(all, operand?),
    }
}

// The common type of the results of branches, nullable where one is.
#[cycle(type_of)]
#[tactic(auto, using(crate::proofs::Lists::cols_more, crate::proofs::Lists::cols_out))]
fn result_cols(whens: &Whens, cols: &ColTys) -> Option<ColTy>
    ensures { result ≡ t.gather_some t.case_col (t.results_of (when_list (whens_view whens.now)) cols.now) }
{
    let mut all = None;
    for when in whens.as_slice() {
        all = Some(with_result(all, type_of(&when.result, cols))?);
    }
    all
}

fn with_result(all: Option<ColTy>, result_col: Option<ColTy>) -> Option<ColTy>
    ensures { result ≡ t.begun t.case_col all result_col }
{
    match all {
        None => result_col,
        Some(all) => case_col(all, result_col?),
    }
}

// The type of results with that of the ELSE; without one NULL may come.
#[cycle(type_of)]
fn otherwise_of(
    otherwise: &Option<Boxed<Expr>>,
    cols: &ColTys,
    results: Option<ColTy>,
) -> Option<ColTy>
    ensures { result ≡ t.otherwise_of (optional_expr (option_map expr_view otherwise.now)) cols.now results }
{
    match otherwise {
        None => Some(col(results?.ty, true)),
        Some(expr) => case_col(results?, type_of(expr, cols)?),
    }
}
