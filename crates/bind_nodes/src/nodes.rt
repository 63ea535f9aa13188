//! Literals, sums and products, and tests.
ghost use Rattle.bind_names.specs.declared.fault.BindFault.TheVariants as f;
ghost use Rattle.std.specs.Prelude.{◌≡◌, [], ◌∷◌, Ok, Err, IfOk, IsErrOf};
ghost use Rattle.ct_value.specs.declared.codes.ScriptCode.{ScriptCode};
ghost use Rattle.ct_expr.specs.Types.{in_list_col};
ghost use Rattle.binding.specs.Nodes as n;
ghost use Rattle.binding.specs.Nodes.{columns};
ghost use Rattle.binding.specs.Expressions as e;
ghost use Rattle.bind_nodes.specs.Views.{bound_view, bounds_view};

use crate::bound::{Bound, Bounds, columns_are_truths, operands, typed};
use crate::size::{Size, together};
use bind_names::BindFault;
use ct_expr::{
    ArithOp, Expr, arith_col, compare_col, literal_col, logic_col, null_test_col, number_col,
    texts_col, truth_col,
};
use ct_value::{Boxed, ColTy, CompareOp, ScriptCode, Ty, Value};
use query_answer::Found;
use sql_syntax::{ProductWord, SumWord};
use std::alloc::Global;

/// A value of a type.
#[tactic(auto, using(ct_expr::proofs::laws::Views::view_literal))]
pub fn literal(alloc: Global, value: Value, ty: Ty) -> Result<Bound, BindFault>
    ensures ok { IfOk result (λ x. n.literal value ty ≡ Ok (bound_view x)) }
    ensures refused { (code : ScriptCode) → IsErrOf result (f.Refused code) → n.literal value ty ≡ Err code }
{
    let column = literal_col(&value, ty);
    typed(alloc, column, Size::none(), Expr::Literal { value, ty })
}

/// The number that a literal writes, with its type.
pub fn number(alloc: Global, number: Option<(i128, Ty)>) -> Result<Bound, BindFault>
    ensures ok { IfOk result (λ x. n.number number ≡ Ok (bound_view x)) }
    ensures refused { (code : ScriptCode) → IsErrOf result (f.Refused code) → n.number number ≡ Err code }
{
    match number {
        None => Err(BindFault::Refused(ScriptCode::Unsupported)),
        Some((number, ty)) => literal(alloc, Value::Num(number), ty),
    }
}

/// A column at its place, counted from 0.
#[tactic(auto, using(ct_expr::proofs::laws::Views::view_column))]
pub fn column(alloc: Global, place: u32, column: ColTy) -> Result<Bound, BindFault>
    ensures ok { IfOk result (λ x. e.column place column ≡ bound_view x) }
    ensures refused { (code : ScriptCode) → IsErrOf result (f.Refused code) → ⊥ }
{
    let expr = Boxed::new(
        alloc,
        Expr::Column {
            col: place,
            ty: column.ty,
        },
    )?;
    let size = Size::none().above()?;
    Ok(Bound { expr, column, size })
}

/// The column that a name finds; `changing` says that the name may be that of a function whose answer changes.
pub fn found_column(alloc: Global, changing: bool, found: Found) -> Result<Bound, BindFault>
    ensures ok { IfOk result (λ x. e.found_column changing found ≡ Ok (bound_view x)) }
    ensures refused { (code : ScriptCode) → IsErrOf result (f.Refused code) → e.found_column changing found ≡ Err code }
{
    match found {
        Found::Absent if changing => Err(BindFault::Refused(ScriptCode::Nondeterministic)),
        Found::Absent => Err(BindFault::Refused(ScriptCode::UnknownColumn)),
        Found::At(place, ty) => column(alloc, place, ty),
        Found::Several => Err(BindFault::Refused(ScriptCode::AmbiguousColumn)),
    }
}

/// A number with a sign before it.
#[tactic(auto, using(ct_expr::proofs::laws::Views::view_neg))]
pub fn signed(alloc: Global, minus: bool, bound: Bound) -> Result<Bound, BindFault>
    ensures ok { IfOk result (λ x. n.signed minus (bound_view bound) ≡ Ok (bound_view x)) }
    ensures refused { (code : ScriptCode) → IsErrOf result (f.Refused code) → n.signed minus (bound_view bound) ≡ Err code }
{
    let column = number_col(bound.column);
    if minus {
        return typed(alloc, column, bound.size, Expr::Neg(bound.expr));
    }
    match column {
        Some(column) => Ok(Bound {
            expr: bound.expr,
            column,
            size: bound.size,
        }),
        None => Err(BindFault::Refused(ScriptCode::TypeMismatch)),
    }
}

#[tactic(auto, using(ct_expr::proofs::laws::Views::view_arith))]
fn arith(alloc: Global, op: ArithOp, left: Bound, right: Bound) -> Result<Bound, BindFault>
    ensures ok { IfOk result (λ x. n.arith op (bound_view left) (bound_view right) ≡ Ok (bound_view x)) }
    ensures refused { (code : ScriptCode) → IsErrOf result (f.Refused code) → n.arith op (bound_view left) (bound_view right) ≡ Err code }
{
    let column = arith_col(op, left.column, right.column);
    let size = left.size.with(right.size);
    let expr = Expr::Arith {
        op,
        left: left.expr,
        right: right.expr,
    };
    typed(alloc, column, size, expr)
}

#[tactic(auto, using(ct_expr::proofs::laws::Views::view_concat))]
fn concat(alloc: Global, left: Bound, right: Bound) -> Result<Bound, BindFault>
    ensures ok { IfOk result (λ x. n.added SumWord.Concat (bound_view left) (bound_view right) ≡ Ok (bound_view x)) }
    ensures refused { (code : ScriptCode) → IsErrOf result (f.Refused code) → n.added SumWord.Concat (bound_view left) (bound_view right) ≡ Err code }
{
    let column = texts_col(Ty::Text, left.column, right.column);
    let size = left.size.with(right.size);
    let expr = Expr::Concat {
        left: left.expr,
        right: right.expr,
    };
    typed(alloc, column, size, expr)
}

/// A term of a sum more.
pub fn added(alloc: Global, word: SumWord, left: Bound, right: Bound) -> Result<Bound, BindFault>
    ensures ok { IfOk result (λ x. n.added word (bound_view left) (bound_view right) ≡ Ok (bound_view x)) }
    ensures refused { (code : ScriptCode) → IsErrOf result (f.Refused code) → n.added word (bound_view left) (bound_view right) ≡ Err code }
{
    match word {
        SumWord::Plus => arith(alloc, ArithOp::Add, left, right),
        SumWord::Minus => arith(alloc, ArithOp::Sub, left, right),
        SumWord::Concat => concat(alloc, left, right),
    }
}

/// A factor of a product more.
pub fn multiplied(
    alloc: Global,
    word: ProductWord,
    left: Bound,
    right: Bound,
) -> Result<Bound, BindFault>
    ensures ok { IfOk result (λ x. n.multiplied word (bound_view left) (bound_view right) ≡ Ok (bound_view x)) }
    ensures refused { (code : ScriptCode) → IsErrOf result (f.Refused code) → n.multiplied word (bound_view left) (bound_view right) ≡ Err code }
{
    match word {
        ProductWord::Times => arith(alloc, ArithOp::Mul, left, right),
        ProductWord::Divide | ProductWord::Modulo => {
            Err(BindFault::Refused(ScriptCode::Unsupported))
        }
    }
}

/// A comparison.
#[tactic(auto, using(ct_expr::proofs::laws::Views::view_compare))]
pub fn compare(alloc: Global, op: CompareOp, left: Bound, right: Bound) -> Result<Bound, BindFault>
    ensures ok { IfOk result (λ x. n.compare op (bound_view left) (bound_view right) ≡ Ok (bound_view x)) }
    ensures refused { (code : ScriptCode) → IsErrOf result (f.Refused code) → n.compare op (bound_view left) (bound_view right) ≡ Err code }
{
    let column = compare_col(left.column, right.column);
    let size = left.size.with(right.size);
    let expr = Expr::Compare {
        op,
        left: left.expr,
        right: right.expr,
    };
    typed(alloc, column, size, expr)
}

/// AND of conditions.
#[tactic(auto, using(ct_expr::proofs::laws::Views::view_and))]
pub fn conjunction(alloc: Global, bounds: Bounds) -> Result<Bound, BindFault>
    ensures ok { IfOk result (λ x. n.conjunction (bounds_view bounds) ≡ Ok (bound_view x)) }
    ensures refused { (code : ScriptCode) → IsErrOf result (f.Refused code) → n.conjunction (bounds_view bounds) ≡ Err code }
{
    let column = columns_are_truths(&bounds);
    let size = together(&bounds);
    let exprs = operands(alloc, bounds)?;
    typed(alloc, column, size, Expr::And(exprs))
}

/// OR of conditions.
#[tactic(auto, using(ct_expr::proofs::laws::Views::view_or))]
pub fn disjunction(alloc: Global, bounds: Bounds) -> Result<Bound, BindFault>
    ensures ok { IfOk result (λ x. n.disjunction (bounds_view bounds) ≡ Ok (bound_view x)) }
    ensures refused { (code : ScriptCode) → IsErrOf result (f.Refused code) → n.disjunction (bounds_view bounds) ≡ Err code }
{
    let column = columns_are_truths(&bounds);
    let size = together(&bounds);
    let exprs = operands(alloc, bounds)?;
    typed(alloc, column, size, Expr::Or(exprs))
}

/// NOT.
#[tactic(auto, using(ct_expr::proofs::laws::Views::view_not))]
pub fn negation(alloc: Global, bound: Bound) -> Result<Bound, BindFault>
    ensures ok { IfOk result (λ x. n.negation (bound_view bound) ≡ Ok (bound_view x)) }
    ensures refused { (code : ScriptCode) → IsErrOf result (f.Refused code) → n.negation (bound_view bound) ≡ Err code }
{
    typed(
        alloc,
        truth_col(bound.column),
        bound.size,
        Expr::Not(bound.expr),
    )
}

/// A test, or its NOT.
pub fn negated_if(alloc: Global, negated: bool, bound: Bound) -> Result<Bound, BindFault>
    ensures ok { IfOk result (λ x. n.negated_if negated (bound_view bound) ≡ Ok (bound_view x)) }
    ensures refused { (code : ScriptCode) → IsErrOf result (f.Refused code) → n.negated_if negated (bound_view bound) ≡ Err code }
{
    if negated {
        return negation(alloc, bound);
    }
    Ok(bound)
}

/// IS NULL.
#[tactic(auto, using(ct_expr::proofs::laws::Views::view_is_null))]
pub fn null_test(alloc: Global, bound: Bound) -> Result<Bound, BindFault>
    ensures ok { IfOk result (λ x. n.null_test (bound_view bound) ≡ Ok (bound_view x)) }
    ensures refused { (code : ScriptCode) → IsErrOf result (f.Refused code) → n.null_test (bound_view bound) ≡ Err code }
{
    let column = Some(null_test_col(bound.column));
    typed(alloc, column, bound.size, Expr::IsNull(bound.expr))
}

// An equal expression, where it isn't too large.
fn dup(alloc: Global, bound: &Bound) -> Result<Bound, BindFault>
    ensures ok { IfOk result (λ x. bound_view x ≡ bound_view bound.now) }
    ensures refused { (code : ScriptCode) → IsErrOf result (f.Refused code) → ⊥ }
{
    bound.size.copied()?;
    let expr = Boxed::new(alloc, bound.expr.dup()?)?;
    Ok(Bound {
        expr,
        column: bound.column,
        size: bound.size,
    })
}

// Both of two conditions.
#[tactic(auto, using(crate::proofs::Pairs::two_views))]
fn both(alloc: Global, left: Bound, right: Bound) -> Result<Bound, BindFault>
    ensures ok { IfOk result (λ x. n.conjunction (bound_view left ∷ bound_view right ∷ []) ≡ Ok (bound_view x)) }
    ensures refused { (code : ScriptCode) → IsErrOf result (f.Refused code) → n.conjunction (bound_view left ∷ bound_view right ∷ []) ≡ Err code }
{
    let mut bounds = Bounds::with_capacity(alloc, 2)?;
    bounds.push(left)?;
    bounds.push(right)?;
    conjunction(alloc, bounds)
}

/// BETWEEN: at least the low one, and at most the high one.
pub fn between(alloc: Global, value: Bound, low: Bound, high: Bound) -> Result<Bound, BindFault>
    ensures ok { IfOk result (λ x. n.between (bound_view value) (bound_view low) (bound_view high) ≡ Ok (bound_view x)) }
    ensures refused { (code : ScriptCode) → IsErrOf result (f.Refused code) → n.between (bound_view value) (bound_view low) (bound_view high) ≡ Err code }
{
    let same = dup(alloc, &value)?;
    let least = compare(alloc, CompareOp::Ge, same, low)?;
    let most = compare(alloc, CompareOp::Le, value, high)?;
    both(alloc, least, most)
}

// The column of the equalities of a value with items: there is one or more.
#[tactic(auto, using(crate::proofs::Folds::in_list_out))]
fn equalities(value: ColTy, items: &Bounds) -> Option<ColTy>
    ensures { result ≡ in_list_col value (columns (bounds_view items.now)) }
{
    if items.is_empty() {
        return None;
    }
    let mut all = ColTy {
        ty: Ty::Bool,
        nullable: false,
    };
    for item in items.as_slice() {
        all = logic_col(all, compare_col(value, item.column)?)?;
    }
    Some(all)
}

/// IN of a list.
#[tactic(auto, using(ct_expr::proofs::laws::Views::view_in_list))]
pub fn in_list(alloc: Global, value: Bound, items: Bounds) -> Result<Bound, BindFault>
    ensures ok { IfOk result (λ x. n.in_list (bound_view value) (bounds_view items) ≡ Ok (bound_view x)) }
    ensures refused { (code : ScriptCode) → IsErrOf result (f.Refused code) → n.in_list (bound_view value) (bounds_view items) ≡ Err code }
{
    let column = equalities(value.column, &items);
    let size = value.size.with(together(&items));
    let items = operands(alloc, items)?;
    let expr = Expr::InList {
        value: value.expr,
        items,
    };
    typed(alloc, column, size, expr)
}

/// LIKE.
#[tactic(auto, using(ct_expr::proofs::laws::Views::view_like))]
pub fn like(alloc: Global, value: Bound, pattern: Bound) -> Result<Bound, BindFault>
    ensures ok { IfOk result (λ x. n.like (bound_view value) (bound_view pattern) ≡ Ok (bound_view x)) }
    ensures refused { (code : ScriptCode) → IsErrOf result (f.Refused code) → n.like (bound_view value) (bound_view pattern) ≡ Err code }
{
    let column = texts_col(Ty::Bool, value.column, pattern.column);
    let size = value.size.with(pattern.size);
    let expr = Expr::Like {
        value: value.expr,
        pattern: pattern.expr,
    };
    typed(alloc, column, size, expr)
}
