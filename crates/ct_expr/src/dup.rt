//! Equal trees.
ghost use Rattle.std.specs.Prelude.{◌≡◌, IfOk, option_map};
ghost use Rattle.ct_expr.specs.Expr as x;
ghost use Rattle.ct_expr.specs.View.{expr_view, exprs_view, when_view, whens_view};

use crate::{ArithOp, Expr, Exprs, When, Whens};
use ct_value::{Boxed, CompareOp, Memory, Ty, Value};

impl Expr {
    /// An equal expression, in the memory that this one lies in.
    #[cycle(dup)]
    #[tactic(auto, unfolding(crate::specs::View::expr_view, crate::specs::View::when_view))]
    pub fn dup(&self) -> Result<Expr, Memory>
        ensures { IfOk result (λ copy. expr_view copy ≡ expr_view self.now) }
    {
        // Each variant is made by a function of its own: this one is on the stack once for each level, and pays there for its locals.
        match self {
            Expr::Column { col, ty } => column(*col, *ty),
            Expr::Literal { value, ty } => literal(value, *ty),
            Expr::Neg(value) => neg(dup_part(value)?),
            Expr::Arith { op, left, right } => arith(*op, dup_part(left)?, dup_part(right)?),
            Expr::Compare { op, left, right } => compare(*op, dup_part(left)?, dup_part(right)?),
            Expr::And(exprs) => and(dup_exprs(exprs)?),
            Expr::Or(exprs) => or(dup_exprs(exprs)?),
            Expr::Not(value) => not(dup_part(value)?),
            Expr::IsNull(value) => is_null(dup_part(value)?),
            Expr::InList { value, items } => in_list(dup_part(value)?, dup_exprs(items)?),
            Expr::Case { whens, otherwise } => case(dup_whens(whens)?, dup_otherwise(otherwise)?),
            Expr::Coalesce(exprs) => coalesce(dup_exprs(exprs)?),
            Expr::NullIf { left, right } => null_if(dup_part(left)?, dup_part(right)?),
            Expr::Cast { value, ty } => cast(dup_part(value)?, *ty),
            Expr::Concat { left, right } => concat(dup_part(left)?, dup_part(right)?),
            Expr::CharLength(value) => char_length(dup_part(value)?),
            Expr::Like { value, pattern } => like(dup_part(value)?, dup_part(pattern)?),
        }
    }
}

#[tactic(auto, using(crate::proofs::laws::Views::view_column))]
fn column(col: u32, ty: Ty) -> Result<Expr, Memory>
    ensures { IfOk result (λ made. expr_view made ≡ x.Column col ty) }
{
    Ok(Expr::Column { col, ty })
}

#[tactic(auto, using(crate::proofs::laws::Views::view_literal))]
fn literal(value: &Value, ty: Ty) -> Result<Expr, Memory>
    ensures { IfOk result (λ made. expr_view made ≡ x.Literal value.now ty) }
{
    Ok(Expr::Literal {
        value: value.dup()?,
        ty,
    })
}

#[tactic(auto, using(crate::proofs::laws::Views::view_neg))]
fn neg(value: Boxed<Expr>) -> Result<Expr, Memory>
    ensures { IfOk result (λ made. expr_view made ≡ x.Neg (expr_view value)) }
{
    Ok(Expr::Neg(value))
}

#[tactic(auto, using(crate::proofs::laws::Views::view_not))]
fn not(value: Boxed<Expr>) -> Result<Expr, Memory>
    ensures { IfOk result (λ made. expr_view made ≡ x.Not (expr_view value)) }
{
    Ok(Expr::Not(value))
}

#[tactic(auto, using(crate::proofs::laws::Views::view_is_null))]
fn is_null(value: Boxed<Expr>) -> Result<Expr, Memory>
    ensures { IfOk result (λ made. expr_view made ≡ x.IsNull (expr_view value)) }
{
    Ok(Expr::IsNull(value))
}

#[tactic(auto, using(crate::proofs::laws::Views::view_char_length))]
fn char_length(value: Boxed<Expr>) -> Result<Expr, Memory>
    ensures { IfOk result (λ made. expr_view made ≡ x.CharLength (expr_view value)) }
{
    Ok(Expr::CharLength(value))
}

#[tactic(auto, using(crate::proofs::laws::Views::view_cast))]
fn cast(value: Boxed<Expr>, ty: Ty) -> Result<Expr, Memory>
    ensures { IfOk result (λ made. expr_view made ≡ x.Cast (expr_view value) ty) }
{
    Ok(Expr::Cast { value, ty })
}

#[tactic(auto, using(crate::proofs::laws::Views::view_and))]
fn and(exprs: Exprs) -> Result<Expr, Memory>
    ensures { IfOk result (λ made. expr_view made ≡ x.And (x.exprs (exprs_view exprs))) }
{
    Ok(Expr::And(exprs))
}

#[tactic(auto, using(crate::proofs::laws::Views::view_or))]
fn or(exprs: Exprs) -> Result<Expr, Memory>
    ensures { IfOk result (λ made. expr_view made ≡ x.Or (x.exprs (exprs_view exprs))) }
{
    Ok(Expr::Or(exprs))
}

#[tactic(auto, using(crate::proofs::laws::Views::view_coalesce))]
fn coalesce(exprs: Exprs) -> Result<Expr, Memory>
    ensures { IfOk result (λ made. expr_view made ≡ x.Coalesce (x.exprs (exprs_view exprs))) }
{
    Ok(Expr::Coalesce(exprs))
}

#[tactic(auto, using(crate::proofs::laws::Views::view_arith))]
fn arith(op: ArithOp, left: Boxed<Expr>, right: Boxed<Expr>) -> Result<Expr, Memory>
    ensures { IfOk result (λ made. expr_view made ≡ x.Arith op (expr_view left) (expr_view right)) }
{
    Ok(Expr::Arith { op, left, right })
}

#[tactic(auto, using(crate::proofs::laws::Views::view_compare))]
fn compare(op: CompareOp, left: Boxed<Expr>, right: Boxed<Expr>) -> Result<Expr, Memory>
    ensures { IfOk result (λ made. expr_view made ≡ x.Compare op (expr_view left) (expr_view right)) }
{
    Ok(Expr::Compare { op, left, right })
}

#[tactic(auto, using(crate::proofs::laws::Views::view_null_if))]
fn null_if(left: Boxed<Expr>, right: Boxed<Expr>) -> Result<Expr, Memory>
    ensures { IfOk result (λ made. expr_view made ≡ x.NullIf (expr_view left) (expr_view right)) }
{
    Ok(Expr::NullIf { left, right })
}

#[tactic(auto, using(crate::proofs::laws::Views::view_concat))]
fn concat(left: Boxed<Expr>, right: Boxed<Expr>) -> Result<Expr, Memory>
    ensures { IfOk result (λ made. expr_view made ≡ x.Concat (expr_view left) (expr_view right)) }
{
    Ok(Expr::Concat { left, right })
}

#[tactic(auto, using(crate::proofs::laws::Views::view_like))]
fn like(value: Boxed<Expr>, pattern: Boxed<Expr>) -> Result<Expr, Memory>
    ensures { IfOk result (λ made. expr_view made ≡ x.Like (expr_view value) (expr_view pattern)) }
{
    Ok(Expr::Like { value, pattern })
}

#[tactic(auto, using(crate::proofs::laws::Views::view_in_list))]
fn in_list(value: Boxed<Expr>, items: Exprs) -> Result<Expr, Memory>
    ensures { IfOk result (λ made. expr_view made ≡ x.InList (expr_view value) (x.exprs (exprs_view items))) }
{
    Ok(Expr::InList { value, items })
}

#[tactic(auto, using(crate::proofs::laws::Views::view_case))]
fn case(whens: Whens, otherwise: Option<Boxed<Expr>>) -> Result<Expr, Memory>
    ensures { IfOk result (λ made. expr_view made ≡ x.Case (x.whens (whens_view whens)) (x.optional_expr (option_map expr_view otherwise))) }
{
    Ok(Expr::Case { whens, otherwise })
}

#[cycle(dup)]
fn dup_part(part: &Boxed<Expr>) -> Result<Boxed<Expr>, Memory>
    ensures { IfOk result (λ copy. expr_view copy ≡ expr_view part.now) }
{
    Boxed::beside(part, part.dup()?)
}

/// Equal expressions, in the memory that these lie in.
#[cycle(dup)]
pub fn dup_exprs(exprs: &Exprs) -> Result<Exprs, Memory>
    ensures { IfOk result (λ copies. exprs_view copies ≡ exprs_view exprs.now) }
{
    let mut copies = exprs.beside();
    for expr in exprs.as_slice() {
        copies.push(expr.dup()?)?;
    }
    Ok(copies)
}

#[cycle(dup)]
fn dup_whens(whens: &Whens) -> Result<Whens, Memory>
    ensures { IfOk result (λ copies. whens_view copies ≡ whens_view whens.now) }
{
    let mut copies = whens.beside();
    for when in whens.as_slice() {
        copies.push(dup_when(when)?)?;
    }
    Ok(copies)
}

#[cycle(dup)]
#[tactic(auto, using(crate::proofs::laws::Views::view_when))]
fn dup_when(when: &When) -> Result<When, Memory>
    ensures { IfOk result (λ copy. when_view copy ≡ when_view when.now) }
{
    let cond = when.cond.dup()?;
    let outcome = when.result.dup()?;
    Ok(When {
        cond,
        result: outcome,
    })
}

#[cycle(dup)]
fn dup_otherwise(otherwise: &Option<Boxed<Expr>>) -> Result<Option<Boxed<Expr>>, Memory>
    ensures { IfOk result (λ copy. option_map expr_view copy ≡ option_map expr_view otherwise.now) }
{
    match otherwise {
        None => Ok(None),
        Some(expr) => Ok(Some(Boxed::beside(expr, expr.dup()?)?)),
    }
}
