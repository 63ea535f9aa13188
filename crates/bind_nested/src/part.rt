//! What conjuncts are bound to.
ghost use Rattle.bind_names.specs.declared.fault.BindFault.TheVariants as f;
ghost use Rattle.std.specs.Prelude.{◌≡◌, [], ◌∷◌, Ok, Err, IfOk, IsErrOf};
ghost use Rattle.std.specs.List.{list_all};
ghost use Rattle.ct_value.specs.declared.codes.ScriptCode.{ScriptCode};
ghost use Rattle.ct_expr.specs.Types as t;
ghost use Rattle.binding.specs.Queries as q;
ghost use Rattle.bind_nested.specs.PartViews.{part_view, parts_view};

use bind_names::BindFault;
use bind_nodes::Bound;
use ct_expr::Expr;
use ct_value::{Boxed, List, Memory, ScriptCode, Ty};
use query_answer::Scope;
use rel_algebra::{Pair, Pairs, Rel};
use std::alloc::Global;

/// What a top-level conjunct of a WHERE is bound to.
#[derive(Drop)]
pub enum Part {
    /// A condition on a row in reach.
    Own(Bound),
    /// Within the subquery of an EXISTS: a condition on a row outside with a row of its own, and the key pair that it may be.
    Linked {
        pair: Option<Pair>,
        condition: Bound,
    },
    /// A row in reach is to match one of these, or with `anti` none of them.
    Matched {
        anti: bool,
        right: Boxed<Rel>,
        on: Pairs,
        rest: Option<Expr>,
    },
}

/// Conjuncts, in the order in which they are written.
pub type Parts = List<Part>;

/// The columns outside, which only the WHERE of an EXISTS's subquery has in reach.
#[derive(Clone, Copy)]
pub enum Outside<'a> {
    Hidden,
    InReach(&'a Scope),
}

/// A single conjunct.
pub fn alone(alloc: Global, part: Part) -> Result<Parts, Memory>
    ensures { IfOk result (λ parts. parts_view parts ≡ part_view part ∷ []) }
{
    let mut parts = Parts::with_capacity(alloc, 1)?;
    parts.push(part)?;
    Ok(parts)
}

fn is_truths(ty: Ty) -> bool
    ensures { result ≡ t.is_truths ty }
{
    matches!(ty, Ty::Bool)
}

fn is_test(part: &Part) -> bool
    ensures { result ≡ q.is_test (part_view part.now) }
{
    match part {
        Part::Own(condition) => is_truths(condition.column.ty),
        Part::Linked { condition, .. } => is_truths(condition.column.ty),
        Part::Matched { .. } => true,
    }
}

// Whether each condition is BOOLEAN.
#[tactic(auto, using(crate::proofs::Plains::fails, crate::proofs::Plains::goes_on, crate::proofs::Plains::ends))]
fn are_tests(parts: &Parts) -> bool
    ensures { result ≡ list_all q.is_test (parts_view parts.now) }
{
    for part in parts.as_slice() {
        if !is_test(part) {
            return false;
        }
    }
    true
}

/// The same conjuncts, where each condition is BOOLEAN.
pub fn tests(parts: Parts) -> Result<Parts, BindFault>
    ensures ok { IfOk result (λ ps. q.tests (parts_view parts) ≡ Ok (parts_view ps)) }
    ensures refused { (code : ScriptCode) → IsErrOf result (f.Refused code) → q.tests (parts_view parts) ≡ Err code }
{
    if are_tests(&parts) {
        return Ok(parts);
    }
    Err(BindFault::Refused(ScriptCode::TypeMismatch))
}
