//! Two sources and their ON.
ghost use Rattle.bind_names.specs.declared.fault.BindFault.TheVariants as f;
ghost use Rattle.std.specs.Prelude.{◌≡◌, Ok, Err, option_map, IfOk, IsErrOf};
ghost use Rattle.ct_value.specs.declared.codes.ScriptCode.{ScriptCode};
ghost use Rattle.ct_expr.specs.View.{expr_view};
ghost use Rattle.rel_algebra.specs.Rel as r;
ghost use Rattle.rel_algebra.specs.View.{rel_view};
ghost use Rattle.sql_syntax.specs.View.{view};
ghost use Rattle.query_answer.specs.Joins as j;
ghost use Rattle.binding.specs.Queries as b;
ghost use Rattle.bind_nodes.specs.Views.{bounds_view};
ghost use Rattle.bind_clauses.specs.Views.{relation_view};
ghost use Rattle.bind_sources.specs.Splits.{accepted, accepted_tests, rest_if, tests};

use crate::sides::{columns, share_source};
use crate::split::{Parts, split};
use bind_clauses::{Relation, all_of};
use bind_expressions::{bind_conjuncts, conditions};
use bind_names::BindFault;
use bind_nodes::Bounds;
use ct_expr::Expr;
use ct_value::{Boxed, Memory, ScriptCode};
use query_answer::Scope;
use rel_algebra::{JoinKind, Pairs, Rel};
use sql_syntax::{JoinWord, Tree};
use std::alloc::Global;

// No plan has so many, and each join looks through those of its left side.
const MOST_COLUMNS: usize = 65_536;

/// The kind of join that its word tells.
pub fn kind_of(word: JoinWord) -> JoinKind
    ensures { result ≡ j.kind_of word }
{
    match word {
        JoinWord::Inner => JoinKind::Inner,
        JoinWord::Left => JoinKind::Left,
        JoinWord::Right => JoinKind::Right,
        JoinWord::Full => JoinKind::Full,
    }
}

// What a pair of rows is tested for: the key pairs first, and then the rest.
#[derive(Drop)]
struct Tests {
    pairs: Pairs,
    rest: Option<Expr>,
}

// Refuses what a condition is refused for as a whole.
fn accept(alloc: Global, scope: &Scope, on: &Tree) -> Result<Bounds, BindFault>
    ensures ok { IfOk result (λ xs. accepted scope.now (view on.now) ≡ Ok (bounds_view xs)) }
    ensures refused { (code : ScriptCode) → IsErrOf result (f.Refused code) → accepted scope.now (view on.now) ≡ Err code }
{
    let bounds = bind_conjuncts(alloc, scope, on)?;
    conditions(bounds)
}

// The conjuncts that aren't key pairs, as one, where there are any.
fn rest_if(alloc: Global, bounds: Bounds) -> Result<Option<Expr>, BindFault>
    ensures ok { IfOk result (λ rest. rest_if (bounds_view bounds) ≡ Ok (option_map expr_view rest)) }
    ensures refused { (code : ScriptCode) → IsErrOf result (f.Refused code) → rest_if (bounds_view bounds) ≡ Err code }
{
    if bounds.is_empty() {
        return Ok(None);
    }
    let bounds = conditions(bounds)?;
    Ok(Some(all_of(alloc, bounds)?))
}

// The conjuncts of a condition that isn't refused as a whole.
fn split_on(alloc: Global, scope: &Scope, width: u32, on: &Tree) -> Result<Tests, BindFault>
    ensures ok { IfOk result (λ x. tests scope.now width (view on.now) ≡ Ok (x.pairs, option_map expr_view x.rest)) }
    ensures refused { (code : ScriptCode) → IsErrOf result (f.Refused code) → tests scope.now width (view on.now) ≡ Err code }
{
    let mut parts = Parts {
        pairs: Pairs::new(alloc),
        rest: Bounds::new(alloc),
    };
    split(alloc, &mut parts, scope, width, on)?;
    let rest = rest_if(alloc, parts.rest)?;
    Ok(Tests {
        pairs: parts.pairs,
        rest,
    })
}

fn bind_on(alloc: Global, scope: &Scope, width: u32, on: &Tree) -> Result<Tests, BindFault>
    ensures ok { IfOk result (λ x. accepted_tests scope.now width (view on.now) ≡ Ok (x.pairs, option_map expr_view x.rest)) }
    ensures refused { (code : ScriptCode) → IsErrOf result (f.Refused code) → accepted_tests scope.now width (view on.now) ≡ Err code }
{
    accept(alloc, scope, on)?;
    split_on(alloc, scope, width, on)
}

// The Join of two inputs.
#[tactic(auto, using(rel_algebra::proofs::laws::Views::view_join))]
fn join(
    alloc: Global,
    kind: JoinKind,
    left: Boxed<Rel>,
    right: Boxed<Rel>,
    tests: Tests,
) -> Result<Boxed<Rel>, Memory>
    ensures { IfOk result (λ rel. rel_view rel ≡ r.Join (rel_view left) (rel_view right) kind tests.pairs (option_map expr_view tests.rest)) }
{
    let rel = Rel::Join {
        left,
        right,
        kind,
        on: tests.pairs,
        rest: tests.rest,
    };
    Boxed::new(alloc, rel)
}

fn on_bound(
    alloc: Global,
    kind: JoinKind,
    left: Relation,
    right: Relation,
    on: &Tree,
) -> Result<Relation, BindFault>
    ensures ok { IfOk result (λ x. b.on_bound kind (relation_view left) (relation_view right) (view on.now) ≡ Ok (relation_view x)) }
    ensures refused { (code : ScriptCode) → IsErrOf result (f.Refused code) → b.on_bound kind (relation_view left) (relation_view right) (view on.now) ≡ Err code }
{
    let width = left.scope.len();
    let Ok(places) = u32::try_from(width) else {
        return Err(BindFault::Memory);
    };
    let mut both = left.scope;
    both.append(right.scope)?;
    let tests = bind_on(alloc, &both, places, on)?;
    let rel = join(alloc, kind, left.rel, right.rel, tests)?;
    let scope = columns(alloc, kind, width, both)?;
    Ok(Relation { rel, scope })
}

/// Two sources as one, by the condition of their ON: refused where they share a name, and then for what the condition is refused
/// for; its conjuncts that compare a column of one side with one of the other are key pairs.
pub fn joined(
    alloc: Global,
    kind: JoinKind,
    left: Relation,
    right: Relation,
    on: &Tree,
) -> Result<Relation, BindFault>
    ensures ok { IfOk result (λ x. b.joined kind (relation_view left) (relation_view right) (view on.now) ≡ Ok (relation_view x)) }
    ensures refused { (code : ScriptCode) → IsErrOf result (f.Refused code) → b.joined kind (relation_view left) (relation_view right) (view on.now) ≡ Err code }
{
    if left.scope.len() > MOST_COLUMNS {
        return Err(BindFault::Memory);
    }
    if share_source(&left.scope, &right.scope) {
        return Err(BindFault::Refused(ScriptCode::AmbiguousColumn));
    }
    on_bound(alloc, kind, left, right, on)
}
