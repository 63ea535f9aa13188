//! The rows that the conjuncts of a WHERE keep, and what a subquery's rows are to match.
ghost use Rattle.bind_names.specs.declared.fault.BindFault.TheVariants as f;
ghost use Rattle.std.specs.Prelude.{◌≡◌, [], ◌∷◌, Ok, Err, option_map, IfOk, IsErrOf};
ghost use Rattle.ct_value.specs.declared.codes.ScriptCode.{ScriptCode};
ghost use Rattle.ct_expr.specs.View.{expr_view};
ghost use Rattle.rel_algebra.specs.View.{rel_view};
ghost use Rattle.sql_syntax.specs.View.{view};
ghost use Rattle.binding.specs.Queries as q;
ghost use Rattle.bind_nodes.specs.Views.{bound_view, bounds_view};
ghost use Rattle.bind_clauses.specs.Views.{relation_view};
ghost use Rattle.bind_nested.specs.PartViews.{part_view, parts_view};

use crate::part::{Part, Parts};
use crate::plain::width_of;
use crate::split::split;
use bind_clauses::{Relation, all_of};
use bind_names::{BindFault, Lookup, pair_found, plain_column};
use bind_nodes::{Bound, Bounds, column, compare};
use ct_expr::Expr;
use ct_value::{Boxed, ColTy, CompareOp, Memory, ScriptCode};
use query_answer::{Found, Scope};
use rel_algebra::{Pair, Pairs, Rel};
use sql_syntax::Tree;
use std::alloc::Global;

// A Filter by all conditions, if there are any.
#[tactic(auto, using(rel_algebra::proofs::laws::Views::view_filter, crate::proofs::Splits::no_filter, crate::proofs::Splits::some_filter, crate::proofs::Splits::bounds_length))]
fn where_all(alloc: Global, owns: Bounds, input: Boxed<Rel>) -> Result<Boxed<Rel>, Memory>
    ensures { IfOk result (λ rel. rel_view rel ≡ q.where_all (bounds_view owns) (rel_view input)) }
{
    if owns.is_empty() {
        return Ok(input);
    }
    let cond = all_of(alloc, owns)?;
    Boxed::new(alloc, Rel::Filter { input, cond })
}

// Conditions as one, if there are any.
#[tactic(auto, using(crate::proofs::Splits::no_rest, crate::proofs::Splits::some_rest, crate::proofs::Splits::bounds_length))]
fn all_if(alloc: Global, rests: Bounds) -> Result<Option<Expr>, Memory>
    ensures { IfOk result (λ rest. option_map expr_view rest ≡ q.all_if (bounds_view rests)) }
{
    if rests.is_empty() {
        return Ok(None);
    }
    let rest = all_of(alloc, rests)?;
    Ok(Some(rest))
}

// The rows that match a subquery's.
#[tactic(auto, using(rel_algebra::proofs::laws::Views::view_semi))]
fn matched(alloc: Global, part: Part, left: Boxed<Rel>) -> Result<Boxed<Rel>, Memory>
    ensures { IfOk result (λ rel. rel_view rel ≡ q.all_matched (part_view part ∷ []) (rel_view left)) }
{
    match part {
        Part::Own(_) | Part::Linked { .. } => Ok(left),
        Part::Matched {
            anti,
            right,
            on,
            rest,
        } => {
            let rel = Rel::Semi {
                left,
                right,
                anti,
                on,
                rest,
            };
            Boxed::new(alloc, rel)
        }
    }
}

// One subquery after the other.
#[tactic(auto, using(crate::proofs::Splits::matched_first))]
fn all_matched(alloc: Global, parts: Parts, input: Boxed<Rel>) -> Result<Boxed<Rel>, Memory>
    ensures { IfOk result (λ rel. rel_view rel ≡ q.all_matched (parts_view parts) (rel_view input)) }
{
    let mut all = input;
    for part in parts.into_vec() {
        all = matched(alloc, part, all)?;
    }
    Ok(all)
}

// The conditions on rows in reach come first.
fn kept_rel(
    alloc: Global,
    owns: Bounds,
    subqueries: Parts,
    input: Boxed<Rel>,
) -> Result<Boxed<Rel>, Memory>
    ensures { IfOk result (λ rel. rel_view rel ≡ q.all_matched (parts_view subqueries) (q.where_all (bounds_view owns) (rel_view input))) }
{
    let rel = where_all(alloc, owns, input)?;
    all_matched(alloc, subqueries, rel)
}

/// The rows in reach that the conjuncts keep, but for those that look outside.
#[tactic(auto, using(crate::proofs::Splits::only_subqueries))]
pub fn kept(alloc: Global, parts: Parts, relation: Relation) -> Result<Relation, Memory>
    ensures { IfOk result (λ x. relation_view x ≡ q.kept (parts_view parts) (relation_view relation)) }
{
    let shares = split(alloc, parts)?;
    let rel = kept_rel(alloc, shares.owns, shares.subqueries, relation.rel)?;
    Ok(Relation {
        rel,
        scope: relation.scope,
    })
}

/// What the rows of an EXISTS's subquery are to match: its conjuncts, over the rows of its sources. With `anti` none is to match.
#[tactic(auto, using(crate::proofs::Splits::only_subqueries))]
pub fn exists_part(
    alloc: Global,
    anti: bool,
    parts: Parts,
    relation: Relation,
) -> Result<Part, Memory>
    ensures { IfOk result (λ p. part_view p ≡ q.exists_part anti (parts_view parts) (relation_view relation)) }
{
    let shares = split(alloc, parts)?;
    let right = kept_rel(alloc, shares.owns, shares.subqueries, relation.rel)?;
    let rest = all_if(alloc, shares.rests)?;
    Ok(Part::Matched {
        anti,
        right,
        on: shares.links,
        rest,
    })
}

/// The condition that a conjunct is on a row in reach; a tree that looks outside isn't compared with a query.
pub fn own_value(part: Part) -> Result<Bound, BindFault>
    ensures ok { IfOk result (λ a. q.own_value (part_view part) ≡ Ok (bound_view a)) }
    ensures refused { (code : ScriptCode) → IsErrOf result (f.Refused code) → q.own_value (part_view part) ≡ Err code }
{
    match part {
        Part::Own(value) => Ok(value),
        Part::Linked { .. } | Part::Matched { .. } => {
            Err(BindFault::Refused(ScriptCode::Unsupported))
        }
    }
}

// The column of a query that has one.
fn only_column(scope: &Scope) -> Result<ColTy, BindFault>
    ensures ok { IfOk result (λ ty. q.only_column scope.now ≡ Ok ty) }
    ensures refused { (code : ScriptCode) → IsErrOf result (f.Refused code) → q.only_column scope.now ≡ Err code }
{
    match scope.as_slice() {
        [column] => Ok(column.ty),
        [] | [_, _, ..] => Err(BindFault::Refused(ScriptCode::Unsupported)),
    }
}

// A key pair, or else an equation.
fn matched_by(
    alloc: Global,
    pair: Option<Pair>,
    right: Boxed<Rel>,
    equal: Bound,
) -> Result<Part, Memory>
    ensures { IfOk result (λ p. part_view p ≡ q.matched_by pair (rel_view right) (bound_view equal)) }
{
    let mut on = Pairs::new(alloc);
    let rest = match pair {
        Some(pair) => {
            on.push(pair)?;
            None
        }
        None => Some(Boxed::into_inner(equal.expr)),
    };
    Ok(Part::Matched {
        anti: false,
        right,
        on,
        rest,
    })
}

/// A tree, bound to a value, equals the one column of a query. A query of no or several columns is refused.
pub fn member_part(
    alloc: Global,
    own: &Scope,
    tree: &Tree,
    value: Bound,
    query: Relation,
) -> Result<Part, BindFault>
    ensures ok { IfOk result (λ p. q.member_part own.now (view tree.now) (bound_view value) (relation_view query) ≡ Ok (part_view p)) }
    ensures refused { (code : ScriptCode) → IsErrOf result (f.Refused code) → q.member_part own.now (view tree.now) (bound_view value) (relation_view query) ≡ Err code }
{
    let ty = only_column(&query.scope)?;
    let width = width_of(own)?;
    let other = column(alloc, width, ty)?;
    let equal = compare(alloc, CompareOp::Eq, value, other)?;
    let found = plain_column(Lookup::Own(own), tree)?;
    let pair = pair_found(width, found, Found::At(width, ty));
    Ok(matched_by(alloc, pair, query.rel, equal)?)
}
