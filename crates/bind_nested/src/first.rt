//! The first rows of each partition, with the list over them.
ghost use Rattle.bind_names.specs.declared.fault.BindFault.TheVariants as f;
ghost use Rattle.std.specs.Prelude.{◌≡◌, Ok, Err, length, IfOk, IsErrOf};
ghost use Rattle.ct_value.specs.declared.codes.ScriptCode.{ScriptCode};
ghost use Rattle.rel_algebra.specs.Rel as r;
ghost use Rattle.rel_algebra.specs.View.{rel_view};
ghost use Rattle.rel_algebra.specs.Ranks.{rank_columns};
ghost use Rattle.query_answer.specs.Answer.{types};
ghost use Rattle.query_answer.specs.Ranks.{with_rank};
ghost use Rattle.binding.specs.Queries as q;
ghost use Rattle.bind_nodes.specs.Views.{bound_view, bounds_view};
ghost use Rattle.bind_clauses.specs.Views.{relation_view};
ghost use Rattle.bind_nested.specs.Sorts.{with_bound};
ghost use Rattle.bind_nested.specs.RankViews.{list_view};

use crate::list::RankedList;
use bind_clauses::{Relation, finished};
use bind_forms::ranked_entries;
use bind_names::BindFault;
use bind_nodes::{Bound, Bounds, column};
use ct_value::{Boxed, ColTy, Cols, Memory, ScriptCode, Ty};
use query_answer::Scope;
use rel_algebra::{Rel, Sorts};
use std::alloc::Global;

// The rank is the column behind those of the sources.
fn rank_bound(alloc: Global, scope: &Scope) -> Result<Bound, Memory>
    ensures { IfOk result (λ x. bound_view x ≡ q.rank_bound scope.now) }
{
    let Ok(place) = u32::try_from(scope.len()) else {
        return Err(Memory);
    };
    let ty = ColTy {
        ty: Ty::BigInt,
        nullable: false,
    };
    match column(alloc, place, ty) {
        Ok(bound) => Ok(bound),
        Err(_) => Err(Memory),
    }
}

fn with_bound(alloc: Global, kept: bool, bounds: Bounds, scope: &Scope) -> Result<Bounds, Memory>
    ensures { IfOk result (λ all. bounds_view all ≡ with_bound kept (bounds_view bounds) (q.rank_bound scope.now)) }
{
    let mut all = bounds;
    if kept {
        all.push(rank_bound(alloc, scope)?)?;
    }
    Ok(all)
}

#[tactic(auto, using(crate::proofs::Firsts::all_bound))]
fn with_rank(
    alloc: Global,
    kept: bool,
    ahead: Bounds,
    behind: Bounds,
    scope: &Scope,
) -> Result<Bounds, Memory>
    ensures { IfOk result (λ all. bounds_view all ≡ with_rank kept (bounds_view ahead) (q.rank_bound scope.now) (bounds_view behind)) }
{
    let mut all = with_bound(alloc, kept, ahead, scope)?;
    all.append(behind)?;
    Ok(all)
}

// How many columns the rows have.
#[tactic(auto, using(crate::proofs::Firsts::wide, crate::proofs::Firsts::not_wide))]
fn width(kept: bool, scope: &Scope) -> Result<usize, Memory>
    ensures { IfOk result (λ n. n ≡ length (rank_columns kept (types scope.now))) }
{
    if !kept {
        return Ok(scope.len());
    }
    scope.len().checked_add(1).ok_or(Memory)
}

#[tactic(auto, using(rel_algebra::proofs::laws::Views::view_rank))]
fn rank(
    alloc: Global,
    input: Boxed<Rel>,
    partition: Cols,
    order: Sorts,
    bound: u32,
    ranked: bool,
) -> Result<Boxed<Rel>, Memory>
    ensures { IfOk result (λ rel. rel_view rel ≡ r.Rank (rel_view input) partition order bound ranked) }
{
    let rel = Rel::Rank {
        input,
        partition,
        order,
        bound,
        ranked,
    };
    Boxed::new(alloc, rel)
}

/// The first rows of each partition, so many, and the list over them, with the rank where it is kept.
pub fn first_ranked(
    alloc: Global,
    most: u32,
    kept: bool,
    list: RankedList<'_>,
) -> Result<Relation, Memory>
    ensures { IfOk result (λ x. relation_view x ≡ q.first_ranked most kept (list_view list.entry)) }
{
    let input = list.input;
    let entries = ranked_entries(alloc, kept, &input.scope, list.list)?;
    let bounds = with_rank(alloc, kept, list.ahead, list.behind, &input.scope)?;
    let width = width(kept, &input.scope)?;
    let rel = rank(alloc, input.rel, list.partition, list.order, most, kept)?;
    finished(alloc, width, &entries, bounds, rel)
}

/// A rank without a bound, which is refused unless ranks are free.
pub fn unbounded(alloc: Global, free: bool, list: RankedList<'_>) -> Result<Relation, BindFault>
    ensures ok { IfOk result (λ x. q.unbounded free (list_view list.entry) ≡ Ok (relation_view x)) }
    ensures refused { (code : ScriptCode) → IsErrOf result (f.Refused code) → q.unbounded free (list_view list.entry) ≡ Err code }
{
    if !free {
        return Err(BindFault::Refused(ScriptCode::RankUnbounded));
    }
    Ok(first_ranked(alloc, 0, true, list)?)
}
