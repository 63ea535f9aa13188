//! A list with a rank over the columns of the sources.
ghost use Rattle.bind_names.specs.declared.fault.BindFault.TheVariants as f;
ghost use Rattle.std.specs.Prelude.{◌≡◌, true, Ok, Err, IfOk, IsErrOf, OnOk};
ghost use Rattle.ct_value.specs.declared.codes.ScriptCode.{ScriptCode};
ghost use Rattle.sql_syntax.specs.Tree.{items as item_list};
ghost use Rattle.sql_syntax.specs.View.{items_view};
ghost use Rattle.query_answer.specs.Ranks.{with_rank};
ghost use Rattle.binding.specs.Nodes.{Bound};
ghost use Rattle.binding.specs.Queries as q;
ghost use Rattle.bind_nodes.specs.Views.{bounds_view};
ghost use Rattle.bind_clauses.specs.Views.{relation_view};
ghost use Rattle.bind_forms.specs.Views.{ranked_view};
ghost use Rattle.bind_nested.specs.RankViews.{list_view};

use crate::places::{places_bound, sorts_bound};
use bind_clauses::{Relation, each_listed};
use bind_expressions::bind_operands;
use bind_forms::Ranked;
use bind_names::{BindFault, entries_of};
use bind_nodes::Bounds;
use ct_value::{Cols, ScriptCode};
use query_answer::Scope;
use rel_algebra::Sorts;
use sql_syntax::Item;
use std::alloc::Global;

/// A list with a rank, over the columns of the sources.
#[derive(Drop)]
pub struct RankedList<'a> {
    pub list: Ranked<'a>,
    pub input: Relation,
    pub ahead: Bounds,
    pub partition: Cols,
    pub order: Sorts,
    pub behind: Bounds,
}

fn items_bound(alloc: Global, scope: &Scope, items: &[Item]) -> Result<Bounds, BindFault>
    ensures ok { IfOk result (λ xs. q.items_bound scope.now (item_list (items_view items.now)) ≡ Ok (bounds_view xs)) }
    ensures refused { (code : ScriptCode) → IsErrOf result (f.Refused code) → q.items_bound scope.now (item_list (items_view items.now)) ≡ Err code }
{
    let entries = entries_of(alloc, scope, items)?;
    each_listed(alloc, scope, &entries)
}

// At most 64 columns, with that of the rank.
#[tactic(auto, using(crate::proofs::Lists::fits, crate::proofs::Lists::many_ahead, crate::proofs::Lists::many_behind))]
fn refuse_many(ahead: &Bounds, behind: &Bounds) -> Result<(), BindFault>
    ensures ok { OnOk result ((x : Bound) → q.few (with_rank true (bounds_view ahead.now) x (bounds_view behind.now)) ≡ Ok (with_rank true (bounds_view ahead.now) x (bounds_view behind.now))) }
    ensures refused { (code : ScriptCode) → IsErrOf result (f.Refused code) → (x : Bound) → q.few (with_rank true (bounds_view ahead.now) x (bounds_view behind.now)) ≡ Err code }
{
    if ahead.len() > 63 {
        return Err(BindFault::Refused(ScriptCode::TooManyColumns));
    }
    if behind.len() > 63 - ahead.len() {
        return Err(BindFault::Refused(ScriptCode::TooManyColumns));
    }
    Ok(())
}

/// What a list with a rank is bound to over the rows that FROM and WHERE give, or its first refusal.
pub fn ranked_list<'a>(
    alloc: Global,
    list: Ranked<'a>,
    input: Relation,
) -> Result<RankedList<'a>, BindFault>
    ensures ok { IfOk result (λ x. q.ranked_list (ranked_view list.entry) (relation_view input) ≡ Ok (list_view x)) }
    ensures refused { (code : ScriptCode) → IsErrOf result (f.Refused code) → q.ranked_list (ranked_view list.entry) (relation_view input) ≡ Err code }
{
    let ahead = items_bound(alloc, &input.scope, list.ahead)?;
    bind_operands(alloc, &input.scope, list.partition, list.order)?;
    let partition = places_bound(alloc, &input.scope, list.partition)?;
    let order = sorts_bound(alloc, &input.scope, list.order)?;
    let behind = items_bound(alloc, &input.scope, list.behind)?;
    refuse_many(&ahead, &behind)?;
    Ok(RankedList {
        list,
        input,
        ahead,
        partition,
        order,
        behind,
    })
}
