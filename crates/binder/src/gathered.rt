//! What FROM and WHERE of a select are bound to, and its list over that.
ghost use Rattle.bind_names.specs.declared.fault.BindFault.TheVariants as f;
ghost use Rattle.std.specs.Prelude.{◌≡◌, None, Ok, Err, map, option_map, IfOk, IsErrOf};
ghost use Rattle.ct_value.specs.declared.codes.ScriptCode.{ScriptCode};
ghost use Rattle.sql_syntax.specs.Tree.{optional_tree};
ghost use Rattle.sql_syntax.specs.View.{select_view, view};
ghost use Rattle.query_answer.specs.Answer.{conjuncts_if};
ghost use Rattle.query_answer.specs.Ranks.{ranked_select};
ghost use Rattle.binding.specs.Queries as q;
ghost use Rattle.bind_clauses.specs.Views.{relation_view};
ghost use Rattle.bind_nested.specs.PartViews.{part_view};
ghost use Rattle.bind_forms.specs.Views.{conjunct_view, ranked_view};
ghost use Rattle.bind_nested.specs.RankViews.{framed_view};
ghost use Rattle.binder.specs.Steps.{from_list, plain_exists, ranked_exists};
ghost use Rattle.binder.specs.Views.{from_where_view};

use crate::selected::{refuse_list, selected};
use bind_clauses::{Relation, renamed};
use bind_forms::{Conjuncts, Ranked, push_conjuncts, ranked_select};
use bind_names::BindFault;
use bind_nested::{Framed, Part, Parts, bounded, exists_part, kept, ranked_list, unbounded};
use ct_catalog::Sources;
use ct_value::{Memory, ScriptCode, Text};
use sql_syntax::{Select, Tree};
use std::alloc::Global;

/// The columns in reach, with the conjuncts of WHERE that are left.
#[derive(Drop)]
pub(crate) struct FromWhere {
    pub(crate) relation: Relation,
    pub(crate) parts: Parts,
}

/// Sources side by side.
pub(crate) fn side_by_side(relation: Relation) -> Framed
    ensures { framed_view result ≡ record { relation = relation_view relation; spent = None } }
{
    Framed {
        relation,
        spent: None,
    }
}

/// A query under an alias.
pub(crate) fn under_alias(
    alloc: Global,
    alias: &Option<Text>,
    relation: Relation,
) -> Result<Framed, Memory>
    ensures { IfOk result (λ x. framed_view x ≡ record { relation = q.renamed alias.now (relation_view relation); spent = None }) }
{
    let relation = renamed(alloc, alias, relation)?;
    Ok(side_by_side(relation))
}

fn conjuncts_of<'a>(alloc: Global, condition: &'a Option<Tree>) -> Result<Conjuncts<'a>, Memory>
    ensures { IfOk result (λ found. map conjunct_view found ≡ conjuncts_if (optional_tree (option_map view condition.now))) }
{
    let mut found = Conjuncts::new(alloc);
    if let Some(tree) = condition {
        push_conjuncts(&mut found, tree)?;
    }
    Ok(found)
}

/// A query with a rank as the only source of a select.
#[tactic(auto, using(sql_syntax::proofs::laws::Views::select))]
pub(crate) fn sole(
    alloc: Global,
    free: bool,
    sources: &Sources,
    outer: &Select,
    alias: &Option<Text>,
    list: Ranked<'_>,
    gathered: FromWhere,
) -> Result<Framed, BindFault>
    ensures ok { IfOk result (λ x. from_list free sources.now (select_view outer.now) alias.now (ranked_view list.entry) (from_where_view gathered) ≡ Ok (framed_view x)) }
    ensures refused { (code : ScriptCode) → IsErrOf result (f.Refused code) → from_list free sources.now (select_view outer.now) alias.now (ranked_view list.entry) (from_where_view gathered) ≡ Err code }
{
    let relation = kept(alloc, gathered.parts, gathered.relation)?;
    let list = ranked_list(alloc, list, relation)?;
    let conjuncts = conjuncts_of(alloc, &outer.cond)?;
    bounded(alloc, free, sources, outer, alias, list, &conjuncts)
}

// The list of a select, which may have a rank.
#[tactic(auto, using(sql_syntax::proofs::laws::Views::select))]
fn listed_by(
    alloc: Global,
    free: bool,
    ranked: Option<Ranked<'_>>,
    select: &Select,
    relation: Relation,
) -> Result<Relation, BindFault>
    ensures ok { IfOk result (λ x. q.listed_by free (option_map ranked_view ranked.entry) (select_view select.now) (relation_view relation) ≡ Ok (relation_view x)) }
    ensures refused { (code : ScriptCode) → IsErrOf result (f.Refused code) → q.listed_by free (option_map ranked_view ranked.entry) (select_view select.now) (relation_view relation) ≡ Err code }
{
    match ranked {
        None => selected(
            alloc,
            select.distinct,
            &select.items,
            &select.groups,
            &select.having,
            relation,
        ),
        Some(list) => {
            let list = ranked_list(alloc, list, relation)?;
            unbounded(alloc, free, list)
        }
    }
}

/// The list of a select over the rows that FROM and WHERE give.
pub(crate) fn select_over(
    alloc: Global,
    free: bool,
    select: &Select,
    gathered: FromWhere,
) -> Result<Relation, BindFault>
    ensures ok { IfOk result (λ x. q.select_over free (select_view select.now) (from_where_view gathered) ≡ Ok (relation_view x)) }
    ensures refused { (code : ScriptCode) → IsErrOf result (f.Refused code) → q.select_over free (select_view select.now) (from_where_view gathered) ≡ Err code }
{
    let relation = kept(alloc, gathered.parts, gathered.relation)?;
    let ranked = ranked_select(alloc, select)?;
    listed_by(alloc, free, ranked, select, relation)
}

// The subquery of an EXISTS without a rank.
#[tactic(auto, using(sql_syntax::proofs::laws::Views::select))]
fn plain_exists(
    alloc: Global,
    anti: bool,
    select: &Select,
    gathered: FromWhere,
) -> Result<Part, BindFault>
    ensures ok { IfOk result (λ p. plain_exists anti (select_view select.now) (from_where_view gathered) ≡ Ok (part_view p)) }
    ensures refused { (code : ScriptCode) → IsErrOf result (f.Refused code) → plain_exists anti (select_view select.now) (from_where_view gathered) ≡ Err code }
{
    refuse_list(alloc, &gathered.relation.scope, &select.items)?;
    Ok(exists_part(alloc, anti, gathered.parts, gathered.relation)?)
}

// One with a rank, which nothing bounds.
#[tactic(auto, using(crate::proofs::OnlySources::input_same))]
fn ranked_exists(
    alloc: Global,
    free: bool,
    anti: bool,
    list: Ranked<'_>,
    gathered: FromWhere,
) -> Result<Part, BindFault>
    ensures ok { IfOk result (λ p. ranked_exists free anti (ranked_view list.entry) (from_where_view gathered) ≡ Ok (part_view p)) }
    ensures refused { (code : ScriptCode) → IsErrOf result (f.Refused code) → ranked_exists free anti (ranked_view list.entry) (from_where_view gathered) ≡ Err code }
{
    let list = ranked_list(alloc, list, gathered.relation)?;
    if !free {
        return Err(BindFault::Refused(ScriptCode::RankUnbounded));
    }
    Ok(exists_part(alloc, anti, gathered.parts, list.input)?)
}

/// The subquery of an EXISTS over the rows that FROM and WHERE give, whose list is bound though nothing is made of it.
#[tactic(auto, using(crate::proofs::OnlySources::exists_plain, crate::proofs::OnlySources::exists_ranked))]
pub(crate) fn exists_over(
    alloc: Global,
    free: bool,
    anti: bool,
    select: &Select,
    gathered: FromWhere,
) -> Result<Part, BindFault>
    ensures ok { IfOk result (λ p. q.exists_over free anti (select_view select.now) (from_where_view gathered) ≡ Ok (part_view p)) }
    ensures refused { (code : ScriptCode) → IsErrOf result (f.Refused code) → q.exists_over free anti (select_view select.now) (from_where_view gathered) ≡ Err code }
{
    match ranked_select(alloc, select)? {
        None => plain_exists(alloc, anti, select, gathered),
        Some(list) => ranked_exists(alloc, free, anti, list, gathered),
    }
}
