//! Queries: terms, selects, their sources and joins, and the subqueries of a WHERE.
ghost use Rattle.bind_names.specs.declared.fault.BindFault.TheVariants as f;
ghost use Rattle.std.specs.Prelude.{◌≡◌, true, false, Ok, Err, option_map, IfOk, OnOk, IsErrOf};
ghost use Rattle.ct_value.specs.declared.codes.ScriptCode.{ScriptCode};
ghost use Rattle.sql_syntax.specs.Tree.{joins as join_list, optional_tree, select_tails as select_list, sort_list, term_tails as term_list, trees as tree_list};
ghost use Rattle.sql_syntax.specs.View.{joins_view, query_view, select_tails_view, select_view, sorts_view, source_view, term_tails_view, term_view, trees_view, view};
ghost use Rattle.query_answer.specs.Forms.{is_plain};
ghost use Rattle.binding.specs.Queries.{all_parts_bound, all_parts_but, beside_bound, denied_bound, exists_bound, gathered_bound, inside_bound, intersected_bound, joins_bound, parts_bound, parts_but, query_bound, select_bound, source_bound, term_bound, where_bound};
ghost use Rattle.bind_clauses.specs.Views.{relation_view, run_view};
ghost use Rattle.bind_nested.specs.PartViews.{outside_view, part_view, parts_view};
ghost use Rattle.bind_nested.specs.RankViews.{framed_view};
ghost use Rattle.binder.specs.Views.{from_where_view};
ghost use Rattle.sql_syntax.specs.Tree as t;
ghost use Rattle.binder.specs.Steps.{exists_simple, joined_framed, left_bound, member_bound, only_framed, only_part, part_bound, read_framed};

use crate::gathered::{FromWhere, exists_over, select_over, side_by_side, sole, under_alias};
use crate::spent::split_spent;
use bind_clauses::{Relation, Run, begun, by_word, closed, operated, read, renamed};
use bind_forms::ranked_query;
use bind_names::{BindFault, is_plain, is_simple, is_sole};
use bind_nested::{Framed, Outside, Part, Parts, alone, member_part, own_value, plain_part, tests};
use bind_sources::{joined, kind_of};
use ct_catalog::Sources;
use ct_value::{ScriptCode, Text};
use query_answer::Scope;
use sql_syntax::{
    JoinItems, Query, Select, SelectTails, SortList, Source, Term, TermTails, Tree, Trees,
};
use std::alloc::Global;

/// The algebra of a query over these tables, with the columns in reach over its rows; or the first refusal. Where ranks are free, one
/// without a bound keeps no rows, and is not refused.
#[cycle(query)]
pub fn bind_query(
    alloc: Global,
    free: bool,
    sources: &Sources,
    query: &Query,
) -> Result<Relation, BindFault>
    ensures ok { IfOk result (λ x. query_bound free sources.now (query_view query.now) ≡ Ok (relation_view x)) }
    ensures refused { (code : ScriptCode) → IsErrOf result (f.Refused code) → query_bound free sources.now (query_view query.now) ≡ Err code }
{
    let first = bind_term(alloc, free, sources, &query.first)?;
    let run = bind_beside(alloc, free, sources, begun(alloc, first), &query.rest)?;
    refuse_ordered(&query.order, &query.limit)?;
    Ok(closed(alloc, run)?)
}

// ORDER BY and LIMIT have no place on a query.
fn refuse_ordered(order: &SortList, limit: &Option<Text>) -> Result<(), BindFault>
    ensures ok { OnOk result (is_plain (sort_list (sorts_view order.now)) limit.now ≡ true) }
    ensures refused { (code : ScriptCode) → IsErrOf result (f.Refused code) → (is_plain (sort_list (sorts_view order.now)) limit.now ≡ false) × (code ≡ ScriptCode.Unsupported) }
{
    if is_plain(order, limit) {
        return Ok(());
    }
    Err(BindFault::Refused(ScriptCode::Unsupported))
}

// The terms behind the first, put together from the left.
#[cycle(query)]
fn bind_beside(
    alloc: Global,
    free: bool,
    sources: &Sources,
    first: Run,
    tails: &TermTails,
) -> Result<Run, BindFault>
    ensures ok { IfOk result (λ x. beside_bound free sources.now (term_list (term_tails_view tails.now)) (run_view first) ≡ Ok (run_view x)) }
    ensures refused { (code : ScriptCode) → IsErrOf result (f.Refused code) → beside_bound free sources.now (term_list (term_tails_view tails.now)) (run_view first) ≡ Err code }
{
    let mut run = first;
    for tail in tails.as_slice() {
        let term = bind_term(alloc, free, sources, &tail.term)?;
        run = by_word(alloc, tail.word, run, term)?;
    }
    Ok(run)
}

// A term, whose selects are intersected from the left.
#[cycle(query)]
fn bind_term(
    alloc: Global,
    free: bool,
    sources: &Sources,
    term: &Term,
) -> Result<Relation, BindFault>
    ensures ok { IfOk result (λ x. term_bound free sources.now (term_view term.now) ≡ Ok (relation_view x)) }
    ensures refused { (code : ScriptCode) → IsErrOf result (f.Refused code) → term_bound free sources.now (term_view term.now) ≡ Err code }
{
    let first = bind_select(alloc, free, sources, &term.first)?;
    bind_intersected(alloc, free, sources, first, &term.rest)
}

// The selects behind the first.
#[cycle(query)]
fn bind_intersected(
    alloc: Global,
    free: bool,
    sources: &Sources,
    first: Relation,
    tails: &SelectTails,
) -> Result<Relation, BindFault>
    ensures ok { IfOk result (λ x. intersected_bound free sources.now (select_list (select_tails_view tails.now)) (relation_view first) ≡ Ok (relation_view x)) }
    ensures refused { (code : ScriptCode) → IsErrOf result (f.Refused code) → intersected_bound free sources.now (select_list (select_tails_view tails.now)) (relation_view first) ≡ Err code }
{
    let mut all = first;
    for tail in tails.as_slice() {
        let select = bind_select(alloc, free, sources, &tail.select)?;
        all = operated(alloc, false, tail.all, all, select)?;
    }
    Ok(all)
}

// The clauses of a select, in the order in which they are walked.
#[cycle(query)]
fn bind_select(
    alloc: Global,
    free: bool,
    sources: &Sources,
    select: &Select,
) -> Result<Relation, BindFault>
    ensures ok { IfOk result (λ x. select_bound free sources.now (select_view select.now) ≡ Ok (relation_view x)) }
    ensures refused { (code : ScriptCode) → IsErrOf result (f.Refused code) → select_bound free sources.now (select_view select.now) ≡ Err code }
{
    let gathered = bind_from_where(alloc, free, sources, Outside::Hidden, select)?;
    select_over(alloc, free, select, gathered)
}

// FROM and WHERE of a select.
#[cycle(query)]
#[tactic(auto, using(sql_syntax::proofs::laws::Views::select))]
fn bind_from_where(
    alloc: Global,
    free: bool,
    sources: &Sources,
    outside: Outside<'_>,
    select: &Select,
) -> Result<FromWhere, BindFault>
    ensures ok { IfOk result (λ g. gathered_bound free sources.now (outside_view outside.entry) (select_view select.now) ≡ Ok (from_where_view g)) }
    ensures refused { (code : ScriptCode) → IsErrOf result (f.Refused code) → gathered_bound free sources.now (outside_view outside.entry) (select_view select.now) ≡ Err code }
{
    let framed = bind_read(alloc, free, sources, select)?;
    let own = &framed.relation.scope;
    let parts = bind_where(
        alloc,
        free,
        sources,
        framed.spent,
        outside,
        own,
        &select.cond,
    )?;
    Ok(FromWhere {
        relation: framed.relation,
        parts,
    })
}

// What a select reads.
#[cycle(query)]
fn bind_read(
    alloc: Global,
    free: bool,
    sources: &Sources,
    select: &Select,
) -> Result<Framed, BindFault>
    ensures ok { IfOk result (λ x. read_framed free sources.now (select_view select.now) ≡ Ok (framed_view x)) }
    ensures refused { (code : ScriptCode) → IsErrOf result (f.Refused code) → read_framed free sources.now (select_view select.now) ≡ Err code }
{
    if select.joins.is_empty() {
        return bind_alone(alloc, free, sources, &select.from, select);
    }
    bind_joined(alloc, free, sources, select)
}

// Sources side by side.
#[cycle(query)]
#[tactic(auto, using(sql_syntax::proofs::laws::Views::select))]
fn bind_joined(
    alloc: Global,
    free: bool,
    sources: &Sources,
    select: &Select,
) -> Result<Framed, BindFault>
    ensures ok { IfOk result (λ x. joined_framed free sources.now (select_view select.now) ≡ Ok (framed_view x)) }
    ensures refused { (code : ScriptCode) → IsErrOf result (f.Refused code) → joined_framed free sources.now (select_view select.now) ≡ Err code }
{
    let first = bind_source(alloc, free, sources, &select.from)?;
    let relation = joined_all(alloc, free, sources, first, &select.joins)?;
    Ok(side_by_side(relation))
}

// An only source.
#[cycle(query)]
#[tactic(auto, unfolding(sql_syntax::specs::View::source_view, sql_syntax::specs::View::query_view), using(crate::proofs::OnlySources::table))]
fn bind_alone(
    alloc: Global,
    free: bool,
    sources: &Sources,
    from: &Source,
    outer: &Select,
) -> Result<Framed, BindFault>
    ensures ok { IfOk result (λ x. only_framed free sources.now (select_view outer.now) (source_view from.now) ≡ Ok (framed_view x)) }
    ensures refused { (code : ScriptCode) → IsErrOf result (f.Refused code) → only_framed free sources.now (select_view outer.now) (source_view from.now) ≡ Err code }
{
    match from {
        Source::Table { name, alias } => Ok(side_by_side(read(alloc, sources, name, alias)?)),
        Source::Sub { query, alias } => {
            bind_alone_query(alloc, free, sources, query, outer, alias)
        }
    }
}

// A query as the only source, which may have a rank.
#[cycle(query)]
#[tactic(auto, using(crate::proofs::OnlySources::ranked, crate::proofs::OnlySources::unranked))]
fn bind_alone_query(
    alloc: Global,
    free: bool,
    sources: &Sources,
    query: &Query,
    outer: &Select,
    alias: &Option<Text>,
) -> Result<Framed, BindFault>
    ensures ok { IfOk result (λ x. only_framed free sources.now (select_view outer.now) (t.FromQuery (query_view query.now) alias.now) ≡ Ok (framed_view x)) }
    ensures refused { (code : ScriptCode) → IsErrOf result (f.Refused code) → only_framed free sources.now (select_view outer.now) (t.FromQuery (query_view query.now) alias.now) ≡ Err code }
{
    match ranked_query(alloc, query)? {
        None => {
            let relation = bind_query(alloc, free, sources, query)?;
            Ok(under_alias(alloc, alias, relation)?)
        }
        Some(list) => {
            let select = &query.first.first;
            let gathered = bind_from_where(alloc, free, sources, Outside::Hidden, select)?;
            sole(alloc, free, sources, outer, alias, list, gathered)
        }
    }
}

// A table, or a query among the sources.
#[cycle(query)]
#[tactic(auto, unfolding(sql_syntax::specs::View::source_view, sql_syntax::specs::View::query_view))]
fn bind_source(
    alloc: Global,
    free: bool,
    sources: &Sources,
    source: &Source,
) -> Result<Relation, BindFault>
    ensures ok { IfOk result (λ x. source_bound free sources.now (source_view source.now) ≡ Ok (relation_view x)) }
    ensures refused { (code : ScriptCode) → IsErrOf result (f.Refused code) → source_bound free sources.now (source_view source.now) ≡ Err code }
{
    match source {
        Source::Table { name, alias } => read(alloc, sources, name, alias),
        Source::Sub { query, alias } => {
            let relation = bind_query(alloc, free, sources, query)?;
            Ok(renamed(alloc, alias, relation)?)
        }
    }
}

// The sources behind the first one, joined from the left.
#[cycle(query)]
fn joined_all(
    alloc: Global,
    free: bool,
    sources: &Sources,
    first: Relation,
    joins: &JoinItems,
) -> Result<Relation, BindFault>
    ensures ok { IfOk result (λ x. joins_bound free sources.now (join_list (joins_view joins.now)) (relation_view first) ≡ Ok (relation_view x)) }
    ensures refused { (code : ScriptCode) → IsErrOf result (f.Refused code) → joins_bound free sources.now (join_list (joins_view joins.now)) (relation_view first) ≡ Err code }
{
    let mut all = first;
    for join in joins.as_slice() {
        let source = bind_source(alloc, free, sources, &join.source)?;
        all = joined(alloc, kind_of(join.kind), all, source, &join.on)?;
    }
    Ok(all)
}

// The conjuncts of a WHERE, but for one that may be spent.
#[cycle(query)]
#[tactic(auto, using(crate::proofs::Lefts::where_left))]
fn bind_where(
    alloc: Global,
    free: bool,
    sources: &Sources,
    spent: Option<usize>,
    outside: Outside<'_>,
    own: &Scope,
    condition: &Option<Tree>,
) -> Result<Parts, BindFault>
    ensures ok { IfOk result (λ ps. where_bound free sources.now spent (outside_view outside.entry) own.now (optional_tree (option_map view condition.now)) ≡ Ok (parts_view ps)) }
    ensures refused { (code : ScriptCode) → IsErrOf result (f.Refused code) → where_bound free sources.now spent (outside_view outside.entry) own.now (optional_tree (option_map view condition.now)) ≡ Err code }
{
    match condition {
        None => Ok(Parts::new(alloc)),
        Some(tree) => {
            let parts = bind_left(alloc, free, sources, spent, outside, own, tree)?;
            tests(parts)
        }
    }
}

// The conjuncts of a tree, but for one that may be spent, counted from 0.
#[cycle(query)]
fn bind_left(
    alloc: Global,
    free: bool,
    sources: &Sources,
    spent: Option<usize>,
    outside: Outside<'_>,
    own: &Scope,
    tree: &Tree,
) -> Result<Parts, BindFault>
    ensures ok { IfOk result (λ ps. left_bound free sources.now spent (outside_view outside.entry) own.now (view tree.now) ≡ Ok (parts_view ps)) }
    ensures refused { (code : ScriptCode) → IsErrOf result (f.Refused code) → left_bound free sources.now spent (outside_view outside.entry) own.now (view tree.now) ≡ Err code }
{
    match spent {
        None => bind_parts(alloc, free, sources, outside, own, tree),
        Some(place) => bind_but(alloc, free, sources, place, outside, own, tree),
    }
}

#[cycle(query)]
#[tactic(auto, unfolding(sql_syntax::specs::View::view))]
fn bind_but(
    alloc: Global,
    free: bool,
    sources: &Sources,
    place: usize,
    outside: Outside<'_>,
    own: &Scope,
    tree: &Tree,
) -> Result<Parts, BindFault>
    ensures ok { IfOk result (λ ps. parts_but free sources.now place (outside_view outside.entry) own.now (view tree.now) ≡ Ok (parts_view ps)) }
    ensures refused { (code : ScriptCode) → IsErrOf result (f.Refused code) → parts_but free sources.now place (outside_view outside.entry) own.now (view tree.now) ≡ Err code }
{
    match tree {
        Tree::And(trees) => {
            let parts = bind_all_but(alloc, free, sources, place, outside, own, trees)?;
            tests(parts)
        }
        Tree::Paren(value) => bind_but(alloc, free, sources, place, outside, own, value),
        _ => Ok(Parts::new(alloc)),
    }
}

#[cycle(query)]
#[tactic(auto, using(crate::proofs::Lefts::left_failed, crate::proofs::Lefts::left_end, crate::proofs::Wheres::nothing_before))]
fn bind_all_but(
    alloc: Global,
    free: bool,
    sources: &Sources,
    place: usize,
    outside: Outside<'_>,
    own: &Scope,
    trees: &Trees,
) -> Result<Parts, BindFault>
    ensures ok { IfOk result (λ ps. all_parts_but free sources.now place (outside_view outside.entry) own.now (tree_list (trees_view trees.now)) ≡ Ok (parts_view ps)) }
    ensures refused { (code : ScriptCode) → IsErrOf result (f.Refused code) → all_parts_but free sources.now place (outside_view outside.entry) own.now (tree_list (trees_view trees.now)) ≡ Err code }
{
    let mut parts = Parts::new(alloc);
    let mut spent = Some(place);
    for tree in trees.as_slice() {
        let split = split_spent(alloc, spent, tree)?;
        parts.append(bind_left(alloc, free, sources, split.0, outside, own, tree)?)?;
        spent = split.1;
    }
    Ok(parts)
}

// The top-level conjuncts of a condition, also those in parentheses.
#[cycle(query)]
#[tactic(auto, unfolding(sql_syntax::specs::View::view))]
fn bind_parts(
    alloc: Global,
    free: bool,
    sources: &Sources,
    outside: Outside<'_>,
    own: &Scope,
    tree: &Tree,
) -> Result<Parts, BindFault>
    ensures ok { IfOk result (λ ps. parts_bound free sources.now (outside_view outside.entry) own.now (view tree.now) ≡ Ok (parts_view ps)) }
    ensures refused { (code : ScriptCode) → IsErrOf result (f.Refused code) → parts_bound free sources.now (outside_view outside.entry) own.now (view tree.now) ≡ Err code }
{
    match tree {
        Tree::And(trees) => {
            let parts = bind_all_parts(alloc, free, sources, outside, own, trees)?;
            tests(parts)
        }
        Tree::Paren(value) => bind_parts(alloc, free, sources, outside, own, value),
        Tree::Or(_) | Tree::Not(_) | Tree::Exists(_) => one(
            alloc, free, sources, outside, own, tree,
        ),
        Tree::Compare { .. } | Tree::IsNull { .. } => one(alloc, free, sources, outside, own, tree),
        Tree::Between { .. } | Tree::InList { .. } => one(alloc, free, sources, outside, own, tree),
        Tree::InQuery { .. } => one(alloc, free, sources, outside, own, tree),
        Tree::Like { .. } | Tree::Sum { .. } => one(alloc, free, sources, outside, own, tree),
        Tree::Product { .. } | Tree::Sign { .. } => one(alloc, free, sources, outside, own, tree),
        Tree::Number(_) => one(alloc, free, sources, outside, own, tree),
        Tree::Str(_) | Tree::Bool(_) | Tree::Null => one(alloc, free, sources, outside, own, tree),
        Tree::Name { .. } | Tree::Call { .. } => one(alloc, free, sources, outside, own, tree),
        Tree::Cast { .. } | Tree::Sub(_) => one(alloc, free, sources, outside, own, tree),
        Tree::Case { .. } => one(alloc, free, sources, outside, own, tree),
    }
}

#[cycle(query)]
#[tactic(auto, using(crate::proofs::Wheres::parts_failed, crate::proofs::Wheres::parts_end, crate::proofs::Wheres::nothing_before))]
fn bind_all_parts(
    alloc: Global,
    free: bool,
    sources: &Sources,
    outside: Outside<'_>,
    own: &Scope,
    trees: &Trees,
) -> Result<Parts, BindFault>
    ensures ok { IfOk result (λ ps. all_parts_bound free sources.now (outside_view outside.entry) own.now (tree_list (trees_view trees.now)) ≡ Ok (parts_view ps)) }
    ensures refused { (code : ScriptCode) → IsErrOf result (f.Refused code) → all_parts_bound free sources.now (outside_view outside.entry) own.now (tree_list (trees_view trees.now)) ≡ Err code }
{
    let mut parts = Parts::new(alloc);
    for tree in trees.as_slice() {
        parts.append(bind_parts(alloc, free, sources, outside, own, tree)?)?;
    }
    Ok(parts)
}

// A tree that is one conjunct.
#[cycle(query)]
fn one(
    alloc: Global,
    free: bool,
    sources: &Sources,
    outside: Outside<'_>,
    own: &Scope,
    tree: &Tree,
) -> Result<Parts, BindFault>
    ensures ok { IfOk result (λ ps. only_part free sources.now (outside_view outside.entry) own.now (view tree.now) ≡ Ok (parts_view ps)) }
    ensures refused { (code : ScriptCode) → IsErrOf result (f.Refused code) → only_part free sources.now (outside_view outside.entry) own.now (view tree.now) ≡ Err code }
{
    let part = bind_part(alloc, free, sources, outside, own, tree)?;
    Ok(alone(alloc, part)?)
}

// A conjunct: EXISTS, NOT EXISTS or IN over a query, or a condition.
#[cycle(query)]
#[tactic(auto, unfolding(sql_syntax::specs::View::view, sql_syntax::specs::View::query_view))]
fn bind_part(
    alloc: Global,
    free: bool,
    sources: &Sources,
    outside: Outside<'_>,
    own: &Scope,
    tree: &Tree,
) -> Result<Part, BindFault>
    ensures ok { IfOk result (λ p. part_bound free sources.now (outside_view outside.entry) own.now (view tree.now) ≡ Ok (part_view p)) }
    ensures refused { (code : ScriptCode) → IsErrOf result (f.Refused code) → part_bound free sources.now (outside_view outside.entry) own.now (view tree.now) ≡ Err code }
{
    match tree {
        Tree::Exists(query) => bind_exists(alloc, free, sources, false, own, query),
        Tree::Not(value) => bind_denied(alloc, free, sources, outside, own, value, tree),
        Tree::InQuery {
            value,
            query,
            negated,
        } => {
            if *negated {
                return plain_part(alloc, outside, own, tree);
            }
            bind_member(alloc, free, sources, outside, own, query, value)
        }
        Tree::Or(_) | Tree::And(_) | Tree::Paren(_) => plain_part(alloc, outside, own, tree),
        Tree::Compare { .. } | Tree::IsNull { .. } => plain_part(alloc, outside, own, tree),
        Tree::Between { .. } | Tree::InList { .. } => plain_part(alloc, outside, own, tree),
        Tree::Like { .. } | Tree::Sum { .. } => plain_part(alloc, outside, own, tree),
        Tree::Product { .. } | Tree::Sign { .. } => plain_part(alloc, outside, own, tree),
        Tree::Number(_) | Tree::Str(_) | Tree::Bool(_) => plain_part(alloc, outside, own, tree),
        Tree::Null | Tree::Name { .. } => plain_part(alloc, outside, own, tree),
        Tree::Call { .. } | Tree::Cast { .. } => plain_part(alloc, outside, own, tree),
        Tree::Sub(_) | Tree::Case { .. } => plain_part(alloc, outside, own, tree),
    }
}

// What is denied, also in parentheses: an EXISTS, or a condition that belongs to the whole conjunct.
#[cycle(query)]
#[tactic(auto, unfolding(sql_syntax::specs::View::view, sql_syntax::specs::View::query_view))]
fn bind_denied(
    alloc: Global,
    free: bool,
    sources: &Sources,
    outside: Outside<'_>,
    own: &Scope,
    denied: &Tree,
    whole: &Tree,
) -> Result<Part, BindFault>
    ensures ok { IfOk result (λ p. denied_bound free sources.now (outside_view outside.entry) own.now (view whole.now) (view denied.now) ≡ Ok (part_view p)) }
    ensures refused { (code : ScriptCode) → IsErrOf result (f.Refused code) → denied_bound free sources.now (outside_view outside.entry) own.now (view whole.now) (view denied.now) ≡ Err code }
{
    match denied {
        Tree::Paren(value) => bind_denied(alloc, free, sources, outside, own, value, whole),
        Tree::Exists(query) => bind_exists(alloc, free, sources, true, own, query),
        _ => plain_part(alloc, outside, own, whole),
    }
}

// A tree that equals the column of a query.
#[cycle(query)]
fn bind_member(
    alloc: Global,
    free: bool,
    sources: &Sources,
    outside: Outside<'_>,
    own: &Scope,
    query: &Query,
    value: &Tree,
) -> Result<Part, BindFault>
    ensures ok { IfOk result (λ p. member_bound free sources.now (outside_view outside.entry) own.now (view value.now) (query_view query.now) ≡ Ok (part_view p)) }
    ensures refused { (code : ScriptCode) → IsErrOf result (f.Refused code) → member_bound free sources.now (outside_view outside.entry) own.now (view value.now) (query_view query.now) ≡ Err code }
{
    let part = plain_part(alloc, outside, own, value)?;
    let bound = own_value(part)?;
    let relation = bind_query(alloc, free, sources, query)?;
    member_part(alloc, own, value, bound, relation)
}

// The subquery of an EXISTS; one of another form is refused where it stands.
#[cycle(query)]
#[tactic(auto, using(crate::proofs::Exists::by_exists))]
fn bind_exists(
    alloc: Global,
    free: bool,
    sources: &Sources,
    anti: bool,
    outside: &Scope,
    query: &Query,
) -> Result<Part, BindFault>
    ensures ok { IfOk result (λ p. exists_bound free sources.now anti outside.now (query_view query.now) ≡ Ok (part_view p)) }
    ensures refused { (code : ScriptCode) → IsErrOf result (f.Refused code) → exists_bound free sources.now anti outside.now (query_view query.now) ≡ Err code }
{
    let sole = is_sole(query);
    bind_simple(
        alloc,
        free,
        sources,
        anti,
        outside,
        sole,
        &query.first.first,
    )
}

// Its first select; the query is sole where nothing else stands in it.
#[cycle(query)]
fn bind_simple(
    alloc: Global,
    free: bool,
    sources: &Sources,
    anti: bool,
    outside: &Scope,
    sole: bool,
    select: &Select,
) -> Result<Part, BindFault>
    ensures ok { IfOk result (λ p. exists_simple free sources.now anti outside.now sole (select_view select.now) ≡ Ok (part_view p)) }
    ensures refused { (code : ScriptCode) → IsErrOf result (f.Refused code) → exists_simple free sources.now anti outside.now sole (select_view select.now) ≡ Err code }
{
    let simple = is_simple(alloc, select)?;
    if simple && sole {
        return bind_inside(alloc, free, sources, anti, outside, select);
    }
    Err(BindFault::Refused(ScriptCode::Unsupported))
}

// The select of an EXISTS.
#[cycle(query)]
fn bind_inside(
    alloc: Global,
    free: bool,
    sources: &Sources,
    anti: bool,
    outside: &Scope,
    select: &Select,
) -> Result<Part, BindFault>
    ensures ok { IfOk result (λ p. inside_bound free sources.now anti outside.now (select_view select.now) ≡ Ok (part_view p)) }
    ensures refused { (code : ScriptCode) → IsErrOf result (f.Refused code) → inside_bound free sources.now anti outside.now (select_view select.now) ≡ Err code }
{
    let reach = Outside::InReach(outside);
    let gathered = bind_from_where(alloc, free, sources, reach, select)?;
    exists_over(alloc, free, anti, select, gathered)
}
