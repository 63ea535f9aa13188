//! Which select lists have a rank.
ghost use Rattle.std.specs.Prelude.{◌≡◌, ◌+◌, ◌<◌, Some, drop, length, option_map, slice_get, take, IfOk};
ghost use Rattle.sql_syntax.specs.Tree.{items as item_list, optional_over, optional_tree, some_over};
ghost use Rattle.sql_syntax.specs.View.{view, args_view, item_view, items_view, over_view, query_view, select_view};
ghost use Rattle.query_answer.specs.Ranks as q;
ghost use Rattle.bind_forms.specs.Lists.{over_ranked, ranked_by};
ghost use Rattle.bind_forms.specs.Views.{ranked_view};

use crate::places::only_place;
use bind_names::{function_of, is_simple, is_sole};
use ct_value::{Boxed, Memory, Text};
use query_answer::Function;
use sql_syntax::{Args, Item, Over, Query, Select, SortList, Tree, Trees};
use std::alloc::Global;

/// A select list with one rank, which has a name, and the items that stand ahead of it and behind it.
#[derive(Clone, Copy)]
pub struct Ranked<'a> {
    pub ahead: &'a [Item],
    pub name: &'a Text,
    pub partition: &'a Trees,
    pub order: &'a SortList,
    pub behind: &'a [Item],
}

// The OVER of a call of ROW_NUMBER with nothing else at it.
#[tactic(auto, unfolding(sql_syntax::specs::View::args_view))]
fn row_number_over<'a>(
    function: Function,
    args: &Args,
    filter: &Option<Boxed<Tree>>,
    over: &'a Option<Over>,
) -> Option<&'a Over>
    ensures { optional_over (option_map (λ o. over_view o.now) result) ≡ q.row_number_over function (args_view args.now) (optional_tree (option_map view filter.now)) (optional_over (option_map over_view over.now)) }
{
    match (function, args, filter) {
        (Function::RowNumber, Args::Empty, None) => over.as_ref(),
        _ => None,
    }
}

// That of a tree which is such a call as a whole, also in parentheses.
#[tactic(auto, unfolding(sql_syntax::specs::View::view, sql_syntax::specs::View::over_view, sql_syntax::specs::View::args_view))]
fn rank_over(tree: &Tree) -> Option<&Over>
    ensures { optional_over (option_map (λ o. over_view o.now) result) ≡ q.rank_over (view tree.now) }
{
    match tree {
        Tree::Call {
            name,
            args,
            filter,
            over,
        } => row_number_over(function_of(name), args, filter, over),
        Tree::Paren(value) => rank_over(value),
        _ => None,
    }
}

/// That of an item which is a rank.
#[tactic(auto, unfolding(sql_syntax::specs::View::item_view, sql_syntax::specs::View::view))]
pub(crate) fn item_over(item: &Item) -> Option<&Over>
    ensures { optional_over (option_map (λ o. over_view o.now) result) ≡ q.item_over (item_view item.now) }
{
    match item {
        Item::All | Item::AllOf(_) => None,
        Item::One { value, .. } => rank_over(value),
    }
}

// The name that AS gives.
#[tactic(auto, unfolding(sql_syntax::specs::View::item_view, sql_syntax::specs::View::view))]
fn written_name(item: &Item) -> Option<&Text>
    ensures { option_map (λ name. name.now) result ≡ q.written_name (item_view item.now) }
{
    match item {
        Item::All | Item::AllOf(_) => None,
        Item::One { name, .. } => name.as_ref(),
    }
}

// A rank with its name, between items.
#[tactic(auto, using(sql_syntax::proofs::laws::Views::over))]
fn named_between<'a>(
    ahead: &'a [Item],
    over: &'a Over,
    name: &'a Text,
    behind: &'a [Item],
) -> Ranked<'a>
    ensures { Some (ranked_view result) ≡ over_ranked (items_view ahead.now) (some_over (over_view over.now)) (Some name.now) (items_view behind.now) }
{
    Ranked {
        ahead,
        name,
        partition: &over.partition,
        order: &over.order,
        behind,
    }
}

// An item between others, where it is a rank and has a name.
fn ranked_between<'a>(ahead: &'a [Item], item: &'a Item, behind: &'a [Item]) -> Option<Ranked<'a>>
    ensures { option_map ranked_view result ≡ over_ranked (items_view ahead.now) (q.item_over (item_view item.now)) (q.written_name (item_view item.now)) (items_view behind.now) }
{
    match item_over(item) {
        None => None,
        Some(over) => match written_name(item) {
            None => None,
            Some(name) => Some(named_between(ahead, over, name, behind)),
        },
    }
}

// The list with the rank at this place, where it has a name.
fn ranked_at(items: &[Item], place: usize) -> Option<Ranked<'_>>
    requires { place < length items.now }
    ensures { option_map ranked_view result ≡ ranked_by (items_view (take place items.now)) (option_map item_view (slice_get items.now place)) (items_view (drop (place + 1) items.now)) }
{
    ranked_between(&items[..place], &items[place], &items[place + 1..])
}

#[tactic(auto, using(crate::proofs::Around::split_none, crate::proofs::Around::split_at))]
fn ranked_items(items: &[Item]) -> Option<Ranked<'_>>
    ensures { option_map ranked_view result ≡ q.ranked_items (item_list (items_view items.now)) }
{
    match only_place(items) {
        None => None,
        Some(place) => ranked_at(items, place),
    }
}

/// The list of a select with a rank, which has neither DISTINCT nor groups.
#[tactic(auto, using(sql_syntax::proofs::laws::Views::select))]
pub fn ranked_select(alloc: Global, select: &Select) -> Result<Option<Ranked<'_>>, Memory>
    ensures { IfOk result (λ ranked. option_map ranked_view ranked ≡ q.ranked_select (select_view select.now)) }
{
    if !is_simple(alloc, select)? {
        return Ok(None);
    }
    Ok(ranked_items(select.items.as_slice()))
}

/// The list of a query that is a select with a rank.
#[tactic(auto, using(crate::proofs::Owns::ranked_then, crate::proofs::Owns::ranked_else))]
pub fn ranked_query(alloc: Global, query: &Query) -> Result<Option<Ranked<'_>>, Memory>
    ensures { IfOk result (λ ranked. option_map ranked_view ranked ≡ q.ranked_query (query_view query.now)) }
{
    if !is_sole(query) {
        return Ok(None);
    }
    let ranked = ranked_select(alloc, &query.first.first)?;
    Ok(ranked)
}
