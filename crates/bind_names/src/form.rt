//! The form of a select and of a query.
ghost use Rattle.std.specs.Prelude.{◌≡◌, option_map, IfOk};
ghost use Rattle.sql_syntax.specs.Tree.{items as item_list, optional_tree, sort_list, trees as tree_list};
ghost use Rattle.sql_syntax.specs.View.{view, item_view, items_view, query_view, select_view, sorts_view, trees_view};
ghost use Rattle.query_answer.specs.Shapes.{has_tree};
ghost use Rattle.query_answer.specs.Forms as q;
ghost use Rattle.bind_names.specs.Calls.{has_calls};

use crate::calls::{CallRefs, push_calls};
use ct_value::{Memory, Text};
use sql_syntax::{Item, Items, Query, Select, SortList, Tree, Trees};
use std::alloc::Global;

// Whether an item has an aggregate.
#[tactic(auto, using(crate::proofs::Forms::some_calls), unfolding(sql_syntax::specs::View::item_view, sql_syntax::specs::View::view))]
fn has_calls(alloc: Global, item: &Item) -> Result<bool, Memory>
    ensures { IfOk result (λ found. found ≡ has_calls (item_view item.now)) }
{
    match item {
        Item::All | Item::AllOf(_) => Ok(false),
        Item::One { value, .. } => {
            let mut found = CallRefs::new(alloc);
            push_calls(&mut found, value)?;
            Ok(!found.is_empty())
        }
    }
}

fn items_have_calls(alloc: Global, items: &Items) -> Result<bool, Memory>
    ensures { IfOk result (λ found. found ≡ q.items_have_calls (item_list (items_view items.now))) }
{
    for item in items.as_slice() {
        if has_calls(alloc, item)? {
            return Ok(true);
        }
    }
    Ok(false)
}

#[tactic(auto, using(crate::proofs::Forms::no_groups, crate::proofs::Forms::some_groups))]
fn has_groups(groups: &Trees) -> bool
    ensures { result ≡ q.has_groups (tree_list (trees_view groups.now)) }
{
    !groups.is_empty()
}

fn has_tree(tree: &Option<Tree>) -> bool
    ensures { result ≡ has_tree (optional_tree (option_map view tree.now)) }
{
    match tree {
        None => false,
        Some(_) => true,
    }
}

/// Whether a select has no DISTINCT, no aggregates among its items, no GROUP BY and no HAVING.
#[tactic(auto, using(sql_syntax::proofs::laws::Views::select))]
pub fn is_simple(alloc: Global, select: &Select) -> Result<bool, Memory>
    ensures { IfOk result (λ simple. simple ≡ q.is_simple (select_view select.now)) }
{
    let found = items_have_calls(alloc, &select.items)?;
    let grouped = has_groups(&select.groups) || has_tree(&select.having);
    Ok(!(select.distinct || found || grouped))
}

/// Whether neither ORDER BY nor LIMIT stands on a query.
#[tactic(auto, using(crate::proofs::Forms::by_order, crate::proofs::Forms::limited))]
pub fn is_plain(order: &SortList, limit: &Option<Text>) -> bool
    ensures { result ≡ q.is_plain (sort_list (sorts_view order.now)) limit.now }
{
    match limit {
        None => order.is_empty(),
        Some(_) => false,
    }
}

/// Whether a query has one select alone.
#[tactic(auto, using(crate::proofs::Forms::alone_then, crate::proofs::Forms::alone_else))]
pub fn is_alone(query: &Query) -> bool
    ensures { result ≡ q.is_alone (query_view query.now) }
{
    query.first.rest.is_empty() && query.rest.is_empty()
}

/// Whether a query is one select, without ORDER BY and LIMIT.
#[tactic(auto, using(crate::proofs::Forms::sole_then, crate::proofs::Forms::sole_else))]
pub fn is_sole(query: &Query) -> bool
    ensures { result ≡ q.is_sole (query_view query.now) }
{
    is_alone(query) && is_plain(&query.order, &query.limit)
}
