//! Who reads a rank: the clauses of the select outside, and the WHERE of an EXISTS in it.
ghost use Rattle.std.specs.Prelude.{◌≡◌, ◌&&◌, not, None, option_map};
ghost use Rattle.sql_syntax.specs.Tree.{items as item_list, joins as join_list, optional_tree};
ghost use Rattle.sql_syntax.specs.View.{item_view, items_view, joins_view, query_view, select_view, source_view, view};
ghost use Rattle.query_answer.specs.Mentions as m;
ghost use Rattle.query_answer.specs.Ranks.{reads_rank};
ghost use Rattle.query_answer.specs.SourceColumns as q;
ghost use Rattle.bind_names.specs.Sought.{reads};

use crate::source_columns::{Meant, sources_have};
use bind_names::{RankName, Sought, is_alone, mentions};
use ct_catalog::Sources;
use ct_value::Text;
use sql_syntax::{Item, Items, JoinItems, Query, Select, Source, Tree};

/// The name of a rank, whose query has this alias.
#[tactic(auto, using(crate::proofs::Owns::both_ways))]
pub(crate) fn rank_name<'a>(alias: &'a Option<Text>, name: &'a Text) -> RankName<'a>
    ensures { reads result ≡ reads_rank alias.now name.now }
{
    RankName {
        alias,
        name,
        bare: true,
        sourced: true,
    }
}

#[tactic(auto, unfolding(sql_syntax::specs::View::item_view, sql_syntax::specs::View::view))]
fn item_mentions(rank: &RankName<'_>, item: &Item) -> bool
    ensures { result ≡ m.in_item (reads rank.now) (item_view item.now) }
{
    match item {
        Item::All | Item::AllOf(_) => false,
        Item::One { value, .. } => mentions(&Sought::Rank(*rank), value),
    }
}

/// Whether one of the items reads the rank.
pub(crate) fn items_mention(rank: &RankName<'_>, items: &Items) -> bool
    ensures { result ≡ m.in_items (reads rank.now) (item_list (items_view items.now)) }
{
    for item in items.as_slice() {
        if item_mentions(rank, item) {
            return true;
        }
    }
    false
}

/// Whether a condition, if there is one, reads the rank.
pub(crate) fn condition_mentions(rank: &RankName<'_>, condition: &Option<Tree>) -> bool
    ensures { result ≡ m.in_optional (reads rank.now) (optional_tree (option_map view condition.now)) }
{
    match condition {
        None => false,
        Some(tree) => mentions(&Sought::Rank(*rank), tree),
    }
}

// Whether these sources hide a name, as it is said with a source before it or without.
fn hide(sources: &Sources, of: &Option<Text>, name: &Text, from: &Source, joins: &JoinItems) -> bool
    ensures { result ≡ q.sources_have sources.now (q.of_source of.now) name.now (source_view from.now) (join_list (joins_view joins.now)) }
{
    sources_have(sources, &Meant::Of(of), name, from, joins)
}

fn unless(read: bool, hidden: bool) -> bool
    ensures { result ≡ (read && not hidden) }
{
    read && !hidden
}

// The name of a rank within a subquery over these sources.
fn within<'a>(
    sources: &Sources,
    rank: &RankName<'a>,
    from: &Source,
    joins: &JoinItems,
) -> RankName<'a>
    ensures { reads result ≡ m.unless_own sources.now (source_view from.now) (join_list (joins_view joins.now)) (reads rank.now) }
{
    let bare = hide(sources, &None, rank.name, from, joins);
    let sourced = hide(sources, rank.alias, rank.name, from, joins);
    RankName {
        alias: rank.alias,
        name: rank.name,
        bare: unless(rank.bare, bare),
        sourced: unless(rank.sourced, sourced),
    }
}

fn where_mentions(sources: &Sources, rank: &RankName<'_>, select: &Select) -> bool
    ensures { result ≡ m.in_where sources.now (reads rank.now) (select_view select.now) }
{
    let rank = within(sources, rank, &select.from, &select.joins);
    condition_mentions(&rank, &select.cond)
}

#[tactic(auto, using(crate::proofs::Owns::exists_then, crate::proofs::Owns::exists_else))]
fn exists_mentions(sources: &Sources, rank: &RankName<'_>, query: &Query) -> bool
    ensures { result ≡ m.in_exists sources.now (reads rank.now) (query_view query.now) }
{
    is_alone(query) && where_mentions(sources, rank, &query.first.first)
}

/// Whether a conjunct reads the rank.
#[tactic(auto, unfolding(sql_syntax::specs::View::view, sql_syntax::specs::View::query_view))]
pub(crate) fn conjunct_mentions(sources: &Sources, rank: &RankName<'_>, tree: &Tree) -> bool
    ensures { result ≡ m.in_conjunct sources.now (reads rank.now) (view tree.now) }
{
    match tree {
        Tree::Exists(query) => exists_mentions(sources, rank, query),
        Tree::Not(value) | Tree::Paren(value) => conjunct_mentions(sources, rank, value),
        _ => mentions(&Sought::Rank(*rank), tree),
    }
}
