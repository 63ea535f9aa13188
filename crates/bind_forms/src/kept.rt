//! Whether a select outside looks at the rank of its only source, besides its bound.
ghost use Rattle.std.specs.Prelude.{◌≡◌, ◌<◌, length, map, option_map};
ghost use Rattle.sql_syntax.specs.Tree.{items as item_list, optional_tree, trees as tree_list};
ghost use Rattle.sql_syntax.specs.View.{items_view, select_view, trees_view, view};
ghost use Rattle.query_answer.specs.Answer as a;
ghost use Rattle.query_answer.specs.Mentions.{in_conjuncts};
ghost use Rattle.query_answer.specs.Ranks as q;
ghost use Rattle.bind_names.specs.Sought.{reads};
ghost use Rattle.bind_forms.specs.Views.{conjunct_view, ranked_view};

use crate::conjuncts::{Conjunct, Conjuncts};
use crate::rank_mentions::{condition_mentions, conjunct_mentions, items_mention, rank_name};
use crate::ranked_lists::Ranked;
use bind_names::{RankName, Sought, any_mentions};
use ct_catalog::Sources;
use ct_value::Text;
use sql_syntax::{Item, Items, Select, Tree, Trees};

#[tactic(auto, unfolding(sql_syntax::specs::View::item_view))]
fn has_star(items: &Items) -> bool
    ensures { result ≡ q.has_star (item_list (items_view items.now)) }
{
    for item in items.as_slice() {
        match item {
            Item::All | Item::AllOf(_) => return true,
            Item::One { .. } => {}
        }
    }
    false
}

fn any_conjunct_mentions(sources: &Sources, rank: &RankName<'_>, conjuncts: &[Conjunct<'_>]) -> bool
    ensures { result ≡ in_conjuncts sources.now (reads rank.now) (map conjunct_view conjuncts.now) }
{
    for conjunct in conjuncts {
        if conjunct_mentions(sources, rank, conjunct.tree) {
            return true;
        }
    }
    false
}

// Whether one of the conjuncts but this one reads the rank.
fn others_mention(
    sources: &Sources,
    rank: &RankName<'_>,
    conjuncts: &[Conjunct<'_>],
    conjunct: usize,
) -> bool
    requires { conjunct < length conjuncts.now }
    ensures { result ≡ in_conjuncts sources.now (reads rank.now) (q.without conjunct (map conjunct_view conjuncts.now)) }
{
    any_conjunct_mentions(sources, rank, &conjuncts[..conjunct])
        || any_conjunct_mentions(sources, rank, &conjuncts[conjunct + 1..])
}

// Whether these clauses of a select read the rank, besides this conjunct.
fn is_looked_at(
    sources: &Sources,
    rank: &RankName<'_>,
    items: &Items,
    conjuncts: &Conjuncts<'_>,
    conjunct: usize,
    groups: &Trees,
    having: &Option<Tree>,
) -> bool
    requires { conjunct < length conjuncts.now }
    ensures { result ≡ q.is_looked_at sources.now (reads rank.now) (item_list (items_view items.now)) (q.without conjunct (map conjunct_view conjuncts.now)) (tree_list (trees_view groups.now)) (optional_tree (option_map view having.now)) }
{
    has_star(items)
        || items_mention(rank, items)
        || others_mention(sources, rank, conjuncts.as_slice(), conjunct)
        || any_mentions(&Sought::Rank(*rank), groups)
        || condition_mentions(rank, having)
}

/// Whether a select over these tables looks at the rank of its only source, a query under an alias, besides this conjunct of its WHERE.
pub fn is_kept(
    sources: &Sources,
    alias: &Option<Text>,
    ranked: Ranked<'_>,
    outer: &Select,
    conjuncts: &Conjuncts<'_>,
    conjunct: usize,
) -> bool
    requires there { conjunct < length conjuncts.now }
    requires all { map conjunct_view conjuncts.now ≡ a.select_conjuncts (select_view outer.now) }
    ensures { result ≡ a.is_kept sources.now alias.now (ranked_view ranked.entry) (select_view outer.now) conjunct }
{
    let rank = rank_name(alias, ranked.name);
    is_looked_at(
        sources,
        &rank,
        &outer.items,
        conjuncts,
        conjunct,
        &outer.groups,
        &outer.having,
    )
}
