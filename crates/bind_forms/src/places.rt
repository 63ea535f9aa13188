//! Where the rank of a select list stands.
ghost use Rattle.std.specs.Prelude.{◌≡◌, ◌+◌, ◌<◌, None, Some, cond, length, IfSome};
ghost use Rattle.sql_syntax.specs.Tree.{items as item_list};
ghost use Rattle.sql_syntax.specs.View.{item_view, items_view};
ghost use Rattle.query_answer.specs.Ranks as q;
ghost use Rattle.query_answer.specs.Shapes.{has_over};
ghost use Rattle.bind_forms.specs.Lists.{only_place};

use crate::ranked_lists::item_over;
use sql_syntax::Item;

fn is_rank(item: &Item) -> bool
    ensures { result ≡ has_over (q.item_over (item_view item.now)) }
{
    match item_over(item) {
        None => false,
        Some(_) => true,
    }
}

fn has_rank(items: &[Item]) -> bool
    ensures { result ≡ q.has_rank (item_list (items_view items.now)) }
{
    for item in items {
        if is_rank(item) {
            return true;
        }
    }
    false
}

// A place, where no rank stands behind it.
fn alone(place: usize, behind: &[Item]) -> Option<usize>
    ensures { result ≡ cond (q.has_rank (item_list (items_view behind.now))) None (Some place) }
{
    if has_rank(behind) {
        return None;
    }
    Some(place)
}

/// Where the only rank stands.
#[tactic(auto, using(crate::proofs::Around::begins, crate::proofs::Around::here, crate::proofs::Around::further, crate::proofs::Around::nowhere))]
pub(crate) fn only_place(items: &[Item]) -> Option<usize>
    ensures place { result ≡ only_place (item_list (items_view items.now)) }
    ensures there { IfSome result (λ place. place < length items.now) }
{
    let mut place = 0;
    'items: while place < items.len() {
        if is_rank(&items[place]) {
            return alone(place, &items[place + 1..]);
        }
        place += 1;
    }
    None
}
