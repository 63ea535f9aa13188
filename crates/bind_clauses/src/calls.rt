//! The aggregate calls of a select, and whether it is grouped.
ghost use Rattle.std.specs.Prelude.{◌≡◌, ◌++◌, map, flat_map, option_map, IfOk, OnOk};
ghost use Rattle.sql_syntax.specs.Tree.{optional_tree};
ghost use Rattle.sql_syntax.specs.View.{view, trees_view};
ghost use Rattle.query_answer.specs.Answer.{is_grouped, listed_calls, select_calls};
ghost use Rattle.bind_names.specs.Calls.{call_view};
ghost use Rattle.bind_names.specs.Entries.{entries_view, entry_view};

use bind_names::{CallRefs, Entries, Entry, Listed, push_calls};
use ct_value::Memory;
use sql_syntax::Tree;
use std::alloc::Global;

/// The aggregate calls of a select, as they are written: those of the items, and then those of HAVING.
pub fn select_calls<'a>(
    alloc: Global,
    entries: &Entries<'a>,
    having: &'a Option<Tree>,
) -> Result<CallRefs<'a>, Memory>
    ensures { IfOk result (λ found. map call_view found ≡ select_calls (entries_view entries.now) (optional_tree (option_map view having.now))) }
{
    let mut found = item_calls(alloc, entries)?;
    if let Some(having) = having {
        push_calls(&mut found, having)?;
    }
    Ok(found)
}

/// The aggregate calls of the items, as they are written.
pub fn item_calls<'a>(alloc: Global, entries: &Entries<'a>) -> Result<CallRefs<'a>, Memory>
    ensures { IfOk result (λ found. map call_view found ≡ flat_map (λ e. listed_calls e.listed) (entries_view entries.now)) }
{
    let mut found = CallRefs::new(alloc);
    for entry in entries.as_slice() {
        push_listed(&mut found, entry)?;
    }
    Ok(found)
}

fn push_listed<'a>(found: &mut CallRefs<'a>, entry: &Entry<'a>) -> Result<(), Memory>
    ensures { OnOk result (map call_view found.new ≡ map call_view found.old ++ listed_calls (entry_view entry.now).listed) }
{
    match entry.listed {
        Listed::Written(tree) => push_calls(found, tree),
        Listed::Placed(_) | Listed::NoSource => Ok(()),
    }
}

/// Whether a select is grouped: it has GROUP BY, HAVING or an aggregate among its items.
#[tactic(auto, using(crate::proofs::Grouped::by_groups, crate::proofs::Grouped::by_having, crate::proofs::Grouped::by_calls))]
pub fn is_grouped(
    alloc: Global,
    entries: &Entries<'_>,
    groups: &[Tree],
    having: &Option<Tree>,
) -> Result<bool, Memory>
    ensures { IfOk result (λ grouped. grouped ≡ is_grouped (entries_view entries.now) (trees_view groups.now) (optional_tree (option_map view having.now))) }
{
    if !groups.is_empty() || having.is_some() {
        return Ok(true);
    }
    let calls = item_calls(alloc, entries)?;
    Ok(!calls.is_empty())
}
