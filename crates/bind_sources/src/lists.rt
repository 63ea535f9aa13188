//! GROUP BY, HAVING, and what a grouped select lists.
ghost use Rattle.bind_names.specs.declared.fault.BindFault.TheVariants as f;
ghost use Rattle.std.specs.Prelude.{◌≡◌, ◌+◌, Ok, Err, flat_map, length, option_map, IfOk, IsErrOf};
ghost use Rattle.ct_value.specs.declared.codes.ScriptCode.{ScriptCode};
ghost use Rattle.sql_syntax.specs.Tree.{optional_tree};
ghost use Rattle.sql_syntax.specs.View.{view, trees_view};
ghost use Rattle.query_answer.specs.Answer.{listed_calls};
ghost use Rattle.query_answer.specs.Answer as a;
ghost use Rattle.binding.specs.Queries as q;
ghost use Rattle.bind_nodes.specs.Views.{bound_view, bounds_view};
ghost use Rattle.bind_expressions.specs.Reach.{group_leaf};
ghost use Rattle.bind_names.specs.Entries.{entries_view, listed_view};
ghost use Rattle.bind_sources.specs.Lists as p;
ghost use Rattle.bind_sources.specs.Views.{lister, parts_view};

use bind_clauses::{few, item_calls};
use bind_expressions::{Group, after, bind_each, bind_in_group, group_of, key_of_column, plus};
use bind_names::{BindFault, Entries, Listed};
use bind_nodes::{Bound, Bounds};
use ct_expr::is_truths;
use ct_value::{Memory, ScriptCode};
use query_answer::Scope;
use sql_syntax::{Tree, Trees};
use std::alloc::Global;

/// What the clauses of a grouped select are bound to.
#[derive(Drop)]
pub(crate) struct Parts {
    pub(crate) keys: Bounds,
    pub(crate) having: Option<Bound>,
    pub(crate) items: Bounds,
}

// The number of the call behind those of an entry.
fn after_listed(alloc: Global, number: u32, listed: &Listed<'_>) -> Result<u32, Memory>
    ensures { IfOk result (λ next. next ≡ number + length (listed_calls (listed_view listed.now))) }
{
    match listed {
        Listed::Written(tree) => after(alloc, number, tree),
        Listed::Placed(_) | Listed::NoSource => Ok(number),
    }
}

// A column by its place is one of the GROUP BY expressions.
fn placed(alloc: Global, group: &Group<'_>, place: u32) -> Result<Bound, BindFault>
    ensures ok { IfOk result (λ x. lister group.now 0 (a.Placed place) ≡ Ok (bound_view x)) }
    ensures refused { (code : ScriptCode) → IsErrOf result (f.Refused code) → lister group.now 0 (a.Placed place) ≡ Err code }
{
    match key_of_column(alloc, group, place)? {
        Some(key) => Ok(key),
        None => Err(BindFault::Refused(ScriptCode::NotGrouped)),
    }
}

// What an entry lists in a group. Aggregate calls are counted from `number`.
fn listed_bound(
    alloc: Global,
    group: &Group<'_>,
    number: u32,
    listed: &Listed<'_>,
) -> Result<Bound, BindFault>
    ensures ok { IfOk result (λ x. lister group.now number (listed_view listed.now) ≡ Ok (bound_view x)) }
    ensures refused { (code : ScriptCode) → IsErrOf result (f.Refused code) → lister group.now number (listed_view listed.now) ≡ Err code }
{
    match listed {
        Listed::Placed(place) => placed(alloc, group, *place),
        Listed::Written(tree) => bind_in_group(alloc, group, number, tree),
        Listed::NoSource => Err(BindFault::Refused(ScriptCode::UnknownColumn)),
    }
}

// What the entries list, in order.
fn in_turn(alloc: Global, group: &Group<'_>, entries: &Entries<'_>) -> Result<Bounds, BindFault>
    ensures ok { IfOk result (λ xs. q.in_turn (lister group.now) 0 (entries_view entries.now) ≡ Ok (bounds_view xs)) }
    ensures refused { (code : ScriptCode) → IsErrOf result (f.Refused code) → q.in_turn (lister group.now) 0 (entries_view entries.now) ≡ Err code }
{
    let mut bounds = Bounds::with_capacity(alloc, entries.len())?;
    let mut number = 0;
    for entry in entries.as_slice() {
        let next = after_listed(alloc, number, &entry.listed)?;
        bounds.push(listed_bound(alloc, group, number, &entry.listed)?)?;
        number = next;
    }
    Ok(bounds)
}

fn list_bound(alloc: Global, group: &Group<'_>, entries: &Entries<'_>) -> Result<Bounds, BindFault>
    ensures ok { IfOk result (λ xs. q.list_bound (lister group.now) (entries_view entries.now) ≡ Ok (bounds_view xs)) }
    ensures refused { (code : ScriptCode) → IsErrOf result (f.Refused code) → q.list_bound (lister group.now) (entries_view entries.now) ≡ Err code }
{
    let bounds = in_turn(alloc, group, entries)?;
    few(bounds)
}

// The same expression, if it is BOOLEAN.
fn condition(bound: Bound) -> Result<Bound, BindFault>
    ensures ok { IfOk result (λ x. q.condition (bound_view bound) ≡ Ok (bound_view x)) }
    ensures refused { (code : ScriptCode) → IsErrOf result (f.Refused code) → q.condition (bound_view bound) ≡ Err code }
{
    if !is_truths(bound.column.ty) {
        return Err(BindFault::Refused(ScriptCode::TypeMismatch));
    }
    Ok(bound)
}

// How many aggregate calls the items have, which stand before those of HAVING.
fn count_calls(alloc: Global, entries: &Entries<'_>) -> Result<u32, Memory>
    ensures { IfOk result (λ count. count ≡ length (flat_map (λ e. listed_calls e.listed) (entries_view entries.now))) }
{
    let calls = item_calls(alloc, entries)?;
    plus(0, calls.len())
}

fn having_bound(
    alloc: Global,
    group: &Group<'_>,
    entries: &Entries<'_>,
    having: &Option<Tree>,
) -> Result<Option<Bound>, BindFault>
    ensures ok { IfOk result (λ o. q.having_bound (group_leaf group.now) (length (flat_map (λ e. listed_calls e.listed) (entries_view entries.now))) (optional_tree (option_map view having.now)) ≡ Ok (option_map bound_view o)) }
    ensures refused { (code : ScriptCode) → IsErrOf result (f.Refused code) → q.having_bound (group_leaf group.now) (length (flat_map (λ e. listed_calls e.listed) (entries_view entries.now))) (optional_tree (option_map view having.now)) ≡ Err code }
{
    match having {
        None => Ok(None),
        Some(tree) => {
            let number = count_calls(alloc, entries)?;
            let bound = bind_in_group(alloc, group, number, tree)?;
            let bound = condition(bound)?;
            Ok(Some(bound))
        }
    }
}

// HAVING and the items, the GROUP BY expressions being bound.
fn behind_keys(
    alloc: Global,
    group: Group<'_>,
    entries: &Entries<'_>,
    having: &Option<Tree>,
) -> Result<Parts, BindFault>
    ensures ok { IfOk result (λ x. p.behind_keys group.entry.scope.now (entries_view entries.now) (trees_view group.entry.trees.now) (optional_tree (option_map view having.now)) (bounds_view group.entry.keys) ≡ Ok (parts_view x)) }
    ensures refused { (code : ScriptCode) → IsErrOf result (f.Refused code) → p.behind_keys group.entry.scope.now (entries_view entries.now) (trees_view group.entry.trees.now) (optional_tree (option_map view having.now)) (bounds_view group.entry.keys) ≡ Err code }
{
    let having = having_bound(alloc, &group, entries, having)?;
    let items = list_bound(alloc, &group, entries)?;
    Ok(Parts {
        keys: group.keys,
        having,
        items,
    })
}

// The GROUP BY expressions, HAVING and the items.
pub(crate) fn parts_bound(
    alloc: Global,
    scope: &Scope,
    entries: &Entries<'_>,
    groups: &Trees,
    having: &Option<Tree>,
) -> Result<Parts, BindFault>
    ensures ok { IfOk result (λ x. p.parts_bound scope.now (entries_view entries.now) (trees_view groups.now) (optional_tree (option_map view having.now)) ≡ Ok (parts_view x)) }
    ensures refused { (code : ScriptCode) → IsErrOf result (f.Refused code) → p.parts_bound scope.now (entries_view entries.now) (trees_view groups.now) (optional_tree (option_map view having.now)) ≡ Err code }
{
    let keys = bind_each(alloc, scope, groups.as_slice())?;
    let group = group_of(alloc, scope, groups, keys)?;
    behind_keys(alloc, group, entries, having)
}
