//! Grouped selects.
ghost use Rattle.bind_names.specs.declared.fault.BindFault.TheVariants as f;
ghost use Rattle.std.specs.Prelude.{◌≡◌, ◌+◌, Ok, Err, length, map, option_map, IfOk, IsErrOf};
ghost use Rattle.ct_value.specs.declared.codes.ScriptCode.{ScriptCode};
ghost use Rattle.sql_syntax.specs.Tree.{optional_tree};
ghost use Rattle.sql_syntax.specs.View.{view, trees_view};
ghost use Rattle.binding.specs.Queries as q;
ghost use Rattle.bind_names.specs.Calls.{call_view};
ghost use Rattle.bind_nodes.specs.Views.{bounds_view};
ghost use Rattle.bind_clauses.specs.Views.{relation_view};
ghost use Rattle.bind_names.specs.Entries.{entries_view};
ghost use Rattle.bind_sources.specs.Lists.{made_of};
ghost use Rattle.bind_sources.specs.Views.{calls_view, parts_view};

use crate::calls::{BoundCalls, calls_bound, inputs_of};
use crate::lists::{Parts, parts_bound};
use crate::rel::{filter_if, group_rel};
use bind_clauses::{Relation, finished, select_calls};
use bind_expressions::{has_no_keys, plus};
use bind_names::{BindFault, CallRefs, Entries};
use ct_value::Memory;
use sql_syntax::{Tree, Trees};
use std::alloc::Global;

// How many columns the row of a group has.
fn group_width(parts: &Parts, calls: &CallRefs<'_>) -> Result<u32, Memory>
    ensures { IfOk result (λ width. width ≡ length (bounds_view parts.now.keys) + length (map call_view calls.now)) }
{
    let keys = plus(0, parts.keys.len())?;
    plus(keys, calls.len())
}

// The Group, HAVING and the select list over the rows of groups.
fn made(
    alloc: Global,
    entries: &Entries<'_>,
    parts: Parts,
    calls: &CallRefs<'_>,
    bound: BoundCalls,
    relation: Relation,
) -> Result<Relation, Memory>
    ensures { IfOk result (λ x. relation_view x ≡ made_of (entries_view entries.now) (relation_view relation) (map call_view calls.now) (parts_view parts) (calls_view bound)) }
{
    let width = group_width(&parts, calls)?;
    let inputs = inputs_of(alloc, bound)?;
    let columns = relation.scope.len();
    let groups = group_rel(alloc, columns, parts.keys, inputs, calls, relation.rel)?;
    let kept = filter_if(alloc, parts.having, groups)?;
    finished(alloc, width as usize, entries, parts.items, kept)
}

/// A select with GROUP BY, HAVING or an aggregate among its items.
pub fn grouped_select<'a>(
    alloc: Global,
    entries: &Entries<'a>,
    groups: &Trees,
    having: &'a Option<Tree>,
    relation: Relation,
) -> Result<Relation, BindFault>
    ensures ok { IfOk result (λ x. q.grouped_select (entries_view entries.now) (trees_view groups.now) (optional_tree (option_map view having.now)) (relation_view relation) ≡ Ok (relation_view x)) }
    ensures refused { (code : ScriptCode) → IsErrOf result (f.Refused code) → q.grouped_select (entries_view entries.now) (trees_view groups.now) (optional_tree (option_map view having.now)) (relation_view relation) ≡ Err code }
{
    let parts = parts_bound(alloc, &relation.scope, entries, groups, having)?;
    let calls = select_calls(alloc, entries, having)?;
    let global = has_no_keys(&parts.keys);
    let bound = calls_bound(alloc, &relation.scope, global, &calls)?;
    Ok(made(alloc, entries, parts, &calls, bound, relation)?)
}
