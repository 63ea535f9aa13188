//! Selects without groups.
ghost use Rattle.bind_names.specs.declared.fault.BindFault.TheVariants as f;
ghost use Rattle.std.specs.Prelude.{◌≡◌, Ok, Err, option_map, IfOk, IsErrOf};
ghost use Rattle.ct_value.specs.declared.codes.ScriptCode.{ScriptCode};
ghost use Rattle.ct_value.specs.declared.codes.ScriptCode.TheVariants.{UnknownColumn};
ghost use Rattle.binding.specs.Checked.{or_code};
ghost use Rattle.binding.specs.Expressions as e;
ghost use Rattle.binding.specs.Queries as q;
ghost use Rattle.bind_nodes.specs.Views.{bound_view, bounds_view};
ghost use Rattle.bind_clauses.specs.Lists.{one_listed};
ghost use Rattle.bind_clauses.specs.Views.{relation_view};
ghost use Rattle.bind_names.specs.Entries.{entries_view, listed_view};

use crate::lists::{few, finished};
use crate::relation::Relation;
use bind_expressions::bind_over;
use bind_names::{BindFault, Entries, Listed};
use bind_nodes::{Bound, Bounds, column};
use ct_value::ScriptCode;
use query_answer::{Scope, ScopeColumn};
use std::alloc::Global;

/// The select list over the columns in reach, where the select has no groups.
pub fn plain_select(
    alloc: Global,
    entries: &Entries<'_>,
    relation: Relation,
) -> Result<Relation, BindFault>
    ensures ok { IfOk result (λ x. q.plain_select (entries_view entries.now) (relation_view relation) ≡ Ok (relation_view x)) }
    ensures refused { (code : ScriptCode) → IsErrOf result (f.Refused code) → q.plain_select (entries_view entries.now) (relation_view relation) ≡ Err code }
{
    let bounds = list_plain(alloc, &relation.scope, entries)?;
    let width = relation.scope.len();
    Ok(finished(alloc, width, entries, bounds, relation.rel)?)
}

/// What a select list without groups lists, of which there is at most 64.
pub fn list_plain(alloc: Global, scope: &Scope, entries: &Entries<'_>) -> Result<Bounds, BindFault>
    ensures ok { IfOk result (λ xs. q.list_bound (q.plain_listed scope.now) (entries_view entries.now) ≡ Ok (bounds_view xs)) }
    ensures refused { (code : ScriptCode) → IsErrOf result (f.Refused code) → q.list_bound (q.plain_listed scope.now) (entries_view entries.now) ≡ Err code }
{
    let bounds = each_listed(alloc, scope, entries)?;
    few(bounds)
}

/// What each entry lists, in order.
#[tactic(auto, using(crate::proofs::InTurn::from_first))]
pub fn each_listed(alloc: Global, scope: &Scope, entries: &Entries<'_>) -> Result<Bounds, BindFault>
    ensures ok { IfOk result (λ xs. q.in_turn (q.plain_listed scope.now) 0 (entries_view entries.now) ≡ Ok (bounds_view xs)) }
    ensures refused { (code : ScriptCode) → IsErrOf result (f.Refused code) → q.in_turn (q.plain_listed scope.now) 0 (entries_view entries.now) ≡ Err code }
{
    let mut bounds = Bounds::with_capacity(alloc, entries.len())?;
    for entry in entries.as_slice() {
        bounds.push(one_listed(alloc, scope, &entry.listed)?)?;
    }
    Ok(bounds)
}

// What an entry lists.
fn one_listed(alloc: Global, scope: &Scope, listed: &Listed<'_>) -> Result<Bound, BindFault>
    ensures ok { IfOk result (λ x. one_listed scope.now (listed_view listed.now) ≡ Ok (bound_view x)) }
    ensures refused { (code : ScriptCode) → IsErrOf result (f.Refused code) → one_listed scope.now (listed_view listed.now) ≡ Err code }
{
    match listed {
        Listed::Placed(place) => column_at(alloc, *place, scope.get(*place as usize)),
        Listed::Written(tree) => bind_over(alloc, scope, tree),
        Listed::NoSource => Err(BindFault::Refused(ScriptCode::UnknownColumn)),
    }
}

fn column_at(alloc: Global, place: u32, found: Option<&ScopeColumn>) -> Result<Bound, BindFault>
    ensures ok { IfOk result (λ x. or_code UnknownColumn (option_map (λ c. e.column place c.now.ty) found.entry) ≡ Ok (bound_view x)) }
    ensures refused { (code : ScriptCode) → IsErrOf result (f.Refused code) → or_code UnknownColumn (option_map (λ c. e.column place c.now.ty) found.entry) ≡ Err code }
{
    match found {
        None => Err(BindFault::Refused(ScriptCode::UnknownColumn)),
        Some(found) => column(alloc, place, found.ty),
    }
}
