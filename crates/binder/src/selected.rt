//! The select list of a select.
ghost use Rattle.bind_names.specs.declared.fault.BindFault.TheVariants as f;
ghost use Rattle.std.specs.Prelude.{◌≡◌, Ok, Err, option_map, IfOk, OnOk, IsErrOf};
ghost use Rattle.ct_value.specs.declared.codes.ScriptCode.{ScriptCode};
ghost use Rattle.sql_syntax.specs.Tree.{items as item_list, optional_tree, trees as tree_list};
ghost use Rattle.sql_syntax.specs.View.{view, items_view, trees_view};
ghost use Rattle.query_answer.specs.Answer.{entries, listed_trees};
ghost use Rattle.binding.specs.Queries as q;
ghost use Rattle.bind_clauses.specs.Views.{relation_view};
ghost use Rattle.bind_names.specs.Entries.{entries_view};
ghost use Rattle.binder.specs.Steps.{IsOk, listed};

use bind_clauses::{Relation, is_grouped, list_plain, once, plain_select};
use bind_names::{BindFault, Entries, entries_of};
use bind_sources::grouped_select;
use ct_value::ScriptCode;
use query_answer::Scope;
use sql_syntax::{Items, Tree, Trees};
use std::alloc::Global;

// The items with GROUP BY, HAVING and DISTINCT, over the columns in reach.
#[tactic(auto, using(crate::proofs::Selects::listed_all))]
pub(crate) fn selected<'a>(
    alloc: Global,
    distinct: bool,
    items: &'a Items,
    groups: &Trees,
    having: &'a Option<Tree>,
    relation: Relation,
) -> Result<Relation, BindFault>
    ensures ok { IfOk result (λ x. q.selected distinct (entries relation.scope (item_list (items_view items.now))) (listed_trees (tree_list (trees_view groups.now))) (optional_tree (option_map view having.now)) (relation_view relation) ≡ Ok (relation_view x)) }
    ensures refused { (code : ScriptCode) → IsErrOf result (f.Refused code) → q.selected distinct (entries relation.scope (item_list (items_view items.now))) (listed_trees (tree_list (trees_view groups.now))) (optional_tree (option_map view having.now)) (relation_view relation) ≡ Err code }
{
    let entries = entries_of(alloc, &relation.scope, items.as_slice())?;
    if entries.is_empty() {
        return Err(BindFault::Refused(ScriptCode::Unsupported));
    }
    let all = listed(alloc, &entries, groups, having, relation)?;
    Ok(once(alloc, distinct, all)?)
}

// The same before DISTINCT.
fn listed<'a>(
    alloc: Global,
    entries: &Entries<'a>,
    groups: &Trees,
    having: &'a Option<Tree>,
    relation: Relation,
) -> Result<Relation, BindFault>
    ensures ok { IfOk result (λ x. listed (entries_view entries.now) (trees_view groups.now) (optional_tree (option_map view having.now)) (relation_view relation) ≡ Ok (relation_view x)) }
    ensures refused { (code : ScriptCode) → IsErrOf result (f.Refused code) → listed (entries_view entries.now) (trees_view groups.now) (optional_tree (option_map view having.now)) (relation_view relation) ≡ Err code }
{
    if is_grouped(alloc, entries, groups.as_slice(), having)? {
        return grouped_select(alloc, entries, groups, having, relation);
    }
    plain_select(alloc, entries, relation)
}

// The select list of a subquery that is bound for its refusals alone.
pub(crate) fn refuse_list(alloc: Global, scope: &Scope, items: &Items) -> Result<(), BindFault>
    ensures ok { OnOk result (IsOk (q.list_bound (q.plain_listed scope.now) (entries scope.now (item_list (items_view items.now))))) }
    ensures refused { (code : ScriptCode) → IsErrOf result (f.Refused code) → q.list_bound (q.plain_listed scope.now) (entries scope.now (item_list (items_view items.now))) ≡ Err code }
{
    let entries = entries_of(alloc, scope, items.as_slice())?;
    list_plain(alloc, scope, &entries)?;
    Ok(())
}
