//! PARTITION BY and ORDER BY: plain columns, by their places.
ghost use Rattle.bind_names.specs.declared.fault.BindFault.TheVariants as f;
ghost use Rattle.std.specs.Prelude.{◌≡◌, Ok, Err, IfOk, IsErrOf};
ghost use Rattle.ct_value.specs.declared.codes.ScriptCode.{ScriptCode};
ghost use Rattle.sql_syntax.specs.Tree.{sort_list, trees as tree_list};
ghost use Rattle.sql_syntax.specs.View.{view, sort_view, sorts_view, trees_view};
ghost use Rattle.query_answer.specs.Joins.{plain_column};
ghost use Rattle.query_answer.specs.Names.{find};
ghost use Rattle.binding.specs.Queries as q;
ghost use Rattle.bind_nested.specs.Sorts.{sort_bound};

use bind_names::{BindFault, Lookup, plain_column};
use ct_value::{Cols, ScriptCode};
use query_answer::{Found, Scope};
use rel_algebra::{SortCol, Sorts};
use sql_syntax::{Sort, SortList, Tree, Trees};
use std::alloc::Global;

fn plain_place(scope: &Scope, tree: &Tree) -> Result<u32, BindFault>
    ensures ok { IfOk result (λ n. q.plain_place (plain_column (find scope.now) (view tree.now)) ≡ Ok n) }
    ensures refused { (code : ScriptCode) → IsErrOf result (f.Refused code) → q.plain_place (plain_column (find scope.now) (view tree.now)) ≡ Err code }
{
    match plain_column(Lookup::Own(scope), tree)? {
        Found::At(place, _) => Ok(place),
        Found::Absent | Found::Several => Err(BindFault::Refused(ScriptCode::Unsupported)),
    }
}

/// The columns of PARTITION BY.
pub(crate) fn places_bound(alloc: Global, scope: &Scope, trees: &Trees) -> Result<Cols, BindFault>
    ensures ok { IfOk result (λ ns. q.places_bound scope.now (tree_list (trees_view trees.now)) ≡ Ok ns) }
    ensures refused { (code : ScriptCode) → IsErrOf result (f.Refused code) → q.places_bound scope.now (tree_list (trees_view trees.now)) ≡ Err code }
{
    let mut places = Cols::with_capacity(alloc, trees.len())?;
    for tree in trees.as_slice() {
        places.push(plain_place(scope, tree)?)?;
    }
    Ok(places)
}

#[tactic(auto, using(sql_syntax::proofs::laws::Views::sort))]
fn sort_bound(scope: &Scope, sort: &Sort) -> Result<SortCol, BindFault>
    ensures ok { IfOk result (λ s. sort_bound scope.now (sort_view sort.now) ≡ Ok s) }
    ensures refused { (code : ScriptCode) → IsErrOf result (f.Refused code) → sort_bound scope.now (sort_view sort.now) ≡ Err code }
{
    Ok(SortCol {
        col: plain_place(scope, &sort.value)?,
        desc: sort.desc,
    })
}

/// The columns of ORDER BY.
pub(crate) fn sorts_bound(
    alloc: Global,
    scope: &Scope,
    order: &SortList,
) -> Result<Sorts, BindFault>
    ensures ok { IfOk result (λ ss. q.sorts_bound scope.now (sort_list (sorts_view order.now)) ≡ Ok ss) }
    ensures refused { (code : ScriptCode) → IsErrOf result (f.Refused code) → q.sorts_bound scope.now (sort_list (sorts_view order.now)) ≡ Err code }
{
    let mut sorts = Sorts::with_capacity(alloc, order.len())?;
    for sort in order.as_slice() {
        sorts.push(sort_bound(scope, sort)?)?;
    }
    Ok(sorts)
}
