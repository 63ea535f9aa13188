//! Trees over the columns in reach, and the conjuncts of a WHERE.
ghost use Rattle.bind_names.specs.declared.fault.BindFault.TheVariants as f;
ghost use Rattle.std.specs.Prelude.{◌≡◌, Ok, Err, IfOk, IsErrOf};
ghost use Rattle.ct_value.specs.declared.codes.ScriptCode.{ScriptCode};
ghost use Rattle.sql_syntax.specs.Tree.{over_of, some_over, sort_list, trees as tree_list};
ghost use Rattle.sql_syntax.specs.View.{view, sorts_view, trees_view};
ghost use Rattle.bind_names.specs.Lookups.{lookup_of};
ghost use Rattle.binding.specs.Expressions.{all_conjuncts_bound, bound, bound_by, bound_over, conditions, conjuncts_bound, each_bound, names, window_bound};
ghost use Rattle.bind_nodes.specs.Views.{bound_view, bounds_view};
ghost use Rattle.bind_expressions.specs.Reach.{group_leaf};
ghost use Rattle.bind_expressions.specs.Walk.{only_conjunct};

use crate::reach::Reach;
use crate::walk::bind;
use crate::{Group, walk};
use bind_names::{BindFault, Lookup};
use bind_nodes::{Bound, Bounds, columns_are_truths};
use ct_value::ScriptCode;
use query_answer::Scope;
use sql_syntax::{SortList, Tree, Trees};
use std::alloc::Global;

/// What a tree over the columns in reach is bound to; it has no place for aggregate calls.
pub fn bind_over(alloc: Global, scope: &Scope, tree: &Tree) -> Result<Bound, BindFault>
    ensures ok { IfOk result (λ x. bound_over scope.now (view tree.now) ≡ Ok (bound_view x)) }
    ensures refused { (code : ScriptCode) → IsErrOf result (f.Refused code) → bound_over scope.now (view tree.now) ≡ Err code }
{
    bind_by(alloc, Lookup::Own(scope), tree)
}

/// What a tree is bound to whose names stand for columns by a look-up; it has no place for aggregate calls.
#[tactic(auto, unfolding(crate::specs::Reach::leaf_of))]
pub fn bind_by(alloc: Global, look: Lookup<'_>, tree: &Tree) -> Result<Bound, BindFault>
    ensures ok { IfOk result (λ x. bound_by (lookup_of look.entry) (view tree.now) ≡ Ok (bound_view x)) }
    ensures refused { (code : ScriptCode) → IsErrOf result (f.Refused code) → bound_by (lookup_of look.entry) (view tree.now) ≡ Err code }
{
    let reach = Reach::Rows(look);
    bind(alloc, &reach, 0, tree)
}

/// The operands of an OVER, PARTITION BY and then ORDER BY, over the columns in reach.
pub fn bind_operands(
    alloc: Global,
    scope: &Scope,
    partition: &Trees,
    order: &SortList,
) -> Result<Bounds, BindFault>
    ensures ok { IfOk result (λ xs. window_bound (names scope.now) 0 (some_over (over_of (tree_list (trees_view partition.now)) (sort_list (sorts_view order.now)))) ≡ Ok (bounds_view xs)) }
    ensures refused { (code : ScriptCode) → IsErrOf result (f.Refused code) → window_bound (names scope.now) 0 (some_over (over_of (tree_list (trees_view partition.now)) (sort_list (sorts_view order.now)))) ≡ Err code }
{
    let reach = Reach::Rows(Lookup::Own(scope));
    let next = walk::after_all(alloc, 0, partition)?;
    walk::bind_all(alloc, &reach, 0, partition)?;
    let bounds = walk::bind_order(alloc, &reach, next, order)?;
    Ok(bounds)
}

/// What a tree in a group is bound to. Aggregate calls are counted from `number`.
#[tactic(auto, unfolding(crate::specs::Reach::leaf_of))]
pub fn bind_in_group(
    alloc: Global,
    group: &Group<'_>,
    number: u32,
    tree: &Tree,
) -> Result<Bound, BindFault>
    ensures ok { IfOk result (λ x. bound (group_leaf group.now) number (view tree.now) ≡ Ok (bound_view x)) }
    ensures refused { (code : ScriptCode) → IsErrOf result (f.Refused code) → bound (group_leaf group.now) number (view tree.now) ≡ Err code }
{
    let reach = Reach::Groups(group);
    bind(alloc, &reach, number, tree)
}

/// Trees over the columns in reach, one after the other.
pub fn bind_each(alloc: Global, scope: &Scope, trees: &[Tree]) -> Result<Bounds, BindFault>
    ensures ok { IfOk result (λ xs. each_bound scope.now (trees_view trees.now) ≡ Ok (bounds_view xs)) }
    ensures refused { (code : ScriptCode) → IsErrOf result (f.Refused code) → each_bound scope.now (trees_view trees.now) ≡ Err code }
{
    let mut bounds = Bounds::with_capacity(alloc, trees.len())?;
    for tree in trees {
        bounds.push(bind_over(alloc, scope, tree)?)?;
    }
    Ok(bounds)
}

/// The same expressions, of which there is one or more and each is BOOLEAN.
pub fn conditions(bounds: Bounds) -> Result<Bounds, BindFault>
    ensures ok { IfOk result (λ xs. conditions (bounds_view bounds) ≡ Ok (bounds_view xs)) }
    ensures refused { (code : ScriptCode) → IsErrOf result (f.Refused code) → conditions (bounds_view bounds) ≡ Err code }
{
    match columns_are_truths(&bounds) {
        Some(_) => Ok(bounds),
        None => Err(BindFault::Refused(ScriptCode::TypeMismatch)),
    }
}

// A tree that is one conjunct.
fn one_conjunct(alloc: Global, scope: &Scope, tree: &Tree) -> Result<Bounds, BindFault>
    ensures ok { IfOk result (λ xs. only_conjunct scope.now (view tree.now) ≡ Ok (bounds_view xs)) }
    ensures refused { (code : ScriptCode) → IsErrOf result (f.Refused code) → only_conjunct scope.now (view tree.now) ≡ Err code }
{
    let mut bounds = Bounds::with_capacity(alloc, 1)?;
    bounds.push(bind_over(alloc, scope, tree)?)?;
    Ok(bounds)
}

/// The top-level conjuncts of a condition, also those in parentheses.
#[cycle(conjuncts)]
#[tactic(auto, unfolding(sql_syntax::specs::View::view))]
pub fn bind_conjuncts(alloc: Global, scope: &Scope, tree: &Tree) -> Result<Bounds, BindFault>
    ensures ok { IfOk result (λ xs. conjuncts_bound scope.now (view tree.now) ≡ Ok (bounds_view xs)) }
    ensures refused { (code : ScriptCode) → IsErrOf result (f.Refused code) → conjuncts_bound scope.now (view tree.now) ≡ Err code }
{
    match tree {
        Tree::And(trees) => {
            let bounds = all_conjuncts(alloc, scope, trees)?;
            conditions(bounds)
        }
        Tree::Paren(value) => bind_conjuncts(alloc, scope, value),
        Tree::Or(_) | Tree::Not(_) | Tree::Exists(_) => one_conjunct(alloc, scope, tree),
        Tree::Compare { .. } | Tree::IsNull { .. } => one_conjunct(alloc, scope, tree),
        Tree::Between { .. } | Tree::InList { .. } => one_conjunct(alloc, scope, tree),
        Tree::InQuery { .. } | Tree::Like { .. } => one_conjunct(alloc, scope, tree),
        Tree::Sum { .. } | Tree::Product { .. } => one_conjunct(alloc, scope, tree),
        Tree::Sign { .. } | Tree::Number(_) | Tree::Str(_) => one_conjunct(alloc, scope, tree),
        Tree::Bool(_) | Tree::Null | Tree::Name { .. } => one_conjunct(alloc, scope, tree),
        Tree::Call { .. } | Tree::Cast { .. } => one_conjunct(alloc, scope, tree),
        Tree::Sub(_) | Tree::Case { .. } => one_conjunct(alloc, scope, tree),
    }
}

#[cycle(conjuncts)]
fn all_conjuncts(alloc: Global, scope: &Scope, trees: &Trees) -> Result<Bounds, BindFault>
    ensures ok { IfOk result (λ xs. all_conjuncts_bound scope.now (tree_list (trees_view trees.now)) ≡ Ok (bounds_view xs)) }
    ensures refused { (code : ScriptCode) → IsErrOf result (f.Refused code) → all_conjuncts_bound scope.now (tree_list (trees_view trees.now)) ≡ Err code }
{
    let mut bounds = Bounds::new(alloc);
    for tree in trees.as_slice() {
        bounds.append(bind_conjuncts(alloc, scope, tree)?)?;
    }
    Ok(bounds)
}
