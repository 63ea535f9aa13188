//! The conjuncts of ON are key pairs, or else part of the rest.
ghost use Rattle.bind_names.specs.declared.fault.BindFault.TheVariants as f;
ghost use Rattle.std.specs.Prelude.{◌≡◌, [], ◌∷◌, ◌++◌, Ok, Err, OnOk, IsErrOf};
ghost use Rattle.ct_value.specs.declared.codes.ScriptCode.{ScriptCode};
ghost use Rattle.sql_syntax.specs.View.{view};
ghost use Rattle.query_answer.specs.Answer.{conjuncts};
ghost use Rattle.bind_nodes.specs.Views.{bounds_view};
ghost use Rattle.bind_sources.specs.Splits.{behind, conjuncts_of, pairs_in, rest_in};

use bind_expressions::bind_over;
use bind_names::{BindFault, Lookup, pair_of};
use bind_nodes::Bounds;
use query_answer::Scope;
use rel_algebra::Pairs;
use sql_syntax::{Tree, Trees};
use std::alloc::Global;

/// Key pairs, and the other conjuncts.
#[derive(Drop)]
pub(crate) struct Parts {
    pub(crate) pairs: Pairs,
    pub(crate) rest: Bounds,
}

/// Puts the conjuncts of a condition behind what was found; the left side has so many columns.
#[cycle(split)]
#[tactic(auto, unfolding(sql_syntax::specs::View::view))]
pub(crate) fn split(
    alloc: Global,
    parts: &mut Parts,
    scope: &Scope,
    width: u32,
    tree: &Tree,
) -> Result<(), BindFault>
    ensures pairs { OnOk result (parts.new.pairs ≡ parts.old.pairs ++ pairs_in scope.now width (conjuncts (view tree.now))) }
    ensures rest { OnOk result (behind (bounds_view parts.old.rest) (rest_in scope.now width (conjuncts (view tree.now))) ≡ Ok (bounds_view parts.new.rest)) }
    ensures refused { (code : ScriptCode) → IsErrOf result (f.Refused code) → rest_in scope.now width (conjuncts (view tree.now)) ≡ Err code }
{
    match tree {
        Tree::And(trees) => split_all(alloc, parts, scope, width, trees),
        Tree::Paren(value) => split(alloc, parts, scope, width, value),
        Tree::Or(_) | Tree::Not(_) | Tree::Exists(_) => one(alloc, parts, scope, width, tree),
        Tree::Compare { .. } | Tree::IsNull { .. } => one(alloc, parts, scope, width, tree),
        Tree::Between { .. } | Tree::InList { .. } => one(alloc, parts, scope, width, tree),
        Tree::InQuery { .. } | Tree::Like { .. } => one(alloc, parts, scope, width, tree),
        Tree::Sum { .. } | Tree::Product { .. } => one(alloc, parts, scope, width, tree),
        Tree::Sign { .. } | Tree::Number(_) | Tree::Str(_) => one(alloc, parts, scope, width, tree),
        Tree::Bool(_) | Tree::Null | Tree::Name { .. } => one(alloc, parts, scope, width, tree),
        Tree::Call { .. } | Tree::Cast { .. } => one(alloc, parts, scope, width, tree),
        Tree::Sub(_) | Tree::Case { .. } => one(alloc, parts, scope, width, tree),
    }
}

#[cycle(split)]
fn split_all(
    alloc: Global,
    parts: &mut Parts,
    scope: &Scope,
    width: u32,
    trees: &Trees,
) -> Result<(), BindFault>
    ensures pairs { OnOk result (parts.new.pairs ≡ parts.old.pairs ++ pairs_in scope.now width (conjuncts_of trees.now)) }
    ensures rest { OnOk result (behind (bounds_view parts.old.rest) (rest_in scope.now width (conjuncts_of trees.now)) ≡ Ok (bounds_view parts.new.rest)) }
    ensures refused { (code : ScriptCode) → IsErrOf result (f.Refused code) → rest_in scope.now width (conjuncts_of trees.now) ≡ Err code }
{
    for tree in trees.as_slice() {
        split(alloc, parts, scope, width, tree)?;
    }
    Ok(())
}

// A tree that is one conjunct.
fn one(
    alloc: Global,
    parts: &mut Parts,
    scope: &Scope,
    width: u32,
    tree: &Tree,
) -> Result<(), BindFault>
    ensures pairs { OnOk result (parts.new.pairs ≡ parts.old.pairs ++ pairs_in scope.now width (view tree.now ∷ [])) }
    ensures rest { OnOk result (behind (bounds_view parts.old.rest) (rest_in scope.now width (view tree.now ∷ [])) ≡ Ok (bounds_view parts.new.rest)) }
    ensures refused { (code : ScriptCode) → IsErrOf result (f.Refused code) → rest_in scope.now width (view tree.now ∷ []) ≡ Err code }
{
    match pair_of(Lookup::Own(scope), width, tree)? {
        Some(pair) => parts.pairs.push(pair)?,
        None => parts.rest.push(bind_over(alloc, scope, tree)?)?,
    }
    Ok(())
}
