//! Nodes of trees whose operator may be missing.
ghost use Rattle.std.specs.Prelude.{◌≡◌, ◌∷◌, [], length, IfOk, IfErr};
ghost use Rattle.sql_syntax.specs.View.{view, trees_view};
ghost use Rattle.sql_grammar.specs.Nodes.{and_of, not_node, or_of};

use ct_value::{Boxed, Memory};
use sql_syntax::{Tree, Trees};
use std::alloc::Global;

/// The node of NOT, or its operand where it is missing.
#[tactic(auto, using(sql_syntax::proofs::laws::Views::tree_not))]
pub fn not_node(alloc: Global, negated: bool, value: Tree) -> Result<Tree, Memory>
    ensures { IfOk result (λ node. view node ≡ not_node negated (view value)) }
{
    if negated {
        let value = Boxed::new(alloc, value)?;
        return Ok(Tree::Not(value));
    }
    Ok(value)
}

// The only expression of a list, or the list.
#[tactic(auto, using(crate::proofs::Chains::only_one))]
fn alone(list: Trees) -> Result<Tree, Trees>
    ensures one { IfOk result (λ tree. trees_view list ≡ view tree ∷ []) }
    ensures others { IfErr result (λ same. (same ≡ list) × ¬ (length list ≡ 1)) }
{
    let mut list = list;
    if list.len() != 1 {
        return Err(list);
    }
    match list.pop() {
        Some(tree) => Ok(tree),
        None => Err(list),
    }
}

/// The node of a chain of AND, or its only operand.
#[tactic(auto, using(crate::proofs::Chains::and_more))]
pub fn and_node(list: Trees) -> Tree
    ensures { view result ≡ and_of (trees_view list) }
{
    match alone(list) {
        Ok(tree) => tree,
        Err(list) => Tree::And(list),
    }
}

/// The node of a chain of OR, or its only operand.
#[tactic(auto, using(crate::proofs::Chains::or_more))]
pub fn or_node(list: Trees) -> Tree
    ensures { view result ≡ or_of (trees_view list) }
{
    match alone(list) {
        Ok(tree) => tree,
        Err(list) => Tree::Or(list),
    }
}
