//! Nodes of trees whose operator may be missing.
ghost use Rattle.std.specs.Prelude.{◌≡◌, IfOk};
ghost use Rattle.sql_syntax.specs.View.{view, sum_tails_view, product_tails_view};
ghost use Rattle.sql_grammar.specs.Nodes.{product_node, sign_node, sum_node};

use ct_value::{Boxed, Memory};
use sql_syntax::{ProductTails, SumTails, Tree};
use std::alloc::Global;

/// The node of a sign, or its operand where it is missing.
#[tactic(auto, using(sql_syntax::proofs::laws::Views::tree_sign))]
pub fn sign_node(alloc: Global, sign: Option<bool>, value: Tree) -> Result<Tree, Memory>
    ensures { IfOk result (λ node. view node ≡ sign_node sign (view value)) }
{
    match sign {
        Some(minus) => {
            let value = Boxed::new(alloc, value)?;
            Ok(Tree::Sign { minus, value })
        }
        None => Ok(value),
    }
}

/// The node of a chain of terms, or its only one.
#[tactic(auto, using(crate::proofs::OperandChains::sum_alone, crate::proofs::OperandChains::sum_more))]
pub fn sum_node(alloc: Global, first: Tree, rest: SumTails) -> Result<Tree, Memory>
    ensures { IfOk result (λ node. view node ≡ sum_node (view first) (sum_tails_view rest)) }
{
    if rest.is_empty() {
        return Ok(first);
    }
    let first = Boxed::new(alloc, first)?;
    Ok(Tree::Sum { first, rest })
}

/// The node of a chain of factors, or its only one.
#[tactic(auto, using(crate::proofs::OperandChains::product_alone, crate::proofs::OperandChains::product_more))]
pub fn product_node(alloc: Global, first: Tree, rest: ProductTails) -> Result<Tree, Memory>
    ensures { IfOk result (λ node. view node ≡ product_node (view first) (product_tails_view rest)) }
{
    if rest.is_empty() {
        return Ok(first);
    }
    let first = Boxed::new(alloc, first)?;
    Ok(Tree::Product { first, rest })
}
