//! The numbers of bounds.
ghost use Rattle.std.specs.Prelude.{◌≡◌};
ghost use Rattle.sql_syntax.specs.View.{view};
ghost use Rattle.query_answer.specs.Ranks as q;

use bind_names::number_of;
use ct_value::{CompareOp, Ty};
use sql_syntax::Tree;

// The number of a literal that is an INT.
fn int_of(number: Option<(i128, Ty)>) -> Option<u128>
    ensures { result ≡ q.int_of number }
{
    match number {
        Some((number, Ty::Int)) => Some(number.unsigned_abs()),
        _ => None,
    }
}

// That of a tree which is such a literal, also in parentheses.
#[tactic(auto, unfolding(sql_syntax::specs::View::view))]
fn int_literal(tree: &Tree) -> Option<u128>
    ensures { result ≡ q.int_literal (view tree.now) }
{
    match tree {
        Tree::Number(text) => int_of(number_of(text)),
        Tree::Paren(value) => int_literal(value),
        _ => None,
    }
}

// How many ranks a comparison with a number leaves, from the first.
fn ranks_left(op: CompareOp, number: u128) -> u128
    ensures { result ≡ q.ranks_left op number }
{
    match op {
        CompareOp::Le => number,
        CompareOp::Lt => number.saturating_sub(1),
        CompareOp::Eq => { if number == 1 { 1 } else { 0 } }
        CompareOp::Ne | CompareOp::Gt | CompareOp::Ge => 0,
    }
}

// A bound is 1 to 10,000.
fn bound_if(number: u128) -> Option<u32>
    ensures { result ≡ q.bound_if number }
{
    if 1 <= number && number <= 10_000 {
        return Some(number as u32);
    }
    None
}

/// The bound that a comparison with a literal sets.
pub(crate) fn bound_by(op: CompareOp, tree: &Tree) -> Option<u32>
    ensures { result ≡ q.bound_by op (q.int_literal (view tree.now)) }
{
    match int_literal(tree) {
        None => None,
        Some(number) => bound_if(ranks_left(op, number)),
    }
}
