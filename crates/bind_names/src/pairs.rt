//! Key pairs: conjuncts that compare a column of one side with one of the other. Names stand for columns of a row of both.
ghost use Rattle.std.specs.Prelude.{◌≡◌, IfOk};
ghost use Rattle.sql_syntax.specs.View.{view};
ghost use Rattle.query_answer.specs.Joins as j;
ghost use Rattle.bind_names.specs.Lookups.{lookup_of};

use crate::names::Lookup;
use ct_expr::common_ty;
use ct_value::{ColTy, CompareOp, Memory};
use query_answer::Found;
use rel_algebra::Pair;
use sql_syntax::Tree;

/// The column that a plain column stands for, also in parentheses.
#[tactic(auto, unfolding(sql_syntax::specs::View::view))]
pub fn plain_column(look: Lookup<'_>, tree: &Tree) -> Result<Found, Memory>
    ensures { IfOk result (λ found. found ≡ j.plain_column (lookup_of look.entry) (view tree.now)) }
{
    match tree {
        Tree::Name { of, name, .. } => look.find(of, name),
        Tree::Paren(value) => plain_column(look, value),
        _ => Ok(Found::Absent),
    }
}

// A column of the left side, which has so many, and one of the right side, where they have a common type.
fn pair_at(width: u32, left: u32, ty: ColTy, right: u32, other: ColTy) -> Option<Pair>
    ensures { result ≡ j.pair_at width left ty right other }
{
    if left < width && width <= right && common_ty(ty.ty, other.ty).is_some() {
        return Some(Pair {
            left,
            right: right - width,
        });
    }
    None
}

/// The key pair of a column of one side and one of the other, where the left side has so many columns and they have a common type.
pub fn pair_found(width: u32, found: Found, other: Found) -> Option<Pair>
    ensures { result ≡ j.pair_found width found other }
{
    match (found, other) {
        (Found::At(left, ty), Found::At(right, of)) => match pair_at(width, left, ty, right, of) {
            Some(pair) => Some(pair),
            None => pair_at(width, right, of, left, ty),
        },
        _ => None,
    }
}

/// The key pair that a conjunct is, where the left side has so many columns.
#[tactic(auto, unfolding(sql_syntax::specs::View::view))]
pub fn pair_of(look: Lookup<'_>, width: u32, tree: &Tree) -> Result<Option<Pair>, Memory>
    ensures { IfOk result (λ pair. pair ≡ j.pair_of width (lookup_of look.entry) (view tree.now)) }
{
    match tree {
        Tree::Compare {
            op: CompareOp::Eq,
            left,
            right,
        } => {
            let found = plain_column(look, left)?;
            let other = plain_column(look, right)?;
            Ok(pair_found(width, found, other))
        }
        _ => Ok(None),
    }
}
