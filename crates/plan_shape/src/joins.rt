//! The columns of joins, from those of both sides.
ghost use Rattle.std.specs.Prelude.{◌≡◌, ◌++◌, map, option_copied, option_map, IfOk};
ghost use Rattle.ct_expr.specs.Types.{both_of};
ghost use Rattle.ct_expr.specs.View.{expr_view};
ghost use Rattle.plan_rules.specs.Columns as c;
ghost use Rattle.rel_algebra.specs.Types as t;
ghost use Rattle.rel_algebra.specs.Joins as j;

use crate::input_columns::{NodeColumns, numbered_columns};
use ct_expr::{Expr, common_ty};
use ct_value::{ColTys, Memory, Numbers};
use rel_algebra::{JoinKind, Pair, Pairs};
use rel_columns::{is_condition, join_columns};

/// The columns of a join of two inputs.
pub(crate) fn joined(
    kind: JoinKind,
    on: &Pairs,
    rest: &Option<Expr>,
    done: &NodeColumns,
    inputs: &Numbers,
) -> Result<Option<ColTys>, Memory>
    ensures { IfOk result (λ made. made ≡ c.matched_columns on.now (option_map expr_view rest.now) (j.join_columns kind) (map (c.numbered_columns done.now) inputs.now)) }
{
    if inputs.len() == 2 {
        let left = numbered_columns(done, inputs.as_slice()[0]);
        let right = numbered_columns(done, inputs.as_slice()[1]);
        joined_sides(kind, on, rest, left, right)
    } else {
        Ok(None)
    }
}

// The same of the columns of both sides, where there are any.
fn joined_sides(
    kind: JoinKind,
    on: &Pairs,
    rest: &Option<Expr>,
    left: Option<&ColTys>,
    right: Option<&ColTys>,
) -> Result<Option<ColTys>, Memory>
    ensures { IfOk result (λ made. made ≡ both_of (λ l r. t.columns_if (t.match_fits l r on.now (option_map expr_view rest.now)) (j.join_columns kind l r)) (option_copied left.entry) (option_copied right.entry)) }
{
    let Some(left) = left else {
        return Ok(None);
    };
    let Some(right) = right else {
        return Ok(None);
    };
    if match_fits(on, rest, left, right)? {
        Ok(Some(join_columns(kind, left.dup()?, right.dup()?)?))
    } else {
        Ok(None)
    }
}

/// The columns of a semi join of two inputs.
pub(crate) fn semi_joined(
    on: &Pairs,
    rest: &Option<Expr>,
    done: &NodeColumns,
    inputs: &Numbers,
) -> Result<Option<ColTys>, Memory>
    ensures { IfOk result (λ made. made ≡ c.matched_columns on.now (option_map expr_view rest.now) (λ left right. left) (map (c.numbered_columns done.now) inputs.now)) }
{
    if inputs.len() == 2 {
        let left = numbered_columns(done, inputs.as_slice()[0]);
        let right = numbered_columns(done, inputs.as_slice()[1]);
        semi_sides(on, rest, left, right)
    } else {
        Ok(None)
    }
}

// The same of the columns of both sides, where there are any.
fn semi_sides(
    on: &Pairs,
    rest: &Option<Expr>,
    left: Option<&ColTys>,
    right: Option<&ColTys>,
) -> Result<Option<ColTys>, Memory>
    ensures { IfOk result (λ made. made ≡ both_of (λ l r. t.columns_if (t.match_fits l r on.now (option_map expr_view rest.now)) l) (option_copied left.entry) (option_copied right.entry)) }
{
    let Some(left) = left else {
        return Ok(None);
    };
    let Some(right) = right else {
        return Ok(None);
    };
    if match_fits(on, rest, left, right)? {
        Ok(Some(left.dup()?))
    } else {
        Ok(None)
    }
}

// Whether a condition on pairs of rows is well-typed over the columns of both sides.
fn match_fits(
    on: &Pairs,
    rest: &Option<Expr>,
    left: &ColTys,
    right: &ColTys,
) -> Result<bool, Memory>
    ensures { IfOk result (λ fits. fits ≡ t.match_fits left.now right.now on.now (option_map expr_view rest.now)) }
{
    if pairs_fit(on, left, right) {
        rest_fits(rest, left, right)
    } else {
        Ok(false)
    }
}

// Whether the rest of it is.
fn rest_fits(rest: &Option<Expr>, left: &ColTys, right: &ColTys) -> Result<bool, Memory>
    ensures { IfOk result (λ fits. fits ≡ t.is_condition_if (left.now ++ right.now) (option_map expr_view rest.now)) }
{
    match rest {
        None => Ok(true),
        Some(rest) => {
            let mut both = left.dup()?;
            both.append(right.dup()?)?;
            Ok(is_condition(rest, &both))
        }
    }
}

/// Whether the two columns of each pair are there, and have a common type.
pub fn pairs_fit(on: &Pairs, left: &ColTys, right: &ColTys) -> bool
    ensures { result ≡ t.pairs_fit left.now right.now on.now }
{
    for pair in on.as_slice() {
        if !pair_fits(*pair, left, right) {
            return false;
        }
    }
    true
}

// Whether those of one pair do.
fn pair_fits(pair: Pair, left: &ColTys, right: &ColTys) -> bool
    ensures { result ≡ t.pair_fits left.now right.now pair }
{
    let Some(column) = left.get(pair.left as usize) else {
        return false;
    };
    let Some(other) = right.get(pair.right as usize) else {
        return false;
    };
    common_ty(column.ty, other.ty).is_some()
}
