//! What stands at each node of a tree: its operator, which asks for its inputs, and the first of these.
ghost use Rattle.std.specs.Prelude.{◌≡◌, map, option_map, IfOk};
ghost use Rattle.ct_expr.specs.View.{expr_view, exprs_view};
ghost use Rattle.ct_expr.specs.Views.{expr_of};
ghost use Rattle.rel_algebra.specs.View.{rel_view};
ghost use Rattle.phys_plan.specs.declared.node.Op.TheVariants as op;
ghost use Rattle.plan_rules.specs.Roles.{group_op};
ghost use Rattle.plan_laying.specs.Steps.{IsStep};
ghost use Rattle.plan_laying.specs.Ways.{first_input, seen};

use crate::parts::dup_rest;
use ct_expr::{Expr, Exprs, dup_exprs};
use ct_value::{Cols, Memory};
use phys_plan::Op;
use rel_algebra::{Aggs, JoinKind, Pairs, Rel, Sorts};

/// A table, trees whose rows are put together, an operator over a first input, or one over that and another.
#[derive(Drop)]
pub(crate) enum Step<'a> {
    Table(u32),
    All(&'a [Rel]),
    One(Op),
    Two(Op, &'a Rel),
}

/// What stands at a tree's root, where bundles hold so many changes.
#[tactic(auto, unfolding(rel_algebra::specs::View::rel_view))]
pub(crate) fn step_of(mini_batch: u32, rel: &Rel) -> Result<Step<'_>, Memory>
    ensures { IfOk result (λ step. IsStep mini_batch (rel_view rel.now) step) }
{
    match rel {
        Rel::Scan { source } => Ok(Step::Table(*source)),
        Rel::Union { inputs } => Ok(Step::All(inputs.as_slice())),
        Rel::Filter { cond, .. } => Ok(Step::One(filter(cond)?)),
        Rel::Project { items, .. } => Ok(Step::One(project(items)?)),
        Rel::Group { keys, aggs, .. } => Ok(Step::One(group(mini_batch, *keys, aggs)?)),
        Rel::Join {
            right,
            kind,
            on,
            rest,
            ..
        } => Ok(Step::Two(join(*kind, on, rest)?, right)),
        Rel::Semi {
            right,
            anti,
            on,
            rest,
            ..
        } => Ok(Step::Two(semi(*anti, on, rest)?, right)),
        Rel::SetOp {
            right,
            except,
            all,
            columns,
            ..
        } => Ok(Step::Two(set_operation(*except, *all, *columns), right)),
        Rel::Rank {
            partition,
            order,
            bound,
            ranked,
            ..
        } => Ok(Step::One(rank(partition, order, *bound, *ranked)?)),
    }
}

/// The first input of a tree, if it has one.
#[tactic(auto, unfolding(rel_algebra::specs::View::rel_view))]
pub(crate) fn first_input(rel: &Rel) -> Option<&Rel>
    ensures { option_map seen result ≡ first_input (rel_view rel.now) }
{
    match rel {
        Rel::Scan { .. } | Rel::Union { .. } => None,
        Rel::Filter { input, .. } | Rel::Project { input, .. } => Some(input),
        Rel::Group { input, .. } | Rel::Rank { input, .. } => Some(input),
        Rel::Join { left, .. } | Rel::Semi { left, .. } => Some(left),
        Rel::SetOp { left, .. } => Some(left),
    }
}

#[tactic(auto, using(crate::proofs::laws::Copies::copied))]
fn filter(cond: &Expr) -> Result<Op, Memory>
    ensures { IfOk result (λ o. o ≡ op.Filter (expr_of (expr_view cond.now))) }
{
    let cond = cond.dup()?;
    Ok(Op::Filter { cond })
}

#[tactic(auto, using(crate::proofs::laws::Copies::all_copied))]
fn project(items: &Exprs) -> Result<Op, Memory>
    ensures { IfOk result (λ o. o ≡ op.Project (map expr_of (exprs_view items.now))) }
{
    let items = dup_exprs(items)?;
    Ok(Op::Project { items })
}

// A group by keys keeps bundles where there are any.
fn group(mini_batch: u32, keys: u32, aggs: &Aggs) -> Result<Op, Memory>
    ensures { IfOk result (λ o. o ≡ group_op mini_batch keys aggs.now) }
{
    let aggs = aggs.dup()?;
    if mini_batch == 0 || keys == 0 {
        Ok(Op::Group { keys, aggs })
    } else {
        Ok(Op::BatchGroup { keys, aggs })
    }
}

#[tactic(auto, using(crate::proofs::laws::Copies::rest_copied))]
fn join(kind: JoinKind, on: &Pairs, rest: &Option<Expr>) -> Result<Op, Memory>
    ensures { IfOk result (λ o. o ≡ op.Join kind on.now (option_map expr_of (option_map expr_view rest.now))) }
{
    let on = on.dup()?;
    let rest = dup_rest(rest)?;
    Ok(Op::Join { kind, on, rest })
}

#[tactic(auto, using(crate::proofs::laws::Copies::rest_copied))]
fn semi(anti: bool, on: &Pairs, rest: &Option<Expr>) -> Result<Op, Memory>
    ensures { IfOk result (λ o. o ≡ op.Semi anti on.now (option_map expr_of (option_map expr_view rest.now))) }
{
    let on = on.dup()?;
    let rest = dup_rest(rest)?;
    Ok(Op::Semi { anti, on, rest })
}

fn set_operation(except: bool, all: bool, columns: u32) -> Op
    ensures { result ≡ op.SetOp except all columns }
{
    Op::SetOp {
        except,
        all,
        columns,
    }
}

fn rank(partition: &Cols, order: &Sorts, bound: u32, ranked: bool) -> Result<Op, Memory>
    ensures { IfOk result (λ o. o ≡ op.TopN partition.now order.now bound ranked) }
{
    let partition = partition.dup()?;
    let order = order.dup()?;
    Ok(Op::TopN {
        partition,
        order,
        bound,
        ranked,
    })
}
