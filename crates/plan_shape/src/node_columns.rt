//! How many inputs an operator has, and the columns of one node, from those of its inputs.
ghost use Rattle.std.specs.Prelude.{◌≡◌, ◌==◌, None, cond, length, map, option_copied, option_map, option_and_then, slice_get, IfOk};
ghost use Rattle.ct_expr.specs.Types.{both_of};
ghost use Rattle.ct_expr.specs.View.{expr_view, exprs_view};
ghost use Rattle.ct_catalog.specs.Columns.{column_types};
ghost use Rattle.plan_rules.specs.Columns as c;
ghost use Rattle.rel_algebra.specs.Types as t;
ghost use Rattle.rel_algebra.specs.Groups as g;
ghost use Rattle.rel_algebra.specs.Sets as s;
ghost use Rattle.plan_shape.specs.Shape.{takes};

use crate::input_columns::{NodeColumns, numbered_columns, only_input, same_columns};
use crate::joins::{joined, semi_joined};
use crate::ranks::ranked;
use ct_catalog::Sources;
use ct_expr::{Expr, Exprs};
use ct_value::{ColTys, Memory, Numbers};
use phys_plan::{Node, Op};
use rel_algebra::{Aggs, SetKind, set_kind};
use rel_columns::{group_columns, is_condition, item_columns, set_columns};

/// Whether an operator has so many inputs.
pub(crate) fn takes(op: &Op, inputs: usize) -> bool
    ensures { result ≡ takes op.now inputs }
{
    match op {
        Op::Scan { .. } => inputs == 0,
        Op::Union => 2 <= inputs,
        Op::Join { .. } | Op::Semi { .. } | Op::SetOp { .. } => inputs == 2,
        Op::MultiJoin { .. } => 3 <= inputs && inputs <= 8,
        Op::Filter { .. } | Op::Project { .. } | Op::Normalize { .. } => inputs == 1,
        Op::Group { .. } | Op::BatchGroup { .. } | Op::LocalGroup { .. } => inputs == 1,
        Op::TopN { .. } | Op::Materialize { .. } | Op::Sink => inputs == 1,
    }
}

/// The columns of a node behind these.
pub fn next_columns(
    sources: &Sources,
    done: &NodeColumns,
    node: &Node,
) -> Result<Option<ColTys>, Memory>
    ensures { IfOk result (λ made. made ≡ c.next_columns sources.now done.now node.now) }
{
    match &node.op {
        Op::Scan { source } => table_columns(sources, *source),
        Op::Filter { cond } => filtered(cond, only_input(done, &node.inputs)),
        Op::Project { items } => projected(items, only_input(done, &node.inputs)),
        Op::Union => common_input(done, &node.inputs),
        Op::Normalize { .. } | Op::LocalGroup { .. } => {
            same_columns(only_input(done, &node.inputs))
        }
        Op::Group { keys, aggs } | Op::BatchGroup { keys, aggs } => {
            grouped(*keys, aggs, only_input(done, &node.inputs))
        }
        Op::Join { kind, on, rest } => joined(*kind, on, rest, done, &node.inputs),
        Op::Semi { on, rest, .. } => semi_joined(on, rest, done, &node.inputs),
        Op::SetOp {
            except,
            columns,
            ..
        } => set_operated(*except, *columns, done, &node.inputs),
        Op::TopN {
            partition,
            order,
            bound,
            ranked: with_rank,
        } => ranked(
            partition,
            order,
            *bound,
            *with_rank,
            only_input(done, &node.inputs),
        ),
        Op::Materialize { .. } => same_columns(only_input(done, &node.inputs)),
        Op::Sink => same_columns(only_input(done, &node.inputs)),
        Op::MultiJoin { .. } => Ok(None),
    }
}

// The columns of a table, where it is there.
fn table_columns(sources: &Sources, source: u32) -> Result<Option<ColTys>, Memory>
    ensures { IfOk result (λ made. made ≡ option_map column_types (slice_get sources.now source)) }
{
    match sources.get(source as usize) {
        None => Ok(None),
        Some(table) => Ok(Some(table.types()?)),
    }
}

// The input's columns, where the condition is BOOLEAN over them.
fn filtered(condition: &Expr, input: Option<&ColTys>) -> Result<Option<ColTys>, Memory>
    ensures { IfOk result (λ made. made ≡ option_and_then (λ columns. t.columns_if (t.is_condition columns (expr_view condition.now)) columns) (option_copied input.entry)) }
{
    match input {
        None => Ok(None),
        Some(columns) => kept_if(is_condition(condition, columns), columns),
    }
}

// These columns, or none.
fn kept_if(test: bool, columns: &ColTys) -> Result<Option<ColTys>, Memory>
    ensures { IfOk result (λ made. made ≡ t.columns_if test columns.now) }
{
    if test {
        Ok(Some(columns.dup()?))
    } else {
        Ok(None)
    }
}

// The columns of items over the input's.
fn projected(items: &Exprs, input: Option<&ColTys>) -> Result<Option<ColTys>, Memory>
    ensures { IfOk result (λ made. made ≡ option_and_then (λ columns. t.item_columns columns (exprs_view items.now)) (option_copied input.entry)) }
{
    match input {
        None => Ok(None),
        Some(columns) => item_columns(items, columns),
    }
}

// The columns of a group over the input's.
fn grouped(keys: u32, aggs: &Aggs, input: Option<&ColTys>) -> Result<Option<ColTys>, Memory>
    ensures { IfOk result (λ made. made ≡ option_and_then (λ columns. g.group_columns keys columns aggs.now) (option_copied input.entry)) }
{
    match input {
        None => Ok(None),
        Some(columns) => group_columns(keys, columns, aggs),
    }
}

// The common columns of one input or more.
fn common_input(done: &NodeColumns, inputs: &Numbers) -> Result<Option<ColTys>, Memory>
    ensures { IfOk result (λ made. made ≡ c.common_of (map (c.numbered_columns done.now) inputs.now)) }
{
    if inputs.is_empty() {
        return Ok(None);
    }
    let mut common = same_columns(numbered_columns(done, inputs.as_slice()[0]))?;
    for i in 1..inputs.len() {
        common = with_input(common, numbered_columns(done, inputs.as_slice()[i]))?;
    }
    Ok(common)
}

// The common columns of these and of one input more.
fn with_input(common: Option<ColTys>, input: Option<&ColTys>) -> Result<Option<ColTys>, Memory>
    ensures { IfOk result (λ made. made ≡ both_of t.common_columns common (option_copied input.entry)) }
{
    let Some(columns) = common else {
        return Ok(None);
    };
    let Some(others) = input else {
        return Ok(None);
    };
    set_columns(SetKind::Union, &columns, others)
}

// The columns of a set operation on two inputs, of which the left has so many.
fn set_operated(
    except: bool,
    columns: u32,
    done: &NodeColumns,
    inputs: &Numbers,
) -> Result<Option<ColTys>, Memory>
    ensures { IfOk result (λ made. made ≡ c.of_two (λ l r. cond (length l == columns) (s.set_columns (s.set_kind except) l r) None) (map (c.numbered_columns done.now) inputs.now)) }
{
    if inputs.len() == 2 {
        let left = numbered_columns(done, inputs.as_slice()[0]);
        let right = numbered_columns(done, inputs.as_slice()[1]);
        operated_sides(except, columns, left, right)
    } else {
        Ok(None)
    }
}

// The same of the columns of both sides, where there are any.
fn operated_sides(
    except: bool,
    columns: u32,
    left: Option<&ColTys>,
    right: Option<&ColTys>,
) -> Result<Option<ColTys>, Memory>
    ensures { IfOk result (λ made. made ≡ both_of (λ l r. cond (length l == columns) (s.set_columns (s.set_kind except) l r) None) (option_copied left.entry) (option_copied right.entry)) }
{
    let Some(left) = left else {
        return Ok(None);
    };
    let Some(right) = right else {
        return Ok(None);
    };
    if left.len() == columns as usize {
        set_columns(set_kind(except), left, right)
    } else {
        Ok(None)
    }
}
