//! The update key of each node.
ghost use Rattle.std.specs.Prelude.{◌≡◌, [], ◌∷◌, ◌++◌, None, length, map, option_copied, option_and_then, IfOk};
ghost use Rattle.column_sets.specs.Sets as s;
ghost use Rattle.column_sets.specs.Places as p;
ghost use Rattle.phys_plan.specs.Reading.{at, wires};
ghost use Rattle.phys_plan.specs.Columns as c;
ghost use Rattle.mode_infer.specs.Kinds as k;
ghost use Rattle.mode_infer.specs.UpdateKeys as u;

use column_sets::{first_columns, image, set_of};
use ct_expr::Exprs;
use ct_value::{ColTys, Cols, List, Memory};
use phys_plan::{Node, Op, numbered, plain_columns};
use rel_algebra::Agg;
use std::alloc::Global;

/// The update key that each node gives, if it gives one. `columns` are those that each node sends, by its number, with an empty list at 0.
#[tactic(auto, using(phys_plan::proofs::laws::Reading::read_more))]
pub fn update_keys(
    alloc: Global,
    columns: &[ColTys],
    nodes: &[Node],
) -> Result<List<Option<Cols>>, Memory>
    ensures { IfOk result (λ table. table ≡ u.update_keys (c.columns_in columns.now) (wires nodes.now)) }
{
    let mut done = List::with_capacity(alloc, nodes.len())?;
    for node in nodes {
        let inputs = node.inputs.as_slice();
        let width = input_width(columns, inputs);
        done.push(update_key_of(alloc, width, &node.op, done.as_slice(), inputs)?)?;
    }
    Ok(done)
}

// How many columns the first of these inputs sends.
fn input_width(columns: &[ColTys], inputs: &[u32]) -> usize
    ensures { result ≡ u.input_width (c.columns_in columns.now) inputs.now }
{
    match inputs {
        [] => 0,
        [input, ..] => width_at(columns, *input),
    }
}

/// How many columns a node sends, by its number; none where there is no such node.
fn width_at(columns: &[ColTys], number: u32) -> usize
    ensures { result ≡ length (c.columns_in columns.now number) }
{
    match columns.get(number as usize) {
        None => 0,
        Some(columns) => columns.len(),
    }
}

/// The update key of a number.
pub(crate) fn key_at(done: &[Option<Cols>], number: u32) -> Option<&Cols>
    ensures { option_copied result ≡ at None done.now number }
{
    match numbered(done, number) {
        Some(Some(key)) => Some(key),
        _ => None,
    }
}

fn update_key_of(
    alloc: Global,
    width: usize,
    op: &Op,
    done: &[Option<Cols>],
    inputs: &[u32],
) -> Result<Option<Cols>, Memory>
    ensures { IfOk result (λ key. key ≡ k.update_key_of width op.now (map (at None done.now) inputs.now)) }
{
    match op {
        Op::Project { items } => project_key(alloc, items, done, inputs),
        Op::Normalize { key } => Ok(Some(set_of(alloc, key.as_slice())?)),
        Op::Group { keys, aggs } => group_key(alloc, *keys, aggs.as_slice()),
        Op::BatchGroup { keys, aggs } => group_key(alloc, *keys, aggs.as_slice()),
        Op::TopN {
            partition,
            bound,
            ranked,
            ..
        } => top_key(alloc, *ranked, partition, *bound, width),
        _ => Ok(None),
    }
}

fn project_key(
    alloc: Global,
    items: &Exprs,
    done: &[Option<Cols>],
    inputs: &[u32],
) -> Result<Option<Cols>, Memory>
    ensures { IfOk result (λ key. key ≡ k.project_key (c.plain_columns items.now) (map (at None done.now) inputs.now)) }
{
    let items = plain_columns(alloc, items.as_slice())?;
    match inputs {
        [input] => image_of(alloc, items.as_slice(), key_at(done, *input)),
        _ => Ok(None),
    }
}

// The image of a key, where there is one.
fn image_of(
    alloc: Global,
    items: &[Option<u32>],
    key: Option<&Cols>,
) -> Result<Option<Cols>, Memory>
    ensures { IfOk result (λ made. made ≡ option_and_then (p.image items.now) (option_copied key.entry)) }
{
    match key {
        None => Ok(None),
        Some(key) => image(alloc, items, key),
    }
}

fn group_key(alloc: Global, keys: u32, aggs: &[Agg]) -> Result<Option<Cols>, Memory>
    ensures { IfOk result (λ key. key ≡ k.group_key keys aggs.now) }
{
    match aggs {
        [] => Ok(None),
        [_, ..] => Ok(Some(first_columns(alloc, keys)?)),
    }
}

fn top_key(
    alloc: Global,
    ranked: bool,
    partition: &Cols,
    bound: u32,
    width: usize,
) -> Result<Option<Cols>, Memory>
    ensures { IfOk result (λ key. key ≡ k.top_key ranked partition.now bound width) }
{
    if ranked {
        return Ok(Some(with_rank(alloc, partition, width)?));
    }
    if bound == 1 {
        return Ok(Some(set_of(alloc, partition.as_slice())?));
    }
    Ok(None)
}

// The columns of a partition and that of the rank, which stands behind so many others.
fn with_rank(alloc: Global, partition: &Cols, width: usize) -> Result<Cols, Memory>
    ensures { IfOk result (λ key. key ≡ s.set_of (partition.now ++ width ∷ [])) }
{
    let Ok(rank) = u32::try_from(width) else {
        return Err(Memory);
    };
    let mut cols = partition.dup()?;
    cols.push(rank)?;
    set_of(alloc, cols.as_slice())
}
