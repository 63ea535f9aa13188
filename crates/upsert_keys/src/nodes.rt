//! The keys of one node, from what it sees of its inputs.
ghost use Rattle.std.specs.Prelude.{◌≡◌, ◌==◌, [], ◌∷◌, ◌++◌, not, length, None, option_copied, IfOk};
ghost use Rattle.column_sets.specs.Sets as sets;
ghost use Rattle.column_sets.specs.Places as p;
ghost use Rattle.phys_plan.specs.Columns as c;
ghost use Rattle.upsert_keys.specs.Joins as j;
ghost use Rattle.upsert_keys.specs.Keys as k;
ghost use Rattle.upsert_keys.specs.Seen as s;

use crate::joins::{chain_keys, join_keys, push_when, semi_keys, width};
use crate::seen::{Seen, families, no_keys, one_set};
use column_sets::{Sets, dup_sets, first_columns, images, set_of};
use ct_catalog::TableDef;
use ct_expr::Exprs;
use ct_value::{Cols, Memory};
use phys_plan::{KeyInfo, Op, plain_columns};
use rel_algebra::{JoinKind, Pairs};
use std::alloc::Global;

/// The keys of a node.
pub(crate) fn keys_of(
    alloc: Global,
    sources: &[TableDef],
    op: &Op,
    inputs: &[Seen],
) -> Result<KeyInfo, Memory>
    ensures { IfOk result (λ keys. keys ≡ k.keys_of sources.now op.now inputs.now) }
{
    match op {
        Op::Scan { source } => scan_keys(alloc, sources.get(*source as usize)),
        Op::Filter { .. } => filtered(alloc, inputs),
        Op::Project { items } => projected(alloc, items, inputs),
        Op::Union => Ok(no_keys(alloc)),
        Op::Normalize { key } => keyed_by(alloc, key),
        Op::Group { keys, .. } => grouped_by(alloc, *keys),
        Op::BatchGroup { keys, .. } => grouped_by(alloc, *keys),
        Op::Join { kind, on, .. } => joined(alloc, *kind, on, inputs),
        Op::Semi { on, .. } => semi_joined(alloc, on, inputs),
        Op::TopN {
            partition,
            bound,
            ranked,
            ..
        } => top_rows(alloc, *ranked, partition, *bound, inputs),
        Op::Materialize { key } => keyed_by(alloc, key),
        Op::Sink => Ok(no_keys(alloc)),
        Op::LocalGroup { .. } => Ok(no_keys(alloc)),
        Op::MultiJoin { on } => chain_keys(alloc, on.as_slice(), inputs),
        Op::SetOp { except, all, .. } => set_operation(alloc, *except, *all, inputs),
    }
}

// ---- keys of their own

fn scan_keys(alloc: Global, table: Option<&TableDef>) -> Result<KeyInfo, Memory>
    ensures { IfOk result (λ keys. keys ≡ k.scan_keys (option_copied table.entry)) }
{
    match table {
        None => Ok(no_keys(alloc)),
        Some(table) => table_keys(alloc, table),
    }
}

fn table_keys(alloc: Global, table: &TableDef) -> Result<KeyInfo, Memory>
    ensures { IfOk result (λ keys. keys ≡ k.table_keys table.now.key (length table.now.cols)) }
{
    match &table.key {
        Some(key) => keyed_by(alloc, key),
        None => keyless(alloc, table.cols.len()),
    }
}

fn keyless(alloc: Global, width: usize) -> Result<KeyInfo, Memory>
    ensures { IfOk result (λ keys. keys ≡ k.table_keys None width) }
{
    let Ok(width) = u32::try_from(width) else {
        return Err(Memory);
    };
    let every = one_set(first_columns(alloc, width)?)?;
    families(alloc, &Sets::new(alloc), &Sets::new(alloc), &every)
}

fn keyed_by(alloc: Global, key: &Cols) -> Result<KeyInfo, Memory>
    ensures { IfOk result (λ keys. keys ≡ k.keyed_by key.now) }
{
    let sets = one_set(set_of(alloc, key.as_slice())?)?;
    families(alloc, &sets, &sets, &sets)
}

fn grouped_by(alloc: Global, keys: u32) -> Result<KeyInfo, Memory>
    ensures { IfOk result (λ made. made ≡ k.keyed_by (p.first_columns keys)) }
{
    keyed_by(alloc, &first_columns(alloc, keys)?)
}

// ---- keys of one input

fn filtered(alloc: Global, inputs: &[Seen]) -> Result<KeyInfo, Memory>
    ensures { IfOk result (λ keys. keys ≡ k.with_one k.filter_keys inputs.now) }
{
    match inputs {
        [input] => families(alloc, &input.unique, &input.local, &input.fixing),
        _ => Ok(no_keys(alloc)),
    }
}

fn projected(alloc: Global, items: &Exprs, inputs: &[Seen]) -> Result<KeyInfo, Memory>
    ensures { IfOk result (λ keys. keys ≡ k.with_one (k.project_keys (c.plain_columns items.now)) inputs.now) }
{
    match inputs {
        [input] => project_keys(alloc, items, input),
        _ => Ok(no_keys(alloc)),
    }
}

fn project_keys(alloc: Global, items: &Exprs, input: &Seen) -> Result<KeyInfo, Memory>
    ensures { IfOk result (λ keys. keys ≡ k.project_keys (c.plain_columns items.now) input.now) }
{
    let items = plain_columns(alloc, items.as_slice())?;
    handed_on(alloc, items.as_slice(), input)
}

// The keys whose columns stay, each at its first place.
fn handed_on(alloc: Global, items: &[Option<u32>], input: &Seen) -> Result<KeyInfo, Memory>
    ensures { IfOk result (λ keys. keys ≡ k.project_keys items.now input.now) }
{
    let unique = images(alloc, items, input.unique.as_slice())?;
    let local = images(alloc, items, input.local.as_slice())?;
    let fixing = images(alloc, items, input.fixing.as_slice())?;
    families(alloc, &unique, &local, &fixing)
}

fn top_rows(
    alloc: Global,
    ranked: bool,
    partition: &Cols,
    bound: u32,
    inputs: &[Seen],
) -> Result<KeyInfo, Memory>
    ensures { IfOk result (λ keys. keys ≡ k.with_one (k.top_keys ranked partition.now bound) inputs.now) }
{
    match inputs {
        [input] => top_keys(alloc, ranked, partition, bound, input),
        _ => Ok(no_keys(alloc)),
    }
}

fn top_keys(
    alloc: Global,
    ranked: bool,
    partition: &Cols,
    bound: u32,
    input: &Seen,
) -> Result<KeyInfo, Memory>
    ensures { IfOk result (λ keys. keys ≡ k.top_keys ranked partition.now bound input.now) }
{
    let fixing = one_set(set_of(alloc, partition.as_slice())?)?;
    if ranked {
        ranked_keys(alloc, partition, input, &fixing)
    } else {
        unranked_keys(alloc, bound, input, &fixing)
    }
}

// With the rank as the last column: one row stands at each rank of a partition.
fn ranked_keys(
    alloc: Global,
    partition: &Cols,
    input: &Seen,
    fixing: &Sets,
) -> Result<KeyInfo, Memory>
    ensures { IfOk result (λ keys. keys ≡ s.families (input.now.unique ++ sets.set_of (partition.now ++ length input.now.columns ∷ []) ∷ []) (sets.set_of (partition.now ++ length input.now.columns ∷ []) ∷ []) fixing.now) }
{
    let local = ranked_set(alloc, partition, width(input)?)?;
    let unique = both(&input.unique, &local)?;
    families(alloc, &unique, &local, fixing)
}

// The set of a partition's columns and one column more.
fn ranked_set(alloc: Global, partition: &Cols, rank: u32) -> Result<Sets, Memory>
    ensures { IfOk result (λ made. made ≡ sets.set_of (partition.now ++ rank ∷ []) ∷ []) }
{
    let mut cols = partition.dup()?;
    cols.push(rank)?;
    one_set(set_of(alloc, cols.as_slice())?)
}

fn both(first: &Sets, more: &Sets) -> Result<Sets, Memory>
    ensures { IfOk result (λ all. all ≡ first.now ++ more.now) }
{
    let mut all = dup_sets(first)?;
    all.append(dup_sets(more)?)?;
    Ok(all)
}

// Without the rank: the only row of a partition is known by it.
fn unranked_keys(alloc: Global, bound: u32, input: &Seen, fixing: &Sets) -> Result<KeyInfo, Memory>
    ensures { IfOk result (λ keys. keys ≡ s.families (input.now.unique ++ j.when (bound == 1) fixing.now) (input.now.everywhere ++ j.when (bound == 1) fixing.now) fixing.now) }
{
    let mut unique = dup_sets(&input.unique)?;
    push_when(bound == 1, &mut unique, fixing)?;
    let mut local = dup_sets(&input.everywhere)?;
    push_when(bound == 1, &mut local, fixing)?;
    families(alloc, &unique, &local, fixing)
}

// ---- keys of two inputs

fn joined(alloc: Global, kind: JoinKind, on: &Pairs, inputs: &[Seen]) -> Result<KeyInfo, Memory>
    ensures { IfOk result (λ keys. keys ≡ k.with_two (j.join_keys kind on.now) inputs.now) }
{
    match inputs {
        [left, right] => join_keys(alloc, kind, on, left, right),
        _ => Ok(no_keys(alloc)),
    }
}

fn semi_joined(alloc: Global, on: &Pairs, inputs: &[Seen]) -> Result<KeyInfo, Memory>
    ensures { IfOk result (λ keys. keys ≡ k.with_two (λ left right. j.semi_keys on.now left) inputs.now) }
{
    match inputs {
        [left, _] => semi_keys(alloc, on, left),
        _ => Ok(no_keys(alloc)),
    }
}

fn set_operation(alloc: Global, except: bool, all: bool, inputs: &[Seen]) -> Result<KeyInfo, Memory>
    ensures { IfOk result (λ keys. keys ≡ k.with_two (k.set_keys except all) inputs.now) }
{
    match inputs {
        [left, right] => set_keys(alloc, except, all, left, right),
        _ => Ok(no_keys(alloc)),
    }
}

fn set_keys(
    alloc: Global,
    except: bool,
    all: bool,
    left: &Seen,
    right: &Seen,
) -> Result<KeyInfo, Memory>
    ensures { IfOk result (λ keys. keys ≡ k.set_keys except all left.now right.now) }
{
    let every = one_set(first_columns(alloc, width(left)?)?)?;
    let unique = with_sets(&left.unique, except, all, &right.unique, &every)?;
    let local = with_sets(&left.everywhere, except, all, &right.everywhere, &every)?;
    families(alloc, &unique, &local, &every)
}

// The left's keys, those of the right, where a row must be in both, and those of whole rows that stand once.
fn with_sets(
    lefts: &Sets,
    except: bool,
    all: bool,
    rights: &Sets,
    every: &Sets,
) -> Result<Sets, Memory>
    ensures { IfOk result (λ made. made ≡ lefts.now ++ (j.when (not except) rights.now ++ j.when (not all) every.now)) }
{
    let mut sets = dup_sets(lefts)?;
    push_when(!except, &mut sets, rights)?;
    push_when(!all, &mut sets, every)?;
    Ok(sets)
}
