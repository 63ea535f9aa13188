//! The keys of joins.
ghost use Rattle.std.specs.Prelude.{◌≡◌, ◌++◌, filter, length, option_copied, OnOk, IfOk};
ghost use Rattle.column_sets.specs.Places.{shifted};
ghost use Rattle.upsert_keys.specs.Joins as j;

use crate::seen::{Seen, families, no_keys, one_set, seen_forward};
use column_sets::{Sets, dup_sets, has_within, set_of, shift, shifted, union, unions};
use ct_value::{ColTy, ColTys, Cols, Memory};
use phys_plan::{KeyInfo, left_columns, right_columns};
use rel_algebra::{JoinKind, Pairs};
use std::alloc::Global;

/// How two sides are joined: which rows without a match are kept, and by which columns of the joined row, which has the left's columns
/// and then the right's.
#[derive(Debug, Drop)]
pub struct Joining {
    pub kind: JoinKind,
    pub left: Cols,
    pub right: Cols,
    pub columns: ColTys,
}

/// The keys of a join, from what is seen of both sides: each key of the left joined with each of the right, and those of one side alone
/// where a row of it has at most one match and is never missing.
pub fn join_keys(
    alloc: Global,
    kind: JoinKind,
    on: &Pairs,
    left: &Seen,
    right: &Seen,
) -> Result<KeyInfo, Memory>
    ensures { IfOk result (λ keys. keys ≡ j.join_keys kind on.now left.now right.now) }
{
    let join = join_of(alloc, kind, on, left, right)?;
    keys_joined(alloc, &join, left, right)
}

fn join_of(
    alloc: Global,
    kind: JoinKind,
    on: &Pairs,
    left: &Seen,
    right: &Seen,
) -> Result<Joining, Memory>
    ensures { IfOk result (λ join. join ≡ j.joining kind on.now left.now right.now) }
{
    let cols = right_columns(alloc, on.as_slice())?;
    Ok(Joining {
        kind,
        left: left_columns(alloc, on.as_slice())?,
        right: shift(alloc, width(left)?, cols.as_slice())?,
        columns: side_by_side(left, right)?,
    })
}

/// How many columns an input has.
pub(crate) fn width(input: &Seen) -> Result<u32, Memory>
    ensures { IfOk result (λ width. width ≡ length input.now.columns) }
{
    match u32::try_from(input.columns.len()) {
        Ok(width) => Ok(width),
        Err(_) => Err(Memory),
    }
}

// The columns of both inputs.
fn side_by_side(left: &Seen, right: &Seen) -> Result<ColTys, Memory>
    ensures { IfOk result (λ columns. columns ≡ left.now.columns ++ right.now.columns) }
{
    let mut columns = left.columns.dup()?;
    columns.append(right.columns.dup()?)?;
    Ok(columns)
}

fn keys_joined(alloc: Global, join: &Joining, left: &Seen, right: &Seen) -> Result<KeyInfo, Memory>
    ensures { IfOk result (λ keys. keys ≡ j.keys_joined join.now left.now right.now) }
{
    let width = width(left)?;
    let unique = sets_of_sides(alloc, join, width, &left.unique, &right.unique)?;
    let local = sets_of_sides(alloc, join, width, &left.everywhere, &right.everywhere)?;
    families(alloc, &unique, &local, &join_fixing(alloc, join)?)
}

// The keys of joined rows, from keys of both sides, of which the left has so many columns.
fn sets_of_sides(
    alloc: Global,
    join: &Joining,
    width: u32,
    lefts: &Sets,
    rights: &Sets,
) -> Result<Sets, Memory>
    ensures { IfOk result (λ sets. sets ≡ j.join_sets join.now.kind join.now lefts.now (shifted width rights.now)) }
{
    let rights = shifted(alloc, width, rights.as_slice())?;
    join_sets(alloc, join, lefts, &rights)
}

fn join_sets(alloc: Global, join: &Joining, lefts: &Sets, rights: &Sets) -> Result<Sets, Memory>
    ensures { IfOk result (λ sets. sets ≡ j.join_sets join.now.kind join.now lefts.now rights.now) }
{
    let mut sets = unions(alloc, lefts.as_slice(), rights.as_slice())?;
    match join.kind {
        JoinKind::Inner => {
            push_of_left(&mut sets, join, lefts, rights)?;
            push_of_right(&mut sets, join, lefts, rights)?;
            Ok(sets)
        }
        JoinKind::Left => {
            push_of_left(&mut sets, join, lefts, rights)?;
            Ok(sets)
        }
        JoinKind::Right => {
            push_of_right(&mut sets, join, lefts, rights)?;
            Ok(sets)
        }
        JoinKind::Full => required_sets(alloc, &join.columns, &sets),
    }
}

// Puts the left's keys behind others, where a row of the left has at most one match.
fn push_of_left(sets: &mut Sets, join: &Joining, lefts: &Sets, rights: &Sets) -> Result<(), Memory>
    ensures { OnOk result (sets.new ≡ sets.old ++ j.of_left join.now lefts.now rights.now) }
{
    push_when(has_within(rights.as_slice(), &join.right), sets, lefts)
}

// Puts the right's keys behind others, where a row of the right has at most one match.
fn push_of_right(sets: &mut Sets, join: &Joining, lefts: &Sets, rights: &Sets) -> Result<(), Memory>
    ensures { OnOk result (sets.new ≡ sets.old ++ j.of_right join.now lefts.now rights.now) }
{
    push_when(has_within(lefts.as_slice(), &join.left), sets, rights)
}

/// Puts sets behind others, where they are wanted.
pub(crate) fn push_when(wanted: bool, sets: &mut Sets, more: &Sets) -> Result<(), Memory>
    ensures { OnOk result (sets.new ≡ sets.old ++ j.when wanted more.now) }
{
    if wanted {
        sets.append(dup_sets(more)?)?;
    }
    Ok(())
}

// The sets with a column in which NULL may not stand.
fn required_sets(alloc: Global, columns: &ColTys, sets: &Sets) -> Result<Sets, Memory>
    ensures { IfOk result (λ kept. kept ≡ filter (j.has_required columns.now) sets.now) }
{
    let mut kept = Sets::new(alloc);
    for set in sets.as_slice() {
        if has_required(columns, set) {
            kept.push(set.dup()?)?;
        }
    }
    Ok(kept)
}

fn has_required(columns: &ColTys, set: &Cols) -> bool
    ensures { result ≡ j.has_required columns.now set.now }
{
    set.as_slice()
        .iter()
        .any(|col| is_required(columns.get(*col as usize)))
}

fn is_required(column: Option<&ColTy>) -> bool
    ensures { result ≡ j.is_required (option_copied column.entry) }
{
    match column {
        None => false,
        Some(column) => !column.nullable,
    }
}

fn join_fixing(alloc: Global, join: &Joining) -> Result<Sets, Memory>
    ensures { IfOk result (λ sets. sets ≡ j.join_fixing join.now.kind join.now) }
{
    match join.kind {
        JoinKind::Inner => {
            let mut sets = one_set(set_of(alloc, join.left.as_slice())?)?;
            sets.push(set_of(alloc, join.right.as_slice())?)?;
            Ok(sets)
        }
        JoinKind::Left => one_set(set_of(alloc, join.left.as_slice())?),
        JoinKind::Right => one_set(set_of(alloc, join.right.as_slice())?),
        JoinKind::Full => one_set(union(alloc, &join.left, &join.right)?),
    }
}

/// The keys of a semi or anti join.
pub(crate) fn semi_keys(alloc: Global, on: &Pairs, left: &Seen) -> Result<KeyInfo, Memory>
    ensures { IfOk result (λ keys. keys ≡ j.semi_keys on.now left.now) }
{
    let cols = left_columns(alloc, on.as_slice())?;
    let fixing = one_set(set_of(alloc, cols.as_slice())?)?;
    families(alloc, &left.unique, &left.everywhere, &fixing)
}

// ---- several inputs

/// The keys of a join of several inputs: those of the last join of the chain that it stands for.
pub(crate) fn chain_keys(alloc: Global, on: &[Pairs], inputs: &[Seen]) -> Result<KeyInfo, Memory>
    ensures { IfOk result (λ keys. keys ≡ j.chain_keys on.now inputs.now) }
{
    let [first, others @ ..] = inputs else {
        return Ok(no_keys(alloc));
    };
    let seen = chain(alloc, copied(first)?, on, others)?;
    Ok(keys_in(seen))
}

#[tactic(auto, using(crate::proofs::Chains::chain_end))]
fn chain(alloc: Global, first: Seen, on: &[Pairs], others: &[Seen]) -> Result<Seen, Memory>
    ensures { IfOk result (λ seen. seen ≡ j.chain first on.now others.now) }
{
    let mut so_far = first;
    let joins = on.len().min(others.len());
    for i in 0..joins {
        so_far = joined(alloc, &on[i], &so_far, &others[i])?;
    }
    Ok(so_far)
}

// What is seen of the rows joined so far and of one input more.
fn joined(alloc: Global, on: &Pairs, so_far: &Seen, input: &Seen) -> Result<Seen, Memory>
    ensures { IfOk result (λ seen. seen ≡ j.joined on.now so_far.now input.now) }
{
    let keys = join_keys(alloc, JoinKind::Inner, on, so_far, input)?;
    let columns = side_by_side(so_far, input)?;
    seen_forward(alloc, columns, &keys)
}

fn copied(seen: &Seen) -> Result<Seen, Memory>
    ensures { IfOk result (λ copy. copy ≡ seen.now) }
{
    Ok(Seen {
        unique: dup_sets(&seen.unique)?,
        local: dup_sets(&seen.local)?,
        fixing: dup_sets(&seen.fixing)?,
        everywhere: dup_sets(&seen.everywhere)?,
        columns: seen.columns.dup()?,
    })
}

fn keys_in(seen: Seen) -> KeyInfo
    ensures { result ≡ j.keys_in seen }
{
    let Seen {
        unique,
        local,
        fixing,
        ..
    } = seen;
    KeyInfo {
        unique,
        local,
        fixing,
    }
}
