//! Families of sets.
ghost use Rattle.std.specs.Prelude.{◌≡◌, ◌++◌, map, OnOk, IfOk};
ghost use Rattle.column_sets.specs.Sets as s;

use crate::ranked::Ranked;
use crate::sets::{is_within, union};
use ct_value::{Cols, List, Memory};
use std::alloc::Global;
use std::collections::BTreeSet;

/// Sets of columns.
pub type Sets = List<Cols>;

// The most sets that a family keeps.
const LARGEST_FAMILY: usize = 16;

/// The family of some sets: those that contain no other, by size and then by the columns, and of these the first 16.
pub fn family(alloc: Global, sets: &[Cols]) -> Result<Sets, Memory>
    ensures { IfOk result (λ kept. kept ≡ s.family sets.now) }
{
    let mut least = BTreeSet::new(alloc);
    for set in sets {
        if is_least(sets, set) {
            least.insert(Ranked { cols: set.dup()? })?;
        }
    }
    let mut kept = listed(alloc, least)?;
    kept.truncate(LARGEST_FAMILY);
    Ok(kept)
}

/// Each set of one family joined with each of another.
pub fn unions(alloc: Global, ones: &[Cols], others: &[Cols]) -> Result<Sets, Memory>
    ensures { IfOk result (λ all. all ≡ s.unions ones.now others.now) }
{
    let mut all = Sets::new(alloc);
    for one in ones {
        push_unions(alloc, &mut all, one, others)?;
    }
    Ok(all)
}

/// Equal sets.
pub fn dup_sets(sets: &Sets) -> Result<Sets, Memory>
    ensures { IfOk result (λ copies. copies ≡ sets.now) }
{
    let mut copies = sets.beside();
    for set in sets.as_slice() {
        copies.push(set.dup()?)?;
    }
    Ok(copies)
}

/// Whether one of some sets is within another set.
pub fn has_within(sets: &[Cols], cols: &Cols) -> bool
    ensures { result ≡ s.has_within sets.now cols.now }
{
    sets.iter().any(|set| is_within(set, cols))
}

// Whether a set contains no other of these.
fn is_least(sets: &[Cols], set: &Cols) -> bool
    ensures { result ≡ s.is_least sets.now set.now }
{
    sets.iter().all(|other| is_no_part(set, other))
}

// Whether another set is no smaller one within a set.
fn is_no_part(set: &Cols, other: &Cols) -> bool
    ensures { result ≡ s.is_no_part set.now other.now }
{
    !is_within(other, set) || is_within(set, other)
}

// The sets in their order.
fn listed(alloc: Global, least: BTreeSet<Ranked>) -> Result<Sets, Memory>
    ensures { IfOk result (λ sets. sets ≡ least.keys) }
{
    let mut sets = Sets::new(alloc);
    for set in least {
        sets.push(set.into_cols())?;
    }
    Ok(sets)
}

// Puts a set joined with each of others behind some sets.
fn push_unions(alloc: Global, all: &mut Sets, one: &Cols, others: &[Cols]) -> Result<(), Memory>
    ensures { OnOk result (all.new ≡ all.old ++ map (s.union one.now) others.now) }
{
    for other in others {
        all.push(union(alloc, one, other)?)?;
    }
    Ok(())
}
