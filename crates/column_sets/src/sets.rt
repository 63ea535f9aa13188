//! Sets of columns.
ghost use Rattle.std.specs.Prelude.{◌≡◌, ◌==◌, ◌<◌, true, OnOk, IfOk, fold};
ghost use Rattle.std.specs.List.{list_any};
ghost use Rattle.std.specs.List.Sorted.{IsNonDecreasing};
ghost use Rattle.std.specs.Ordering.{nat_cmp};
ghost use Rattle.std.specs.BTreeSet.{insert_key};
ghost use Rattle.column_sets.specs.Sets as s;

use ct_value::{Cols, Memory};
use std::alloc::Global;
use std::collections::BTreeSet;

/// The columns of a list, as a set: in ascending order and each once.
pub fn set_of(alloc: Global, cols: &[u32]) -> Result<Cols, Memory>
    ensures { IfOk result (λ set. set ≡ s.set_of cols.now) }
{
    let mut set = BTreeSet::new(alloc);
    insert_all(&mut set, cols)?;
    listed(alloc, set)
}

/// The columns of both sets.
pub fn union(alloc: Global, one: &Cols, other: &Cols) -> Result<Cols, Memory>
    ensures { IfOk result (λ set. set ≡ s.union one.now other.now) }
{
    let mut set = BTreeSet::new(alloc);
    insert_all(&mut set, one.as_slice())?;
    insert_all(&mut set, other.as_slice())?;
    listed(alloc, set)
}

/// Whether each column of one list is in another.
pub fn is_within(one: &Cols, other: &Cols) -> bool
    ensures { result ≡ s.is_within one.now other.now }
{
    let ascending = is_ascending(other.as_slice());
    one.as_slice()
        .iter()
        .all(|col| has(other.as_slice(), ascending, *col))
}

/// Whether two lists have the same columns.
pub fn same_set(one: &Cols, other: &Cols) -> bool
    ensures { result ≡ s.same_set one.now other.now }
{
    is_within(one, other) && is_within(other, one)
}

// Whether a column is in a list; in one whose columns ascend, as those of a set do, it is found by halving.
fn has(cols: &[u32], ascending: bool, col: u32) -> bool
    requires { ascending ≡ true → IsNonDecreasing cols.now }
    ensures { result ≡ list_any (λ other. other == col) cols.now }
{
    if ascending {
        cols.binary_search(&col).is_ok()
    } else {
        cols.contains(&col)
    }
}

// Whether no column of a list is below the one before it.
fn is_ascending(cols: &[u32]) -> bool
    ensures { result ≡ true → IsNonDecreasing cols.now }
{
    for place in 1..cols.len() {
        if cols[place] < cols[place - 1] {
            return false;
        }
    }
    true
}

// Puts columns into a set.
fn insert_all(set: &mut BTreeSet<u32>, cols: &[u32]) -> Result<(), Memory>
    ensures { OnOk result (set.new.keys ≡ fold (insert_key nat_cmp) set.old.keys cols.now) }
{
    for col in cols {
        set.insert(*col)?;
    }
    Ok(())
}

// The columns of a set, in ascending order.
fn listed(alloc: Global, set: BTreeSet<u32>) -> Result<Cols, Memory>
    ensures { IfOk result (λ cols. cols ≡ set.keys) }
{
    let mut cols = Cols::new(alloc);
    for col in set {
        cols.push(col)?;
    }
    Ok(cols)
}
