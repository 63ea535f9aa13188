//! Rows with their counts.
ghost use Rattle.std.specs.Prelude.{◌≡◌, ◌+◌, ◌<◌, ◌≤◌, ◌^◌, Some, OnOk, OnErr, IsErrOf};
ghost use Rattle.std.specs.BTreeMap.{IsOrdered, IsUnchanged, Updates, insert_entry};
ghost use Rattle.ct_value.specs.Order.{row_cmp};
ghost use Rattle.ct_value.specs.Bag as bag;
ghost use Rattle.batch_answer.specs.Tallies.{IsTally, count_at};

use ct_expr::EvalFault;
use ct_value::{Memory, Row};
use std::alloc::Global;
use std::collections::BTreeMap;
use std::marker::Model;

/// A bag of rows to which many copies of a row are added at once.
#[derive(Drop)]
pub struct Tally {
    counts: BTreeMap<Row, u64>,
}

impl Model for Tally {
    ghost use Rattle.ct_value.specs.Bag as bag;
    ghost use Rattle.ct_value.specs.Order.{row_cmp, coded_row};
    ghost use Rattle.batch_answer.specs.Tallies.{IsTally};

    ghost Value = { bag.Bag row_cmp };

    ghost coded = { bag.code coded_row };

    ghost view = { λ t. bag.bag_of_counts t.counts.entries };

    ghost invariant = { λ t. IsTally t.counts };
}

impl Tally {
    /// No rows. It takes no memory.
    pub fn new(alloc: Global) -> Tally
        ensures { result ≡ bag.none }
    {
        Tally {
            counts: BTreeMap::new(alloc),
        }
    }

    /// Adds so many copies of the row; `Out` exactly where it would have 2^64 or more.
    pub fn add(&mut self, row: Row, count: u64) -> Result<(), EvalFault>
        requires { 0 < count }
        ensures ok { OnOk result (self.new ≡ bag.add_many self.old row count) }
        ensures out { IsErrOf result EvalFault.Out → 2 ^ 64 ≤ bag.copies self.old row + count }
    {
        let standing = standing(&self.counts, &row);
        let Some(total) = standing.checked_add(count) else {
            return Err(EvalFault::Out);
        };
        put(&mut self.counts, row, total)?;
        Ok(())
    }

    /// How many copies of the row there are.
    pub fn count(&self, row: &Row) -> u64
        ensures { result ≡ bag.copies self.now row.now }
    {
        standing(self.counts(), row)
    }

    /// The rows with their counts, in the order of rows. It takes no memory.
    pub fn counts(&self) -> &BTreeMap<Row, u64>
        ensures same { bag.bag_of_counts result.now.entries ≡ self.now }
        ensures counted { IsTally result.now }
    {
        &self.counts
    }

    /// The same, moved out.
    pub fn into_counts(self) -> BTreeMap<Row, u64>
        ensures same { bag.bag_of_counts result.entries ≡ self }
        ensures counted { IsTally result }
    {
        self.counts
    }
}

// How many copies of the row are counted.
fn standing(counts: &BTreeMap<Row, u64>, row: &Row) -> u64
    ensures { result ≡ count_at counts.now row.now }
{
    counts.get(row).copied().unwrap_or(0)
}

// Writes the count of a row.
fn put(counts: &mut BTreeMap<Row, u64>, row: Row, count: u64) -> Result<(), Memory>
    ensures updates { OnOk result (Updates row_cmp counts.old counts.new row (Some count)) }
    ensures entries { OnOk result (counts.new.entries ≡ insert_entry row_cmp counts.old.entries row count) }
    ensures was_ordered { OnOk result (IsOrdered row_cmp counts.old) }
    ensures ordered { OnOk result (IsOrdered row_cmp counts.new) }
    ensures err { OnErr result (IsUnchanged counts.old counts.new) }
{
    counts.insert(row, count)?;
    Ok(())
}
