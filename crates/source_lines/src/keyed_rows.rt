ghost use Rattle.std.specs.Prelude.{◌≡◌, ℕ, List, Some, None, true, false, cond, IsSome, IfOk, OnOk, OnErr, option_copied};
ghost use Rattle.std.specs.BTreeMap.{IsOrdered, get, values};
ghost use Rattle.std.specs.Ordering.{eq_by_cmp};
ghost use Rattle.std.specs.FinMap as map;
ghost use Rattle.ct_value.specs.Bag.{copies, occurs};
ghost use Rattle.ct_value.specs.Order.{row_cmp};
ghost use Rattle.ct_value.specs.declared.row.Row.{Row as Line};
ghost use Rattle.ct_change.specs.Changelog.{Rows};
ghost use Rattle.ct_change.specs.LastRows.{AreLast};

use ct_change::Bag;
use ct_value::{Memory, Row};
use std::alloc::Global;
use std::collections::BTreeMap;
use std::collections::btree_map::Entry;
use std::marker::Model;

/// The row of each key, found by key.
#[derive(Drop)]
pub(crate) struct KeyedRows {
    alloc: Global,
    rows: BTreeMap<Row, Row>,
}

impl Model for KeyedRows {
    ghost use Rattle.std.specs.FinMap as map;
    ghost use Rattle.ct_value.specs.Order.{row_cmp, coded_row};
    ghost use Rattle.ct_value.specs.declared.row.Row.{Row as Line};

    ghost Value = { map.FinMap row_cmp Line };

    ghost coded = { map.code coded_row coded_row };

    ghost view = { λ k. map.from_entries k.rows.entries };
}

impl KeyedRows {
    // No keys. It takes no memory.
    pub(crate) fn new(alloc: Global) -> KeyedRows
        ensures { result ≡ map.empty }
    {
        KeyedRows {
            alloc,
            rows: BTreeMap::new(alloc),
        }
    }

    // The memory in which it keeps them.
    pub(crate) fn alloc(&self) -> Global {
        self.alloc
    }

    // Sets the row of a key.
    pub(crate) fn set(&mut self, key: Row, row: Row) -> Result<(), Memory>
        ensures ok { OnOk result (self.new ≡ map.insert self.old key row) }
        ensures err { OnErr result (self.new ≡ self.old) }
    {
        self.rows.insert(key, row)?;
        Ok(())
    }

    // Sets the row of a key that has none, and answers whether it had none. Where it has one, all is as before.
    pub(crate) fn set_new(&mut self, key: Row, row: Row) -> Result<bool, Memory>
        ensures set { IfOk result (λ is_new. is_new ≡ true → (map.get self.old key ≡ None) × (self.new ≡ map.insert self.old key row)) }
        ensures there { IfOk result (λ is_new. is_new ≡ false → IsSome (map.get self.old key) × (self.new ≡ self.old)) }
        ensures err { OnErr result (self.new ≡ self.old) }
    {
        let is_new = put_new(&mut self.rows, key, row)?;
        Ok(is_new)
    }

    // Lets the row of a key go. It takes no memory.
    pub(crate) fn remove(&mut self, key: &Row)
        ensures { self.new ≡ map.remove self.old key.now }
    {
        self.rows.remove(key);
    }

    // The row of a key, `None` exactly where the key is absent. It takes no memory.
    pub(crate) fn get(&self, key: &Row) -> Option<&Row>
        ensures { option_copied result ≡ map.get self.now key.now }
    {
        self.rows.get(key)
    }

    // The bag of the rows.
    pub(crate) fn into_bag(self) -> Result<Bag, Memory>
        ensures { IfOk result (λ bag. (columns : List ℕ) (rows : Rows) → AreLast columns self rows → bag ≡ rows) }
    {
        let KeyedRows { alloc, rows } = self;
        bag_of(alloc, rows)
    }
}

// Puts a key with its row, where it isn't there, in one descent, and answers whether it wasn't.
fn put_new(rows: &mut BTreeMap<Row, Row>, key: Row, row: Row) -> Result<bool, Memory>
    ensures absent { IfOk result (λ is_new. is_new ≡ true → get row_cmp rows.old key ≡ None) }
    ensures put { IfOk result (λ is_new. is_new ≡ true → (other : Line) → get row_cmp rows.new other ≡ cond (eq_by_cmp row_cmp key other) (Some row) (get row_cmp rows.old other)) }
    ensures there { IfOk result (λ is_new. is_new ≡ false → IsSome (get row_cmp rows.old key)) }
    ensures same { IfOk result (λ is_new. is_new ≡ false → rows.new.entries ≡ rows.old.entries) }
    ensures err { OnErr result (rows.new.entries ≡ rows.old.entries) }
{
    match rows.entry(key)? {
        Entry::Vacant(spot) => {
            spot.insert(row);
            Ok(true)
        }
        Entry::Occupied(_) => Ok(false),
    }
}

// The bag of the values of a map.
fn bag_of(alloc: Global, rows: BTreeMap<Row, Row>) -> Result<Bag, Memory>
    ensures bag { IfOk result (λ bag. (row : Line) → copies bag row ≡ occurs row_cmp row (values rows)) }
    ensures ordered { OnOk result (IsOrdered row_cmp rows) }
{
    let mut bag = Bag::new(alloc);
    for (_, row) in rows {
        bag.add(row)?;
    }
    Ok(bag)
}
