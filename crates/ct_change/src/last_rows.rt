ghost use Rattle.std.specs.Prelude.{◌≡◌, OnOk, OnErr, IfOk, option_copied};
ghost use Rattle.std.specs.FinMap as map;

use ct_value::{Memory, Row};
use std::alloc::Global;
use std::collections::BTreeMap;
use std::marker::Model;

/// The last row of each key, found by key.
#[derive(Drop)]
pub struct LastRows {
    rows: BTreeMap<Row, Row>,
}

impl Model for LastRows {
    ghost use Rattle.std.specs.FinMap as map;
    ghost use Rattle.ct_value.specs.Order.{row_cmp, coded_row};
    ghost use Rattle.ct_value.specs.declared.row.Row.{Row as Line};

    ghost Value = { map.FinMap row_cmp Line };

    ghost coded = { map.code coded_row coded_row };

    ghost view = { λ k. map.from_entries k.rows.entries };
}

impl LastRows {
    /// No keys. It takes no memory.
    pub fn new(alloc: Global) -> LastRows
        ensures { result ≡ map.empty }
    {
        LastRows {
            rows: BTreeMap::new(alloc),
        }
    }

    /// Sets the row of a key, and answers the one before, `None` exactly where the key was absent.
    pub fn set(&mut self, key: Row, row: Row) -> Result<Option<Row>, Memory>
        ensures before { IfOk result (λ before. before ≡ map.get self.old key) }
        ensures ok { OnOk result (self.new ≡ map.insert self.old key row) }
        ensures err { OnErr result (self.new ≡ self.old) }
    {
        Ok(self.rows.insert(key, row)?)
    }

    /// Takes the row of a key out, and answers it, `None` exactly where the key is absent. It takes no memory.
    pub fn take(&mut self, key: &Row) -> Option<Row>
        ensures before { result ≡ map.get self.old key.now }
        ensures after { self.new ≡ map.remove self.old key.now }
    {
        self.rows.remove(key)
    }

    /// The row of a key, `None` exactly where the key is absent. It takes no memory.
    pub fn get(&self, key: &Row) -> Option<&Row>
        ensures { option_copied result ≡ map.get self.now key.now }
    {
        self.rows.get(key)
    }
}
