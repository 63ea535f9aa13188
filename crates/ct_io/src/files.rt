ghost use Rattle.std.specs.Prelude.{◌≡◌, OnOk, OnErr, option_copied};
ghost use Rattle.std.specs.FinMap.{empty, insert, get};

use ct_value::{Bytes, Memory, Text};
use std::alloc::Global;
use std::collections::BTreeMap;
use std::marker::Model;

/// Files in memory: a finite map from names to bytes.
#[derive(Drop)]
pub struct Files {
    by_name: BTreeMap<Text, Bytes>,
}

impl Model for Files {
    ghost use Rattle.std.specs.FinMap.{from_entries};
    ghost use Rattle.ct_io.specs.Holdings.{FileMap, coded_files};

    ghost Value = { FileMap };

    ghost coded = { coded_files };

    ghost view = { λ f. from_entries f.by_name.entries };
}

impl Files {
    /// No files. It takes no memory.
    pub fn new(alloc: Global) -> Self
        ensures { result ≡ empty }
    {
        Files {
            by_name: BTreeMap::new(alloc),
        }
    }

    /// Sets the bytes held under a name.
    pub fn set(&mut self, name: Text, bytes: Bytes) -> Result<(), Memory>
        ensures ok { OnOk result (self.new ≡ insert self.old name bytes) }
        ensures err { OnErr result (self.new ≡ self.old) }
    {
        self.by_name.insert(name, bytes)?;
        Ok(())
    }

    /// The bytes held under a name, and `None` exactly where it isn't held.
    pub fn get(&self, name: &Text) -> Option<&Bytes>
        ensures { option_copied result ≡ get self.now name.now }
    {
        self.by_name.get(name)
    }
}
