ghost use Rattle.std.specs.Prelude.{◌≡◌, ◌+◌, ◌<◌, ◌^◌, OnOk, OnErr, option_copied};
ghost use Rattle.ct_value.specs.Bag as bag;
ghost use Rattle.agg_fns.specs.Standing.{first_item, last_item};

use ct_value::{Memory, Value};
use std::alloc::Global;
use std::collections::BTreeMap;
use std::marker::Model;

/// A bag of values. Each value is kept once, with its count, in the order of values.
#[derive(Drop)]
pub struct ValueBag {
    counts: BTreeMap<Value, u64>,
}

impl Model for ValueBag {
    ghost use Rattle.ct_value.specs.Bag as bag;
    ghost use Rattle.ct_value.specs.Order.{value_cmp, coded_value};
    ghost use Rattle.agg_fns.specs.Counts.{AreCounts};

    ghost Value = { bag.Bag value_cmp };

    ghost coded = { bag.code coded_value };

    ghost view = { λ b. bag.bag_of_counts b.counts.entries };

    ghost invariant = { λ b. AreCounts b.counts };
}

impl ValueBag {
    /// An empty bag. It takes no memory.
    pub fn new(alloc: Global) -> ValueBag
        ensures { result ≡ bag.none }
    {
        ValueBag {
            counts: BTreeMap::new(alloc),
        }
    }

    /// How many copies of the value stand.
    pub fn count(&self, value: &Value) -> u64
        ensures { result ≡ bag.copies self.now value.now }
    {
        match self.counts.get(value) {
            Some(count) => *count,
            None => 0,
        }
    }

    /// Adds a copy of the value.
    pub fn add(&mut self, value: Value) -> Result<(), Memory>
        requires { bag.copies self.old value + 1 < 2 ^ 64 }
        ensures ok { OnOk result (self.new ≡ bag.add self.old value) }
        ensures err { OnErr result (self.new ≡ self.old) }
    {
        if let Some(count) = self.counts.get_mut(&value) {
            *count += 1;
            return Ok(());
        }
        self.counts.insert(value, 1)?;
        Ok(())
    }

    /// Removes a copy of the value, one of which has to stand. It takes no memory.
    pub fn remove(&mut self, value: &Value)
        requires { 0 < bag.copies self.old value.now }
        ensures { self.new ≡ bag.remove self.old value.now }
    {
        let standing = self.counts.get(value).copied().unwrap_or(0);
        if standing > 1 {
            if let Some(count) = self.counts.get_mut(value) {
                *count = standing - 1;
            }
        } else {
            self.counts.remove(value);
        }
    }

    /// The first value in the order of values, `None` exactly where there is none.
    pub fn first(&self) -> Option<&Value>
        ensures { option_copied result ≡ first_item (bag.items self.now) }
    {
        let (value, _) = self.counts.first_key_value()?;
        Some(value)
    }

    /// The last value in the order of values, `None` exactly where there is none.
    pub fn last(&self) -> Option<&Value>
        ensures { option_copied result ≡ last_item (bag.items self.now) }
    {
        let (value, _) = self.counts.last_key_value()?;
        Some(value)
    }
}
