//! Changes that are held back, key by key.
ghost use Rattle.std.specs.Prelude.{true, false, ◌≡◌, ◌==◌, ◌∷◌, ◌<◌, ◌≤◌, [], take, IfNone, IfOk, IfSome, OnOk, OnErr};
ghost use Rattle.indexmap.specs.IndexMap.{insert_entry};
ghost use Rattle.ct_change.specs.Changelog.{same_row};
ghost use Rattle.mini_batch.specs.Held.{held_in, in_order, with_change};

use crate::first_values::FirstValues;
use ct_change::{Change, Changes};
use ct_value::{Memory, Row};
use indexmap::IndexMap;
use std::alloc::Global;
use std::marker::Model;

/// Changes by key, in the order in which the keys were first seen, up to a number of changes that makes the bundle full (Flink
/// documentation, "Performance Tuning", MiniBatch Aggregation).
#[derive(Drop)]
pub struct Bundle {
    alloc: Global,
    size: u32,
    held: u32,
    // whether the last entry is the one of the key that was seen first
    reversed: bool,
    map: IndexMap<Row, Changes>,
}

impl Model for Bundle {
    ghost use Rattle.mini_batch.specs.Held.{Held, IsCounted, in_order};

    ghost Value = { Held };

    ghost view = { λ b. record { size = b.size; entries = in_order b.reversed b.map.entries } };

    ghost invariant = { λ b. IsCounted b.size b.held (in_order b.reversed b.map.entries) };
}

impl Bundle {
    /// An empty bundle that is full with so many changes. It takes no memory.
    pub fn new(alloc: Global, size: u32) -> Bundle
        requires { 1 ≤ size }
        ensures { result ≡ record { size = size; entries = [] } }
    {
        Bundle {
            alloc,
            size,
            held: 0,
            reversed: false,
            map: IndexMap::new(alloc),
        }
    }

    /// How many changes are held.
    pub fn held(&self) -> u32
        ensures { result ≡ held_in self.now.entries }
    {
        self.held
    }

    /// Adds a change of a key, and says whether the bundle is now full. Without memory it stays as it was.
    pub fn push(&mut self, key: Row, change: Change) -> Result<bool, Memory>
        requires { held_in self.old.entries < self.old.size }
        ensures pushed { OnOk result (self.new ≡ record self.old { entries = with_change self.old.entries key change }) }
        ensures full { IfOk result (λ full. full ≡ (held_in self.new.entries == self.new.size)) }
        ensures err { OnErr result (self.new ≡ self.old) }
    {
        face(&mut self.map, self.reversed, false);
        self.reversed = false;
        add_change(&mut self.map, self.alloc, key, change)?;
        self.held += 1;
        Ok(self.held == self.size)
    }

    /// Adds a change under the first values of its row, `keys` of them, or all where there are fewer, and says whether the bundle is now
    /// full. They are copied only where they aren't a key yet. Without memory the bundle stays as it was.
    pub fn push_by_first(&mut self, keys: u32, change: Change) -> Result<bool, Memory>
        requires { held_in self.old.entries < self.old.size }
        ensures pushed { OnOk result (self.new ≡ record self.old { entries = with_change self.old.entries (take keys change.row) change }) }
        ensures full { IfOk result (λ full. full ≡ (held_in self.new.entries == self.new.size)) }
        ensures err { OnErr result (self.new ≡ self.old) }
    {
        face(&mut self.map, self.reversed, false);
        self.reversed = false;
        add_by_first(&mut self.map, self.alloc, keys, change)?;
        self.held += 1;
        Ok(self.held == self.size)
    }

    /// Takes the changes of the key that was seen first, and `None` exactly where nothing is held.
    pub fn take_first(&mut self) -> Option<(Row, Changes)>
        ensures none { IfNone result ((self.old.entries ≡ []) × (self.new.entries ≡ [])) }
        ensures some { IfSome result (λ p. self.old.entries ≡ (p.0, p.1) ∷ self.new.entries) }
        ensures size { self.new.size ≡ self.old.size }
    {
        face(&mut self.map, self.reversed, true);
        self.reversed = true;
        let (key, changes) = pop_first(&mut self.map)?;
        self.held -= changes.len() as u32;
        Some((key, changes))
    }
}

// One more change of a key.
fn add_change(
    map: &mut IndexMap<Row, Changes>,
    alloc: Global,
    key: Row,
    change: Change,
) -> Result<(), Memory>
    ensures ok { OnOk result (map.new.entries ≡ with_change map.old.entries key change) }
    ensures err { OnErr result (map.new.entries ≡ map.old.entries) }
{
    if let Some(place) = map.get_index_of(&key) {
        let changes = &mut map[place];
        changes.push(change)?;
        return Ok(());
    }
    begin(map, alloc, key, change)
}

// One more change, of the key that the first values of its row are.
fn add_by_first(
    map: &mut IndexMap<Row, Changes>,
    alloc: Global,
    keys: u32,
    change: Change,
) -> Result<(), Memory>
    ensures ok { OnOk result (map.new.entries ≡ with_change map.old.entries (take keys change.row) change) }
    ensures err { OnErr result (map.new.entries ≡ map.old.entries) }
{
    if let Some(place) = map.get_index_of(FirstValues::new(&change.row, keys)) {
        let changes = &mut map[place];
        changes.push(change)?;
        return Ok(());
    }
    let key = change.row.prefix(keys)?;
    begin(map, alloc, key, change)
}

// The first change of a key, which isn't there.
fn begin(
    map: &mut IndexMap<Row, Changes>,
    alloc: Global,
    key: Row,
    change: Change,
) -> Result<(), Memory>
    ensures ok { OnOk result (map.new.entries ≡ insert_entry same_row map.old.entries key (change ∷ [])) }
    ensures err { OnErr result (map.new.entries ≡ map.old.entries) }
{
    let mut changes = Changes::with_capacity(alloc, 1)?;
    changes.push(change)?;
    match map.insert(key, changes) {
        Ok(_) => Ok(()),
        Err(_) => Err(Memory),
    }
}

// Turns the map round, if it lies the other way.
fn face(map: &mut IndexMap<Row, Changes>, was: bool, wanted: bool)
    ensures { in_order wanted map.new.entries ≡ in_order was map.old.entries }
{
    if was != wanted {
        map.reverse();
    }
}

// Takes the last entry, which is the first where the map lies reversed.
fn pop_first(map: &mut IndexMap<Row, Changes>) -> Option<(Row, Changes)>
    ensures none { IfNone result ((in_order true map.old.entries ≡ []) × (in_order true map.new.entries ≡ [])) }
    ensures some { IfSome result (λ p. in_order true map.old.entries ≡ (p.0, p.1) ∷ in_order true map.new.entries) }
{
    map.pop()
}
