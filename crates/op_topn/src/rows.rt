//! Rows kept in rank order.
ghost use Rattle.std.specs.Prelude.{◌≡◌, ◌+◌, ◌-◌, ◌<◌, ◌≤◌, ◌^◌, ◌++◌, ◌∷◌, [], List, Some, None, true, false, cond, length, map, replicate, take, IfOk, OnOk, IfSome, IfNone};
ghost use Rattle.std.specs.BTreeMap.{IsOrdered, get, insert_entry, is_at};
ghost use Rattle.std.specs.Map.{remove_entry};
ghost use Rattle.std.specs.Ordering.{eq_by_cmp};
ghost use Rattle.std.specs.Option.{unwrap_or};
ghost use Rattle.ct_value.specs.Bag as bag;
ghost use Rattle.ct_value.specs.declared.row.Row.{Row as Line};
ghost use Rattle.ct_change.specs.Changelog.{Rows};
ghost use Rattle.rel_algebra.specs.declared.sort.SortCol.{SortCol};
ghost use Rattle.rel_algebra.specs.Ranks.{in_rank_order};
ghost use Rattle.op_topn.specs.Keys.{Key, key_cmp, rank_key, rows_in};
ghost use Rattle.op_topn.specs.RankedRows.{IsRanked, is_empty};

use crate::key::RankKey;
use ct_change::Steps;
use ct_value::{Memory, Row};
use std::alloc::Global;
use std::collections::BTreeMap;
use std::collections::btree_map::{Entry, Iter};
use std::marker::Model;
use std::sync::ledger::Ledger;

/// Rows in rank order, each with how often it stands. A row is found by its key, in the logarithm of their number, and the first ones
/// are read without a sort.
#[derive(Drop)]
pub struct RankedRows {
    pub counts: BTreeMap<RankKey, u64>,
}

impl RankedRows {
    /// No rows. It takes no memory.
    pub fn new(alloc: Global) -> RankedRows
        ensures { (order : List SortCol) → IsRanked order result.counts bag.none }
    {
        RankedRows {
            counts: BTreeMap::new(alloc),
        }
    }

    /// Whether there are none.
    pub fn is_empty(&self) -> bool
        ensures { result ≡ is_empty self.now }
    {
        self.counts.is_empty()
    }

    /// One more copy of a row, which is found by its key.
    pub fn add(&mut self, key: RankKey) -> Result<(), Memory>
        requires { unwrap_or (get key_cmp self.old.counts key) 0 + 1 < 2 ^ 64 }
        ensures { OnOk result ((order : List SortCol) (rows : Rows) → key ≡ rank_key order key.1 → IsRanked order self.old.counts rows → IsRanked order self.new.counts (bag.add rows key.1)) }
    {
        count_one(&mut self.counts, key)?;
        Ok(())
    }

    /// One copy less of a row, of which one has to stand.
    pub fn remove(&mut self, key: RankKey) -> Result<(), Memory>
        requires { 0 < unwrap_or (get key_cmp self.old.counts key) 0 }
        ensures { OnOk result ((order : List SortCol) (rows : Rows) → key ≡ rank_key order key.1 → IsRanked order self.old.counts rows → IsRanked order self.new.counts (bag.remove rows key.1)) }
    {
        count_less(&mut self.counts, key)?;
        Ok(())
    }

    /// The keys of the first rows in rank order, one for each copy, at most `bound`. Each is one step.
    pub fn first_keys<L: Ledger>(
        &self,
        alloc: Global,
        bound: usize,
        steps: &mut Steps<L>,
    ) -> Result<Vec<&RankKey>, Memory>
        ensures rows { IfOk result (λ keys. (order : List SortCol) (rows : Rows) → IsRanked order self.now.counts rows → map (λ key. key.now.1) keys.items ≡ take bound (in_rank_order order rows)) }
        ensures cost { steps.new ≤ steps.old + bound }
    {
        let keys = first_keys(alloc, &self.counts, bound, steps)?;
        Ok(keys)
    }
}

/// The rows of keys.
pub fn rows_of(alloc: Global, keys: &[&RankKey]) -> Result<Vec<Row>, Memory>
    ensures { IfOk result (λ rows. rows.items ≡ map (λ key. key.now.1) keys.now) }
{
    let mut rows: Vec<Row> = Vec::with_capacity(alloc, keys.len())?;
    for key in keys {
        rows.push(key.row().dup()?)?;
    }
    Ok(rows)
}

// Counts a key once more, in one descent.
fn count_one(counts: &mut BTreeMap<RankKey, u64>, key: RankKey) -> Result<(), Memory>
    requires { unwrap_or (get key_cmp counts.old key) 0 + 1 < 2 ^ 64 }
    ensures at { OnOk result ((other : Key) → get key_cmp counts.new other ≡ cond (eq_by_cmp key_cmp key other) (Some (unwrap_or (get key_cmp counts.old key) 0 + 1)) (get key_cmp counts.old other)) }
    ensures entries { OnOk result (counts.new.entries ≡ insert_entry key_cmp counts.old.entries key (unwrap_or (get key_cmp counts.old key) 0 + 1)) }
    ensures ordered { OnOk result (IsOrdered key_cmp counts.new) }
{
    *counts.entry(key)?.or_insert(0) += 1;
    Ok(())
}

// Counts a key, which has to be there, once less, in one descent, and answers whether copies of it are left. The key goes with its
// last one.
fn count_less(counts: &mut BTreeMap<RankKey, u64>, key: RankKey) -> Result<bool, Memory>
    requires { 0 < unwrap_or (get key_cmp counts.old key) 0 }
    ensures many { IfOk result (λ are_left. are_left ≡ true → 1 < unwrap_or (get key_cmp counts.old key) 0) }
    ensures left { IfOk result (λ are_left. are_left ≡ true → counts.new.entries ≡ insert_entry key_cmp counts.old.entries key (unwrap_or (get key_cmp counts.old key) 0 - 1)) }
    ensures left_at { IfOk result (λ are_left. are_left ≡ true → (other : Key) → get key_cmp counts.new other ≡ cond (eq_by_cmp key_cmp key other) (Some (unwrap_or (get key_cmp counts.old key) 0 - 1)) (get key_cmp counts.old other)) }
    ensures last { IfOk result (λ are_left. are_left ≡ false → (unwrap_or (get key_cmp counts.old key) 0 ≡ 1) × (counts.new.entries ≡ remove_entry (is_at (key_cmp key)) counts.old.entries)) }
    ensures last_at { IfOk result (λ are_left. are_left ≡ false → (other : Key) → get key_cmp counts.new other ≡ cond (eq_by_cmp key_cmp key other) None (get key_cmp counts.old other)) }
    ensures ordered { OnOk result (IsOrdered key_cmp counts.new) }
{
    let Entry::Occupied(spot) = counts.entry(key)? else {
        return Ok(false);
    };
    let standing = *spot.get();
    if standing > 1 {
        *spot.into_mut() = standing - 1;
        return Ok(true);
    }
    spot.remove();
    Ok(false)
}

// The keys that are left to be handed out, each with its count, in rank order.
#[derive(Drop)]
struct KeysLeft<'a> {
    entries: Iter<'a, RankKey, u64>,
}

impl<'a> Model for KeysLeft<'a> {
    ghost use Rattle.std.specs.Prelude.{List, ℕ};
    ghost use Rattle.op_topn.specs.Keys.{Key};

    ghost Value = { List (Key × ℕ) };

    ghost view = { λ k. k.entries };
}

impl<'a> KeysLeft<'a> {
    // The next key with its count.
    fn next_key(&mut self) -> Option<(&'a RankKey, u64)>
        ensures key { IfSome result (λ p. self.old ≡ (p.0.now, p.1) ∷ self.new) }
        ensures end { IfNone result ((self.old ≡ []) × (self.new ≡ [])) }
    {
        let (key, count) = self.entries.next()?;
        Some((key, *count))
    }
}

// The keys of the first rows in rank order, one for each copy, at most `bound`.
fn first_keys<'a, L: Ledger>(
    alloc: Global,
    counts: &'a BTreeMap<RankKey, u64>,
    bound: usize,
    steps: &mut Steps<L>,
) -> Result<Vec<&'a RankKey>, Memory>
    ensures rows { IfOk result (λ keys. map (λ key. key.now.1) keys.items ≡ take bound (rows_in counts.now.entries)) }
    ensures cost { steps.new ≤ steps.old + bound }
{
    let mut keys: Vec<&'a RankKey> = Vec::with_capacity(alloc, bound.min(counts.len()))?;
    let mut left = KeysLeft {
        entries: counts.iter(),
    };
    'walk: while let Some((key, count)) = left.next_key() {
        push_some(&mut keys, key, count, bound, steps)?;
        if keys.len() >= bound {
            return Ok(keys);
        }
    }
    Ok(keys)
}

// Puts a key behind the others as often as its copies are wanted, `bound` keys in all.
fn push_some<'a, L: Ledger>(
    keys: &mut Vec<&'a RankKey>,
    key: &'a RankKey,
    copies: u64,
    bound: usize,
    steps: &mut Steps<L>,
) -> Result<(), Memory>
    requires { length keys.old.items ≤ bound }
    ensures ok { OnOk result ((more : List Line) → take bound (map (λ key. key.now.1) keys.new.items ++ more) ≡ take bound (map (λ key. key.now.1) keys.old.items ++ (replicate copies key.now.1 ++ more))) }
    ensures short { length keys.new.items ≤ bound }
    ensures told { length keys.old.items ≤ length keys.new.items }
    ensures cost { steps.new + length keys.old.items ≤ steps.old + bound }
    ensures cost_ok { OnOk result (steps.new + length keys.old.items ≤ steps.old + length keys.new.items) }
{
    let room = (bound - keys.len()) as u64;
    push_copies(keys, key, room.min(copies), steps)?;
    Ok(())
}

// Puts a key behind the others so many times.
fn push_copies<'a, L: Ledger>(
    keys: &mut Vec<&'a RankKey>,
    key: &'a RankKey,
    copies: u64,
    steps: &mut Steps<L>,
) -> Result<(), Memory>
    ensures ok { OnOk result (map (λ key. key.now.1) keys.new.items ≡ map (λ key. key.now.1) keys.old.items ++ replicate copies key.now.1) }
    ensures told { length keys.old.items ≤ length keys.new.items }
    ensures short { length keys.new.items ≤ length keys.old.items + copies }
    ensures cost { steps.new ≤ steps.old + copies }
    ensures cost_ok { OnOk result (steps.new ≡ steps.old + copies) }
{
    'fill: for _copy in 0..copies {
        steps.tick();
        keys.push(key)?;
    }
    Ok(())
}
