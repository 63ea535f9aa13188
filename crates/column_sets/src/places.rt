//! Where columns stand in a row that is made of other rows.
ghost use Rattle.std.specs.Prelude.{◌≡◌, ℕ, List, Option, Some, cond, OnOk, IfOk};
ghost use Rattle.std.specs.BTreeMap.{get};
ghost use Rattle.std.specs.Ordering.{nat_cmp};
ghost use Rattle.column_sets.specs.Places as p;

use crate::families::Sets;
use crate::sets::set_of;
use ct_value::{Cols, Memory};
use std::alloc::Global;
use std::collections::BTreeMap;

// The first places of columns.
type Places = BTreeMap<u32, usize>;

/// So many columns, from the first on.
#[tactic(auto, using(crate::proofs::laws::Ranges::columns_more))]
pub fn first_columns(alloc: Global, count: u32) -> Result<Cols, Memory>
    ensures { IfOk result (λ cols. cols ≡ p.first_columns count) }
{
    let mut cols = Cols::new(alloc);
    for col in 0..count {
        cols.push(col)?;
    }
    Ok(cols)
}

/// Columns of a row that stands behind so many others.
pub fn shift(alloc: Global, by: u32, cols: &[u32]) -> Result<Cols, Memory>
    ensures { IfOk result (λ all. all ≡ p.shift by cols.now) }
{
    let mut all = Cols::new(alloc);
    for col in cols {
        let Some(col) = col.checked_add(by) else {
            return Err(Memory);
        };
        all.push(col)?;
    }
    Ok(all)
}

/// Sets of columns of a row that stands behind so many others.
pub fn shifted(alloc: Global, by: u32, sets: &[Cols]) -> Result<Sets, Memory>
    ensures { IfOk result (λ all. all ≡ p.shifted by sets.now) }
{
    let mut all = Sets::new(alloc);
    for set in sets {
        all.push(shift(alloc, by, set.as_slice())?)?;
    }
    Ok(all)
}

// The first place of each column among items.
fn places_in(alloc: Global, items: &[Option<u32>]) -> Result<Places, Memory>
    ensures { IfOk result (λ places. (col : ℕ) → get nat_cmp places col ≡ p.place_of items.now col) }
{
    let mut places = Places::new(alloc);
    let mut place = items.len();
    'place: while place > 0 {
        place -= 1;
        put_place(&mut places, items[place], place)?;
    }
    Ok(places)
}

// Puts the place of an item before those that are known.
fn put_place(places: &mut Places, item: Option<u32>, place: usize) -> Result<(), Memory>
    ensures { OnOk result ((col : ℕ) → get nat_cmp places.new col ≡ cond (p.is_column item col) (Some place) (get nat_cmp places.old col)) }
{
    if let Some(col) = item {
        places.insert(col, place)?;
    }
    Ok(())
}

// The first place of a column.
fn place_in(places: &Places, col: u32) -> Option<usize>
    ensures { result ≡ get nat_cmp places.now col }
{
    places.get(&col).copied()
}

// The first places of columns, where each of them stays.
fn places_of(alloc: Global, places: &Places, cols: &[u32]) -> Result<Option<Cols>, Memory>
    ensures { (items : List (Option ℕ)) → ((col : ℕ) → get nat_cmp places.now col ≡ p.place_of items col) → IfOk result (λ found. found ≡ p.places_of items cols.now) }
{
    let mut found = Cols::new(alloc);
    for col in cols {
        let Some(place) = place_in(places, *col) else {
            return Ok(None);
        };
        let Ok(place) = u32::try_from(place) else {
            return Err(Memory);
        };
        found.push(place)?;
    }
    Ok(Some(found))
}

/// The image of a set, where each of its columns stays.
pub fn image(alloc: Global, items: &[Option<u32>], cols: &Cols) -> Result<Option<Cols>, Memory>
    ensures { IfOk result (λ set. set ≡ p.image items.now cols.now) }
{
    let places = places_in(alloc, items)?;
    image_by(alloc, &places, cols)
}

/// The images of those sets that have one.
pub fn images(alloc: Global, items: &[Option<u32>], sets: &[Cols]) -> Result<Sets, Memory>
    ensures { IfOk result (λ all. all ≡ p.images items.now sets.now) }
{
    let places = places_in(alloc, items)?;
    let mut all = Sets::new(alloc);
    for set in sets {
        if let Some(set) = image_by(alloc, &places, set)? {
            all.push(set)?;
        }
    }
    Ok(all)
}

// The image of a set by the first places of columns.
fn image_by(alloc: Global, places: &Places, cols: &Cols) -> Result<Option<Cols>, Memory>
    ensures { (items : List (Option ℕ)) → ((col : ℕ) → get nat_cmp places.now col ≡ p.place_of items col) → IfOk result (λ set. set ≡ p.image items cols.now) }
{
    match places_of(alloc, places, cols.as_slice())? {
        None => Ok(None),
        Some(found) => Ok(Some(set_of(alloc, found.as_slice())?)),
    }
}
