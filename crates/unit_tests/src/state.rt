ghost use Rattle.std.specs.Prelude.{◌≡◌, ◌<◌, IsTrue, All, length, IfOk};
ghost use Rattle.ct_field.specs.Numbers.{is_type};

use crate::rows::row;
use bag_state::{KeyedBag, LastRows};
use ct_change::{Bag, Change, Kind, Steps};
use ct_value::{ColTy, ColTys, Cols, Memory, Row, Ty};
use route::{Channel, key_text, subtask_of};
use std::alloc::Global;
use std::marker::Brand;
use std::sync::ledger::{Blank, Ledger};
use std::test::Fail;

// Whether a bag has two rows, which ascend, with these counts.
fn has_two_rows<L: Ledger>(bag: &Bag, first_wanted: u64, second_wanted: u64, blank: Blank) -> bool
    requires name { blank.name ≡ L.name }
    requires parts { blank.parts ≡ L.parts }
    requires some { 0 < L.parts }
{
    let mut steps = Steps::<L>::new(blank);
    let mut rows = bag.rows();
    let Some((first, first_count)) = rows.next_row(&mut steps) else {
        return false;
    };
    let Some((second, second_count)) = rows.next_row(&mut steps) else {
        return false;
    };
    rows.next_row(&mut steps).is_none()
        && first_count == first_wanted
        && second_count == second_wanted
        && first < second
}

fn has_counts(bag: &Bag, first_wanted: u64, second_wanted: u64) -> bool {
    has_two_rows::<Brand>(bag, first_wanted, second_wanted, Blank::new(1))
}

fn put(bag: &mut Bag, row: Row) -> Result<(), Memory> {
    if bag.count(&row) < 9 {
        bag.add(row)?;
    }
    Ok(())
}

fn put_copy(bag: &mut Bag, row: &Row) -> Result<(), Memory> {
    if bag.count(row) < 9 {
        bag.add_copy(row)?;
    }
    Ok(())
}

fn put_again(bag: &mut Bag, row: &Row) {
    let count = bag.count(row);
    if count > 0 && count < 9 {
        bag.add_again(row);
    }
}

fn take(bag: &mut Bag, row: &Row) {
    if bag.count(row) > 0 {
        bag.remove(row);
    }
}

// The greater row comes first and twice, and goes; the less one comes, once where a row that stood came before it.
fn counts_rows(alloc: Global, less: &Row, greater: &Row) -> Result<bool, Memory> {
    let mut bag = Bag::new(alloc);
    put(&mut bag, greater.dup()?)?;
    put_copy(&mut bag, less)?;
    put_copy(&mut bag, greater)?;
    put_copy(&mut bag, less)?;
    put_again(&mut bag, less);
    let there = has_counts(&bag, 3, 2);
    take(&mut bag, greater);
    let once = bag.count(greater) == 1;
    take(&mut bag, greater);
    Ok(there && once && bag.count(greater) == 0 && !bag.is_empty())
}

fn put_under(keyed: &mut KeyedBag, key: Row, row: Row) -> Result<(), Memory> {
    if keyed.count(&key, &row) < 9 {
        keyed.add(key, row)?;
    }
    Ok(())
}

fn take_under(keyed: &mut KeyedBag, key: &Row, row: &Row) {
    if keyed.count(key, row) > 0 {
        keyed.remove(key, row);
    }
}

// A key is there as long as a row under it.
fn counts_row_by_key(alloc: Global, key: &Row, row: &Row) -> Result<bool, Memory> {
    let mut keyed = KeyedBag::new(alloc);
    put_under(&mut keyed, key.dup()?, row.dup()?)?;
    let there = keyed.rows_of(key).is_some();
    take_under(&mut keyed, key, row);
    Ok(there && keyed.rows_of(key).is_none())
}

// A key's row is set twice.
fn sets_last(last: &mut LastRows, key: &Row) -> Result<bool, Memory> {
    let before = last.set(key.dup()?, key.dup()?)?.is_some();
    let replaced = last.set(key.dup()?, key.dup()?)?.is_some();
    Ok(replaced && !before)
}

fn keeps_last(alloc: Global, key: &Row) -> Result<bool, Memory> {
    let mut last = LastRows::new(alloc);
    let set = sets_last(&mut last, key)?;
    let kept = last.get(key).is_some();
    Ok(set && kept && last.take(key).is_some() && last.take(key).is_none())
}

#[test]
fn rows_are_kept(rt: HostRuntime) -> Result<(), Fail> {
    let alloc = rt.alloc();
    let row_a = row(alloc, "a")?;
    let row_b = row(alloc, "b")?;
    assert!(rt; counts_rows(alloc, &row_a, &row_b)?);
    assert!(rt; counts_row_by_key(alloc, &row_a, &row_b)?);
    assert!(rt; keeps_last(alloc, &row_a)?);
    Ok(())
}

fn passes_on(alloc: Global, row: Row) -> Result<bool, Memory> {
    let mut channel = Channel::new(alloc);
    channel.send(Change::new(Kind::I, row))?;
    let sent = channel.in_flight() == 1;
    let taken = channel.take_front();
    Ok(sent && taken.is_some() && channel.take_front().is_none())
}

// The types of a text.
fn types(alloc: Global) -> Result<ColTys, Memory>
    ensures wide { IfOk result (λ tys. length tys ≡ 1) }
    ensures types { IfOk result (λ tys. All (λ column. IsTrue (is_type column.ty)) tys) }
{
    let mut tys = ColTys::new(alloc);
    tys.push(ColTy {
        ty: Ty::Text,
        nullable: false,
    })?;
    Ok(tys)
}

// The subtask of a row by its one column: `7` is 55, and 55 is odd.
fn subtask(alloc: Global, row: &Row) -> Result<u32, Memory>
    requires { length row.now ≡ 1 }
{
    let mut cols = Cols::new(alloc);
    cols.push(0)?;
    let text = key_text(alloc, row, &cols, &types(alloc)?)?;
    Ok(subtask_of(text.as_slice(), 2))
}

fn goes_its_way(alloc: Global) -> Result<bool, Memory> {
    let row = row(alloc, "7")?;
    let at_one = subtask(alloc, &row)? == 1;
    Ok(at_one && passes_on(alloc, row)?)
}

#[test]
fn a_row_goes_its_way(rt: HostRuntime) {
    assert!(rt; goes_its_way(rt.alloc()).unwrap_or(false));
}
