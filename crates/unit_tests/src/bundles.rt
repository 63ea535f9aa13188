//! Bundles: what was pushed is handed out by key, in the order in which the keys were first seen.
ghost use Rattle.std.specs.Prelude.{◌≡◌, OnOk};

use crate::rows::row;
use ct_change::{Change, Changes, Kind};
use ct_value::{Memory, Row, Text, Value};
use mini_batch::Bundle;
use std::alloc::Global;
use std::test::Fail;

// Pushes a row that comes, under the key of its text, into a bundle of three changes, and says whether it is full.
fn put(alloc: Global, bundle: &mut Bundle, word: &str) -> Result<bool, Memory>
    requires { bundle.old.size ≡ 3 }
    ensures { OnOk result (bundle.new.size ≡ 3) }
{
    if bundle.held() >= 3 {
        return Ok(true);
    }
    let change = Change::new(Kind::I, row(alloc, word)?);
    let full = bundle.push(row(alloc, word)?, change)?;
    Ok(full)
}

fn is_of(taken: Option<(Row, Changes)>, key: &Row, count: usize) -> bool {
    match taken {
        Some((row, changes)) => row == *key && changes.len() == count,
        None => false,
    }
}

fn hands_out(alloc: Global) -> Result<bool, Memory> {
    let mut bundle = Bundle::new(alloc, 3);
    let first = put(alloc, &mut bundle, "b")?;
    let second = put(alloc, &mut bundle, "a")?;
    let third = put(alloc, &mut bundle, "b")?;
    let held = bundle.held();
    let b = is_of(bundle.take_first(), &row(alloc, "b")?, 2);
    let a = is_of(bundle.take_first(), &row(alloc, "a")?, 1);
    let none = bundle.take_first().is_none();
    Ok(!first && !second && third && held == 3 && b && a && none && bundle.held() == 0)
}

// A row of a word and a letter.
fn pair(alloc: Global, word: &str, letter: &str) -> Result<Row, Memory> {
    let letter = Text::from_str(alloc, letter)?;
    row(alloc, word)?.with(Value::Text(letter))
}

// Pushes a pair that comes, under its first value, into a bundle of three changes, and says whether it is full.
fn put_pair(alloc: Global, bundle: &mut Bundle, word: &str, letter: &str) -> Result<bool, Memory>
    requires { bundle.old.size ≡ 3 }
    ensures { OnOk result (bundle.new.size ≡ 3) }
{
    if bundle.held() >= 3 {
        return Ok(true);
    }
    let change = Change::new(Kind::I, pair(alloc, word, letter)?);
    let full = bundle.push_by_first(1, change)?;
    Ok(full)
}

fn hands_out_by_first(alloc: Global) -> Result<bool, Memory> {
    let mut bundle = Bundle::new(alloc, 3);
    let first = put_pair(alloc, &mut bundle, "b", "x")?;
    let second = put_pair(alloc, &mut bundle, "a", "x")?;
    let third = put_pair(alloc, &mut bundle, "b", "y")?;
    let b = is_of(bundle.take_first(), &row(alloc, "b")?, 2);
    let a = is_of(bundle.take_first(), &row(alloc, "a")?, 1);
    let none = bundle.take_first().is_none();
    Ok(!first && !second && third && b && a && none && bundle.held() == 0)
}

#[test]
fn rows_with_one_first_value_are_under_one_key(rt: HostRuntime) -> Result<(), Fail> {
    assert!(rt; hands_out_by_first(rt.alloc())?);
    Ok(())
}

#[test]
fn keys_are_handed_out_as_they_were_first_seen(rt: HostRuntime) -> Result<(), Fail> {
    assert!(rt; hands_out(rt.alloc())?);
    Ok(())
}
