//! Change lines that are made from a seed.
ghost use Rattle.std.specs.Prelude.{◌≡◌, ◌+◌, ◌++◌, ℕ, IfOk, OnOk};
ghost use Rattle.job_text.specs.Made.{AreLast, made_line, made_lines, made_row, next_number};

use ct_field::push_field;
use ct_value::{Bytes, Memory, Ty, Value};
use std::alloc::Global;

// The numbers from which the last lines were made.
#[derive(Clone, Copy)]
struct LastNumbers {
    last: u64,
    second: u64,
    third: u64,
    fourth: u64,
}

/// The change lines of a table `t` with a column of words and one of values, made from a seed, so many: four rows come, and the first of
/// them goes again, over and over.
pub fn make_lines(alloc: Global, seed: u64, count: u64) -> Result<Bytes, Memory>
    ensures { IfOk result (λ lines. lines ≡ made_lines seed count) }
{
    let mut lines = Bytes::new(alloc);
    let mut numbers = LastNumbers {
        last: seed,
        second: seed,
        third: seed,
        fourth: seed,
    };
    for k in 0..count {
        push_line(alloc, &mut lines, k + 1, numbers)?;
        numbers = behind(numbers);
    }
    Ok(lines)
}

// The last numbers when one line more is made.
fn behind(numbers: LastNumbers) -> LastNumbers
    ensures { (seed k : ℕ) → AreLast seed k numbers.last numbers.second numbers.third numbers.fourth → AreLast seed (k + 1) result.last result.second result.third result.fourth }
{
    LastNumbers {
        last: next_number(numbers.last),
        second: numbers.last,
        third: numbers.second,
        fourth: numbers.third,
    }
}

// A congruential generator: multiplier and increment are Knuth's for 64 bits.
fn next_number(number: u64) -> u64
    ensures { result ≡ next_number number }
{
    number
        .wrapping_mul(6364136223846793005)
        .wrapping_add(1442695040888963407)
}

// Puts the line of a number behind those of which these are the last numbers.
fn push_line(
    alloc: Global,
    lines: &mut Bytes,
    number: u64,
    before: LastNumbers,
) -> Result<(), Memory>
    ensures { OnOk result ((seed k : ℕ) → number ≡ k + 1 → AreLast seed k before.last before.second before.third before.fourth
        → lines.new ≡ lines.old ++ made_line seed number) }
{
    if number % 5 == 0 {
        lines.extend(b"t,-D,")?;
        push_row(alloc, lines, before.fourth)
    } else {
        lines.extend(b"t,+I,")?;
        push_row(alloc, lines, next_number(before.last))
    }
}

// Puts the row that a number makes.
fn push_row(alloc: Global, lines: &mut Bytes, number: u64) -> Result<(), Memory>
    ensures { OnOk result (lines.new ≡ lines.old ++ made_row number) }
{
    let word = Value::Num(i128::from(number / 8589934592 % 1000));
    let value = Value::Num(i128::from(number / 8796093022208 % 2001) - 1000);
    lines.push(b'w')?;
    push_field(alloc, lines, Ty::BigInt, &word)?;
    lines.push(b',')?;
    push_field(alloc, lines, Ty::Int, &value)?;
    lines.push(b'\n')
}
