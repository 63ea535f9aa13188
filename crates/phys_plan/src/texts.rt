//! Texts that are put behind others.
ghost use Rattle.std.specs.Prelude.{◌≡◌, ◌+◌, ◌++◌, map, OnOk};
ghost use Rattle.std.specs.Fmt.{decimal};
ghost use Rattle.phys_plan.specs.Explained as e;

use ct_value::{Bytes, Memory};
use std::alloc::Global;

/// Puts a number behind a text.
pub(crate) fn push_number(alloc: Global, text: &mut Bytes, number: u64) -> Result<(), Memory>
    ensures { OnOk result (text.new ≡ text.old ++ decimal number) }
{
    let digits = format!(in alloc; "{number}")?;
    text.extend(digits.as_bytes())
}

/// Puts numbers, with commas between them, behind a text, each behind so many others.
pub(crate) fn push_numbers(
    alloc: Global,
    text: &mut Bytes,
    before: u32,
    numbers: &[u32],
) -> Result<(), Memory>
    ensures { OnOk result (text.new ≡ text.old ++ e.numbers (map (λ n. before + n) numbers.now)) }
{
    match numbers {
        [] => Ok(()),
        [first, others @ ..] => {
            push_number(alloc, text, before as u64 + *first as u64)?;
            push_others(alloc, text, before, others)
        }
    }
}

// The same, with a comma before each.
fn push_others(alloc: Global, text: &mut Bytes, before: u32, numbers: &[u32]) -> Result<(), Memory>
    ensures { OnOk result (text.new ≡ text.old ++ e.behind_commas (map decimal (map (λ n. before + n) numbers.now))) }
{
    for number in numbers {
        text.extend(b",")?;
        push_number(alloc, text, before as u64 + *number as u64)?;
    }
    Ok(())
}

/// Puts columns, with commas between them, behind a text.
pub(crate) fn push_cols(alloc: Global, text: &mut Bytes, cols: &[u32]) -> Result<(), Memory>
    ensures { OnOk result (text.new ≡ text.old ++ e.numbers cols.now) }
{
    push_numbers(alloc, text, 0, cols)
}

/// Puts a word with something in parentheses behind a text.
pub(crate) fn push_called(text: &mut Bytes, word: &str, inside: &[u8]) -> Result<(), Memory>
    ensures { OnOk result (text.new ≡ text.old ++ e.called word.now inside.now) }
{
    text.extend(word.as_bytes())?;
    text.extend(b"(")?;
    text.extend(inside)?;
    text.extend(b")")
}
