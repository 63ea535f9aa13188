//! The line of a load, put together.
ghost use Rattle.std.specs.Prelude.{◌≡◌, ◌<◌, ◌≤◌, ◌++◌, ◌∷◌, ◌^◌, [], IfOk, OnOk, codes, length};
ghost use Rattle.std.specs.Fmt.{decimal};
ghost use Rattle.job_text.specs.Printed.{but_last, quiet_line};
ghost use Rattle.job_run.specs.Loads.{line_count, summary, with_end};

use ct_value::Memory;
use std::alloc::Global;

/// How many lines end in bytes.
pub(crate) fn line_count(bytes: &[u8]) -> u64
    ensures count { result ≡ line_count bytes.now }
    ensures few { result ≤ length bytes.now }
    ensures small { result < 2 ^ 63 }
{
    let mut count: u64 = 0;
    for byte in bytes {
        count = with_end(count, *byte);
    }
    count
}

fn with_end(count: u64, byte: u8) -> u64
    requires { count < 18446744073709551615 }
    ensures { result ≡ with_end count byte }
{
    if byte == b'\n' { count + 1 } else { count }
}

/// Bytes without the last.
pub(crate) fn without_last(bytes: Vec<u8>) -> Vec<u8>
    ensures { result.items ≡ but_last bytes.items }
{
    let mut left = bytes;
    left.pop();
    left
}

/// The line of a load: of so many lines, so many printed changes, their sums and their hash.
pub(crate) fn summary(
    alloc: Global,
    lines: u64,
    changes: u64,
    sums: Vec<u8>,
    hash: u64,
) -> Result<Vec<u8>, Memory>
    ensures { IfOk result (λ line. line.items ≡ summary lines changes sums.items hash) }
{
    let mut line = start_of(alloc, lines, changes)?;
    line.extend_from_slice(sums.as_slice())?;
    push_end(alloc, &mut line, hash)?;
    Ok(line)
}

// What stands before the sums.
fn start_of(alloc: Global, lines: u64, printed: u64) -> Result<Vec<u8>, Memory>
    ensures { IfOk result (λ start. start.items ≡ codes "load," ++ (decimal lines ++ (codes "," ++ (decimal printed ++ codes ",")))) }
{
    let start = format!(in alloc; "load,{lines},{printed},")?;
    Ok(start.into_bytes())
}

// Puts what stands behind them.
fn push_end(alloc: Global, line: &mut Vec<u8>, hash: u64) -> Result<(), Memory>
    ensures { OnOk result (line.new.items ≡ line.old.items ++ (codes "," ++ (decimal hash ++ codes "\n"))) }
{
    let end = format!(in alloc; ",{hash}\n")?;
    line.extend_from_slice(end.as_bytes())?;
    Ok(())
}

/// How many bytes the quiet line of so many lines has.
pub(crate) fn quiet_len(alloc: Global, lines: u64) -> Result<usize, Memory>
    ensures { IfOk result (λ count. count ≡ length (quiet_line (lines ∷ []))) }
{
    let quiet = format!(in alloc; "=,{lines}\n")?;
    Ok(quiet.len())
}
