//! A load: a script is run on lines that are made, and what it prints is summed as it is printed.
ghost use Rattle.std.specs.Prelude.{◌≡◌, IfOk, IfErr};
ghost use Rattle.ct_io.specs.Counts.{Rose};
ghost use Rattle.ct_io.specs.InMemory.{holdings_of};
ghost use Rattle.command_line.specs.Requests.{names_view};
ghost use Rattle.job_ending.specs.Endings.{IsPrintable};
ghost use Rattle.job_ending.specs.Outcome.{Outcome};
ghost use Rattle.job_ending.specs.Runs.{IsBefore, RunsThere, ending_of, ending_of_halt};
ghost use Rattle.job_ending.specs.declared.ending.Ending.TheVariants.{Done};
ghost use Rattle.job_run.specs.Kept.{IsKept};
ghost use Rattle.job_run.specs.Loads.{load_holdings, load_names, script_and};
ghost use Rattle.job_run.specs.Outcome.{behind, load_of, summed};

use crate::changelogs::run_names;
use crate::kept::in_memory;
use crate::summing::SummingSink;
use command_line::{FileNames, Input};
use ct_io::{Calls, Files, MemShelf, Sink, put_all};
use ct_value::{Bytes, Memory, Text};
use job_ending::Halt;
use job_text::make_lines;
use std::alloc::Global;

// The script that a load runs.
const LOAD_SCRIPT: &str =
    "CREATE TABLE t (word STRING NOT NULL, v INT NOT NULL) WITH ('changelog' = 'retract'); CREATE TABLE out_t (word STRING PRIMARY KEY NOT ENFORCED, n BIGINT, s INT) WITH ('changelog' = 'upsert'); SET 'table.exec.resource.default-parallelism' = '4'; INSERT INTO out_t SELECT word, COUNT(*), SUM(v) FROM t GROUP BY word;";

/// Runs a script on so many lines that are made from a seed, and writes one line: the number of lines, that of the changes that were
/// printed, the rows that these leave and the sum of their counts, and a hash of all that was printed. Of that the last bytes are kept,
/// some 128 KiB, beside the lines that the run keeps until its end.
pub fn load_lines<K: Sink>(alloc: Global, seed: u64, lines: u64, out: &mut K) -> Result<(), Halt>
    ensures runs { RunsThere (load_of seed lines) (Rose (K.faults out.old) (K.faults out.new)) (K.written out.old) (K.written out.new) result }
    ensures printable { IsPrintable (ending_of result) }
{
    let line = load_line(alloc, seed, lines, out.is_last())?;
    put_line(line.as_slice(), out)
}

fn put_line<K: Sink>(line: &[u8], out: &mut K) -> Result<(), Halt>
    ensures { RunsThere (record { ending = Done; bytes = line.now }) (Rose (K.faults out.old) (K.faults out.new)) (K.written out.old) (K.written out.new) result }
{
    match put_all(out, line) {
        Ok(()) => Ok(()),
        Err(_) => Err(Halt::WriteFault),
    }
}

// The line of a load, with which the process may end.
fn load_line(alloc: Global, seed: u64, lines: u64, last: bool) -> Result<Vec<u8>, Halt>
    ensures ok { IfOk result (λ line. load_of seed lines ≡ record { ending = Done; bytes = line.items }) }
    ensures halts { IfErr result (λ halt. IsBefore halt (load_of seed lines)) }
    ensures printable { IfErr result (λ halt. IsPrintable (ending_of_halt halt)) }
{
    let Ok(names) = load_names(alloc) else {
        return Err(Halt::Memory);
    };
    let Ok(mut shelf) = load_shelf(alloc, seed, lines) else {
        return Err(Halt::Memory);
    };
    let mut sink = SummingSink::new(alloc, last);
    let ran = run_names(alloc, &names, &None, &mut shelf, &mut sink);
    summed_by(ran, sink, lines)
}

// The line of sums over what a run has written, unless it halted.
fn summed_by(ran: Result<(), Halt>, sink: SummingSink, lines: u64) -> Result<Vec<u8>, Halt>
    ensures ok { IfOk result (λ line. (there : Outcome) → IsKept there (ending_of ran) sink.bytes → behind (summed lines) there ≡ record { ending = Done; bytes = line.items }) }
    ensures halts { IfErr result (λ halt. (there : Outcome) → IsKept there (ending_of ran) sink.bytes → IsBefore halt (behind (summed lines) there)) }
    ensures printable { IfErr result (λ halt. IsPrintable (ending_of ran) → IsPrintable (ending_of_halt halt)) }
{
    match ran {
        Ok(()) => sink.sum_up(lines),
        Err(halt) => Err(in_memory(halt)),
    }
}

// ---- what is on the shelf

fn load_names(alloc: Global) -> Result<FileNames, Memory>
    ensures { IfOk result (λ given. names_view given ≡ load_names) }
{
    Ok(FileNames {
        script: Text::from_str(alloc, "script")?,
        input: Input::Changes(Text::from_str(alloc, "changes")?),
    })
}

#[tactic(auto, unfolding(crate::specs::Loads::load_script))]
fn load_shelf(alloc: Global, seed: u64, lines: u64) -> Result<MemShelf, Memory>
    ensures { IfOk result (λ shelf. holdings_of shelf ≡ load_holdings seed lines) }
{
    let changes = make_lines(alloc, seed, lines)?;
    shelf_of(alloc, LOAD_SCRIPT.as_bytes(), "changes", changes)
}

// A shelf of a script, and of a file of this name.
fn shelf_of(alloc: Global, script: &[u8], name: &str, bytes: Bytes) -> Result<MemShelf, Memory>
    ensures { IfOk result (λ shelf. holdings_of shelf ≡ script_and script.now name.now bytes) }
{
    let mut files = Files::new(alloc);
    files.set(
        Text::from_str(alloc, "script")?,
        Bytes::from_slice(alloc, script)?,
    )?;
    files.set(Text::from_str(alloc, name)?, bytes)?;
    Ok(MemShelf::new(files, Calls::new(alloc)))
}
