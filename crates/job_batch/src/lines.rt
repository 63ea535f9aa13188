//! Rows as lines.
ghost use Rattle.std.specs.Prelude.{◌≡◌, ◌<◌, ◌≤◌, length, IsTrue, OnOk, IsErrOf};
ghost use Rattle.std.specs.List.{AllByRecursion};
ghost use Rattle.ct_io.specs.Counts.{Rose};
ghost use Rattle.ct_io.specs.Written.{Appends, AppendsPart};
ghost use Rattle.ct_field.specs.Numbers.{is_type};
ghost use Rattle.ct_value.specs.Bag.{items};
ghost use Rattle.ct_io.specs.Copies.{copies_text};
ghost use Rattle.job_text.specs.Printed.{row_line, row_lines};
ghost use Rattle.job_batch.specs.Runs.{AreWide};

use ct_change::{Bag, Steps};
use ct_io::{Sink, put_copies};
use ct_value::{Memory, Row, Ty};
use job_text::row_line;
use std::alloc::Global;
use std::sync::ledger::{Blank, Ledger};

/// Why rows are not put.
#[derive(Clone, Copy, Debug, PartialEq, Eq)]
pub(crate) enum PutFault {
    Failed,
    Memory,
}

impl From<Memory> for PutFault {
    ghost use Rattle.std.specs.Prelude.{◌≡◌};
    ghost use Rattle.job_batch.specs.declared.lines.PutFault.TheVariants.{Memory as Wanting};

    ghost from_gives = { λ _ fault. fault ≡ Wanting };

    fn from(_: Memory) -> Self {
        PutFault::Memory
    }
}

/// Puts the lines of rows with columns of these types, in the order of rows, each copy by itself. Nobody reads how many steps that
/// takes.
pub(crate) fn put_rows<L: Ledger, K: Sink>(
    alloc: Global,
    rows: &Bag,
    tys: &[Ty],
    blank: Blank,
    out: &mut K,
) -> Result<(), PutFault>
    requires name { blank.name ≡ L.name }
    requires parts { blank.parts ≡ L.parts }
    requires some { 0 < L.parts }
    requires wide { AreWide (length tys.now) rows.now }
    requires types { AllByRecursion (λ ty. IsTrue (is_type ty)) tys.now }
    ensures whole { OnOk result (Appends (K.written out.old) (K.written out.new) (row_lines tys.now (items rows.now))) }
    ensures part { AppendsPart (K.written out.old) (K.written out.new) (row_lines tys.now (items rows.now)) }
    ensures failed { IsErrOf result PutFault.Failed → Rose (K.faults out.old) (K.faults out.new) }
{
    let mut steps = Steps::<L>::new(blank);
    let mut left = rows.rows();
    'runs: while let Some((row, count)) = left.next_row(&mut steps) {
        put_run(alloc, row, count, tys, out)?;
    }
    Ok(())
}

// Puts the line of a row so many times.
fn put_run<K: Sink>(
    alloc: Global,
    row: &Row,
    count: u64,
    tys: &[Ty],
    out: &mut K,
) -> Result<(), PutFault>
    requires wide { length row.now ≡ length tys.now }
    requires types { AllByRecursion (λ ty. IsTrue (is_type ty)) tys.now }
    ensures whole { OnOk result (Appends (K.written out.old) (K.written out.new) (copies_text count (row_line tys.now row.now))) }
    ensures part { AppendsPart (K.written out.old) (K.written out.new) (copies_text count (row_line tys.now row.now)) }
    ensures later { K.faults out.old ≤ K.faults out.new }
    ensures failed { IsErrOf result PutFault.Failed → Rose (K.faults out.old) (K.faults out.new) }
{
    let line = row_line(alloc, row, tys)?;
    match put_copies(out, line.as_slice(), count) {
        Ok(()) => Ok(()),
        Err(_) => Err(PutFault::Failed),
    }
}
