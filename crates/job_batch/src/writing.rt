//! A batch answer from its script to its last line.
ghost use Rattle.std.specs.Prelude.{◌≡◌, length, map, IfOk};
ghost use Rattle.ct_io.specs.Counts.{Rose};
ghost use Rattle.job_ending.specs.Endings.{IsPrintable};
ghost use Rattle.job_ending.specs.Runs.{RunsThere, ending_of};
ghost use Rattle.job_judgement.specs.Judged.{IsJudged};
ghost use Rattle.job_judgement.specs.Views.{accepted_view};
ghost use Rattle.source_lines.specs.Fitting.{RowsFit};
ghost use Rattle.source_lines.specs.Supply.{AreWithin};
ghost use Rattle.job_batch.specs.Batch.{done, over_tables, sink_types, with_changes, with_rows};
ghost use Rattle.job_batch.specs.Runs.{AreWide};

use crate::answers::{answer_over, tables_of};
use crate::lines::{PutFault, put_rows};
use ct_catalog::ColDef;
use ct_change::Bag;
use ct_io::Sink;
use ct_value::Ty;
use job_ending::Halt;
use job_judgement::Accepted;
use source_lines::{Bags, ChangeFiles};
use std::alloc::{AllocError, Global};
use std::marker::Brand;
use std::sync::ledger::Blank;

/// Writes the batch answer of an accepted script over the first `first` lines of each change file, or over all: its rows in their order,
/// each copy by itself. A file has at most 67,108,864 bytes.
pub fn batch<K: Sink>(
    alloc: Global,
    script: &Accepted,
    first: Option<u64>,
    files: ChangeFiles,
    out: &mut K,
) -> Result<(), Halt>
    requires judged { IsJudged (accepted_view script.now) }
    requires within { AreWithin files }
    ensures runs { RunsThere (with_changes (accepted_view script.now) first files) (Rose (K.faults out.old) (K.faults out.new)) (K.written out.old) (K.written out.new) result }
    ensures printable { IsPrintable (ending_of result) }
{
    let tables = tables_of(alloc, script, first, files)?;
    batch_over(alloc, script, &tables, out)
}

/// Writes the batch answer of an accepted script over these rows of its sources.
pub fn batch_over<K: Sink>(
    alloc: Global,
    script: &Accepted,
    tables: &Bags,
    out: &mut K,
) -> Result<(), Halt>
    requires judged { IsJudged (accepted_view script.now) }
    requires fit { RowsFit script.now.inserted.sources tables.now }
    ensures runs { RunsThere (over_tables (accepted_view script.now) (with_rows script.now.inserted.sources tables.now)) (Rose (K.faults out.old) (K.faults out.new)) (K.written out.old) (K.written out.new) result }
    ensures printable { IsPrintable (ending_of result) }
{
    let rows = answer_over(alloc, script, tables)?;
    write_rows(alloc, script, &rows, out)
}

// Writes the rows of an answer.
fn write_rows<K: Sink>(
    alloc: Global,
    script: &Accepted,
    rows: &Bag,
    out: &mut K,
) -> Result<(), Halt>
    requires judged { IsJudged (accepted_view script.now) }
    requires wide { AreWide (length (sink_types (accepted_view script.now))) rows.now }
    ensures runs { RunsThere (done (sink_types (accepted_view script.now)) rows.now) (Rose (K.faults out.old) (K.faults out.new)) (K.written out.old) (K.written out.new) result }
    ensures printable { IsPrintable (ending_of result) }
{
    let Ok(tys) = tys_of(alloc, script.inserted.sink.cols.as_slice()) else {
        return Err(Halt::Memory);
    };
    match put_rows::<Brand, K>(alloc, rows, tys.as_slice(), Blank::new(1), out) {
        Ok(()) => Ok(()),
        Err(PutFault::Failed) => Err(Halt::WriteFault),
        Err(PutFault::Memory) => Err(Halt::Memory),
    }
}

// The types of columns.
fn tys_of(alloc: Global, columns: &[ColDef]) -> Result<Vec<Ty>, AllocError>
    ensures { IfOk result (λ tys. tys.items ≡ map (λ c. c.ty.ty) columns.now) }
{
    columns.iter().map(|column| column.ty.ty).collect(alloc)
}
