//! Items as lines.
ghost use Rattle.std.specs.Prelude.{◌≡◌, ◌≤◌, IsTrue, length, OnOk, IsErrOf};
ghost use Rattle.std.specs.List.{AllByRecursion};
ghost use Rattle.ct_io.specs.Counts.{Rose};
ghost use Rattle.ct_io.specs.Written.{Appends, AppendsPart};
ghost use Rattle.ct_field.specs.Numbers.{is_type};
ghost use Rattle.job_text.specs.Printed.{IsWide, item_line};
ghost use Rattle.job_stream.specs.Writing.{lines_on};

use crate::sheet::Sheet;
use ct_io::{Sink, put_all};
use ct_value::Memory;
use job_text::LineWriter;
use stream_model::{PrintItem, PrintList};

/// Why items aren't put.
#[derive(Clone, Copy, Debug, PartialEq, Eq)]
pub(crate) enum PutFault {
    Failed,
    Memory,
}

impl From<Memory> for PutFault {
    ghost use Rattle.std.specs.Prelude.{◌≡◌};
    ghost use Rattle.job_stream.specs.declared.lines.PutFault.TheVariants.{Memory as Wanting};

    ghost from_gives = { λ _ given. given ≡ Wanting };

    fn from(_: Memory) -> Self {
        PutFault::Memory
    }
}

/// Puts the lines of items whose changes are as wide as the sheet.
pub(crate) fn put_items<K: Sink>(
    items: &PrintList,
    sheet: &Sheet,
    writer: &mut LineWriter,
    out: &mut K,
) -> Result<(), PutFault>
    requires wide { AllByRecursion (IsWide (length sheet.now.tys.items)) items.now }
    requires types { AllByRecursion (λ ty. IsTrue (is_type ty)) sheet.now.tys.items }
    ensures whole { OnOk result (Appends (K.written out.old) (K.written out.new) (lines_on sheet.now items.now)) }
    ensures part { AppendsPart (K.written out.old) (K.written out.new) (lines_on sheet.now items.now) }
    ensures later { K.faults out.old ≤ K.faults out.new }
    ensures failed { IsErrOf result PutFault.Failed → Rose (K.faults out.old) (K.faults out.new) }
{
    for item in items.as_slice() {
        put_item(item, sheet, writer, out)?;
    }
    Ok(())
}

// Puts the line of an item.
fn put_item<K: Sink>(
    item: &PrintItem,
    sheet: &Sheet,
    writer: &mut LineWriter,
    out: &mut K,
) -> Result<(), PutFault>
    requires wide { IsWide (length sheet.now.tys.items) item.now }
    requires types { AllByRecursion (λ ty. IsTrue (is_type ty)) sheet.now.tys.items }
    ensures whole { OnOk result (Appends (K.written out.old) (K.written out.new) (item_line sheet.now.by_table sheet.now.tys.items sheet.now.key item.now)) }
    ensures part { AppendsPart (K.written out.old) (K.written out.new) (item_line sheet.now.by_table sheet.now.tys.items sheet.now.key item.now) }
    ensures later { K.faults out.old ≤ K.faults out.new }
    ensures failed { IsErrOf result PutFault.Failed → Rose (K.faults out.old) (K.faults out.new) }
{
    writer.write_item(
        item,
        sheet.tys.as_slice(),
        sheet.key.as_ref(),
        sheet.by_table,
    )?;
    match put_all(out, writer.line()) {
        Ok(()) => Ok(()),
        Err(_) => Err(PutFault::Failed),
    }
}
