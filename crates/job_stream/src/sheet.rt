//! How items are written, and what a run keeps at hand.
ghost use Rattle.std.specs.Prelude.{◌≡◌, map, IfOk};
ghost use Rattle.job_stream.specs.Stream.{sink_key};
ghost use Rattle.job_stream.specs.Writing.{IsSheetOf};

use ct_catalog::{ColDef, TableDef};
use ct_change::{Declared, Steps};
use ct_value::{Cols, Memory, Ty};
use job_text::LineWriter;
use std::alloc::{AllocError, Global};
use std::sync::ledger::Ledger;
use stream_model::PrintList;

/// How items are written: by the types of the columns of a sink, by its key where it is an upsert table, and whether a quiet moment tells
/// what was taken of each table.
#[derive(Drop)]
pub(crate) struct Sheet {
    pub alloc: Global,
    pub tys: Vec<Ty>,
    pub key: Option<Cols>,
    pub by_table: bool,
}

/// What a run keeps at hand from step to step: the counter of its steps, the room in which its lines are made, and the items that it
/// hands out.
#[derive(Drop)]
pub(crate) struct Tools<L: Ledger> {
    pub steps: Steps<L>,
    pub writer: LineWriter,
    pub printed: PrintList,
}

/// The sheet of a sink.
pub(crate) fn sheet_of(alloc: Global, sink: &TableDef, by_table: bool) -> Result<Sheet, Memory>
    ensures sink { IfOk result (λ sheet. IsSheetOf sink.now sheet) }
    ensures by_table { IfOk result (λ sheet. sheet.by_table ≡ by_table) }
{
    let tys = tys_of(alloc, sink.cols.as_slice())?;
    let key = key_of(alloc, sink)?;
    Ok(Sheet {
        alloc,
        tys,
        key,
        by_table,
    })
}

// The types of columns.
fn tys_of(alloc: Global, columns: &[ColDef]) -> Result<Vec<Ty>, AllocError>
    ensures { IfOk result (λ tys. tys.items ≡ map (λ c. c.ty.ty) columns.now) }
{
    columns.iter().map(|column| column.ty.ty).collect(alloc)
}

// The key of an upsert sink; of one without a key no columns.
fn key_of(alloc: Global, sink: &TableDef) -> Result<Option<Cols>, Memory>
    ensures { IfOk result (λ key. key ≡ sink_key sink.now) }
{
    match (sink.mode, &sink.key) {
        (Declared::Append | Declared::Retract, _) => Ok(None),
        (Declared::Upsert, Some(key)) => Ok(Some(key.dup()?)),
        (Declared::Upsert, None) => Ok(Some(Cols::new(alloc))),
    }
}
