ghost use Rattle.std.specs.Prelude.{◌≡◌, ◌+◌, ◌-◌, ◌<◌, ◌≤◌, ◌^◌, ◌⊎◌, ◌||◌, [], length, drop, slice_index_or, unwrap_or, true, cond, Some, None, Ok, Err, IfOk, IsErrOf};
ghost use Rattle.csv.specs.Records.{fields_of};
ghost use Rattle.ct_value.specs.declared.codes.ChangeCode.{ChangeCode};
ghost use Rattle.ct_value.specs.declared.codes.ChangeCode.TheVariants.{BadField};
ghost use Rattle.job_text.specs.declared.line.LineFault.TheVariants.{Change as Refused};
ghost use Rattle.ct_catalog.specs.Columns.{table_mode};
ghost use Rattle.stream_model.specs.KeysTold.{told_key};
ghost use Rattle.job_text.specs.Lines.{change_of, feed_line, is_field_count, key_cell, key_fields, key_told, key_values, kind_of, line_in, line_of, row_values, spelled, values_from};

use crate::named::NamedSources;
use csv::ByteRecord;
use ct_catalog::{ColDef, TableDef};
use ct_change::{Change, Declared, Kind, among};
use ct_field::{FieldFault, is_type, read_field};
use ct_value::{ChangeCode, Memory, Row, Ty, Value, Values};
use std::alloc::Global;

/// A change line: its source, by the place among the sources from 0, and its change.
#[derive(Debug, Drop)]
pub struct Line {
    pub table: u32,
    pub change: Change,
}

/// Why a line isn't read.
#[derive(Clone, Copy, Debug, PartialEq, Eq)]
pub enum LineFault {
    /// Its record is refused by FieldCount, UnknownTable, BadKind, KindNotDeclared or BadField.
    Change(ChangeCode),
    Memory,
}

impl From<Memory> for LineFault {
    ghost use Rattle.std.specs.Prelude.{◌≡◌};
    ghost use Rattle.job_text.specs.declared.line.LineFault.TheVariants.{Memory};

    ghost from_gives = { λ _ fault. fault ≡ Memory };

    fn from(_: Memory) -> Self {
        LineFault::Memory
    }
}

/// The line that a record is, in a file whose lines are all of the source of one place, or each name theirs.
pub(crate) fn line_in(
    alloc: Global,
    sources: &NamedSources<'_>,
    feed: Option<u32>,
    fields: &ByteRecord,
) -> Result<Line, LineFault>
    ensures line { IfOk result (λ line. line_in sources.now feed (fields_of fields.now) ≡ Ok line) }
    ensures refused { (code : ChangeCode) → IsErrOf result (Refused code) → line_in sources.now feed (fields_of fields.now) ≡ Err code }
{
    match feed {
        None => line_of(alloc, sources, fields),
        Some(place) => feed_line(alloc, sources.as_slice(), place, fields),
    }
}

// The line that a record is behind a source's name.
fn line_of(
    alloc: Global,
    sources: &NamedSources<'_>,
    fields: &ByteRecord,
) -> Result<Line, LineFault>
    ensures line { IfOk result (λ line. line_of sources.now (fields_of fields.now) ≡ Ok line) }
    ensures refused { (code : ChangeCode) → IsErrOf result (Refused code) → line_of sources.now (fields_of fields.now) ≡ Err code }
{
    if fields.len() < 2 {
        return Err(LineFault::Change(ChangeCode::FieldCount));
    }
    let Some((place, source)) = sources.find(field(fields, 0)) else {
        return Err(LineFault::Change(ChangeCode::UnknownTable));
    };
    let Ok(table) = u32::try_from(place) else {
        return Err(LineFault::Memory);
    };
    let change = change_of(alloc, source, fields, 1)?;
    Ok(Line { table, change })
}

// The line of the source of a place that a record is.
fn feed_line(
    alloc: Global,
    sources: &[TableDef],
    place: u32,
    fields: &ByteRecord,
) -> Result<Line, LineFault>
    ensures line { IfOk result (λ line. feed_line sources.now place (fields_of fields.now) ≡ Ok line) }
    ensures refused { (code : ChangeCode) → IsErrOf result (Refused code) → feed_line sources.now place (fields_of fields.now) ≡ Err code }
{
    if fields.is_empty() {
        return Err(LineFault::Change(ChangeCode::FieldCount));
    }
    let Some(source) = sources.get(place as usize) else {
        return Err(LineFault::Change(ChangeCode::UnknownTable));
    };
    let change = change_of(alloc, source, fields, 0)?;
    Ok(Line {
        table: place,
        change,
    })
}

// The change of a table that a record is from its kind on, whatever stands before that.
fn change_of(
    alloc: Global,
    table: &TableDef,
    fields: &ByteRecord,
    kind_at: usize,
) -> Result<Change, LineFault>
    requires early { kind_at ≤ 1 }
    requires there { kind_at < length (fields_of fields.now) }
    ensures change { IfOk result (λ change. change_of table.now (slice_index_or (fields_of fields.now) kind_at []) (drop (kind_at + 1) (fields_of fields.now)) ≡ Ok change) }
    ensures refused { (code : ChangeCode) → IsErrOf result (Refused code) → change_of table.now (slice_index_or (fields_of fields.now) kind_at []) (drop (kind_at + 1) (fields_of fields.now)) ≡ Err code }
{
    let kind = kind_of(field(fields, kind_at));
    let by_key = is_keyed(table, kind);
    let first = kind_at + 1;
    if !is_field_count(table, by_key, fields.len() - first) {
        return Err(LineFault::Change(ChangeCode::FieldCount));
    }
    let Some(kind) = kind else {
        return Err(LineFault::Change(ChangeCode::BadKind));
    };
    if !table.mode.admits(kind) {
        return Err(LineFault::Change(ChangeCode::KindNotDeclared));
    }
    let row = told_row(alloc, table, by_key, fields, first)?;
    Ok(Change::new(kind, row))
}

/// Whether a change of this kind tells the table's key alone: it is a `-D` of an upsert table.
pub fn tells_key(table: &TableDef, kind: Kind) -> bool
    ensures { told_key (table_mode table.now) kind ≡ cond result (Some (unwrap_or table.now.key [])) None }
{
    match table.mode {
        Declared::Append | Declared::Retract => false,
        Declared::Upsert => kind == Kind::D,
    }
}

/// The columns of a table's key, none where it has no key.
pub fn key_columns(table: &TableDef) -> &[u32]
    ensures { result.now ≡ unwrap_or table.now.key [] }
{
    match &table.key {
        Some(key) => key.as_slice(),
        None => &[],
    }
}

// Whether a record of this kind tells the table's key alone.
fn is_keyed(table: &TableDef, kind: Option<Kind>) -> bool
    ensures { key_told table.now kind ≡ cond result (Some (unwrap_or table.now.key [])) None }
{
    match kind {
        Some(kind) => tells_key(table, kind),
        None => false,
    }
}

// Whether so many fields are one for each column, or for each of the key where that is told alone.
fn is_field_count(table: &TableDef, is_keyed: bool, count: usize) -> bool
    ensures { result ≡ is_field_count table.now (cond is_keyed (Some (unwrap_or table.now.key [])) None) count }
{
    if count == table.cols.len() {
        return true;
    }
    is_keyed && count == key_columns(table).len()
}

// The row that the fields from a place on spell.
fn told_row(
    alloc: Global,
    table: &TableDef,
    is_keyed: bool,
    fields: &ByteRecord,
    first: usize,
) -> Result<Row, LineFault>
    requires early { first ≤ 2 }
    requires within { first ≤ length (fields_of fields.now) }
    requires counted { is_field_count table.now (cond is_keyed (Some (unwrap_or table.now.key [])) None) (length (fields_of fields.now) - first) ≡ true }
    ensures row { IfOk result (λ row. row_values table.now (cond is_keyed (Some (unwrap_or table.now.key [])) None) (drop first (fields_of fields.now)) ≡ Ok row) }
    ensures refused { (code : ChangeCode) → IsErrOf result (Refused code) → row_values table.now (cond is_keyed (Some (unwrap_or table.now.key [])) None) (drop first (fields_of fields.now)) ≡ Err code }
{
    if is_keyed {
        key_row_of(
            alloc,
            table.cols.as_slice(),
            key_columns(table),
            fields,
            first,
        )
    } else {
        row_of(alloc, table.cols.as_slice(), fields, first)
    }
}

fn kind_of(word: &[u8]) -> Option<Kind>
    ensures { result ≡ kind_of word.now }
{
    if word == b"+I".as_slice() {
        return Some(Kind::I);
    }
    if word == b"-U".as_slice() {
        return Some(Kind::UB);
    }
    if word == b"+U".as_slice() {
        return Some(Kind::UA);
    }
    if word == b"-D".as_slice() {
        return Some(Kind::D);
    }
    None
}

// The values that the fields from a place on spell.
#[tactic(auto, using(crate::proofs::Values::left_after, crate::proofs::Values::left_refused, crate::proofs::Values::left_none, crate::proofs::Values::left_from_first))]
fn row_of(
    alloc: Global,
    cols: &[ColDef],
    fields: &ByteRecord,
    first: usize,
) -> Result<Row, LineFault>
    requires early { first ≤ 2 }
    requires counted { length (fields_of fields.now) ≡ length cols.now + first }
    ensures row { IfOk result (λ row. values_from 1 cols.now (drop first (fields_of fields.now)) ≡ Ok row) }
    ensures refused { (code : ChangeCode) → IsErrOf result (Refused code) → values_from 1 cols.now (drop first (fields_of fields.now)) ≡ Err code }
{
    let mut values = Values::with_capacity(alloc, cols.len())?;
    for i in 0..cols.len() {
        match spelled(alloc, cols[i].ty.ty, field(fields, i + first)) {
            Ok(value) => values.push(value)?,
            Err(FieldFault::BadField) => return Err(bad_field(i)),
            Err(FieldFault::Memory) => return Err(LineFault::Memory),
        }
    }
    Ok(Row::from_values(values))
}

// The key row that the key's fields spell, which stand from a place on.
fn key_row_of(
    alloc: Global,
    cols: &[ColDef],
    key: &[u32],
    fields: &ByteRecord,
    first: usize,
) -> Result<Row, LineFault>
    requires early { first ≤ 2 }
    requires within { first ≤ length (fields_of fields.now) }
    ensures row { IfOk result (λ row. key_values key.now 0 cols.now (key_fields key.now (length cols.now) (drop first (fields_of fields.now))) ≡ Ok row) }
    ensures refused { (code : ChangeCode) → IsErrOf result (Refused code) → key_values key.now 0 cols.now (key_fields key.now (length cols.now) (drop first (fields_of fields.now))) ≡ Err code }
{
    let in_key = among(alloc, cols.len(), key)?;
    let whole = fields.len() - first == cols.len();
    let mut values = Values::with_capacity(alloc, cols.len())?;
    let mut place = first;
    'column: for i in 0..cols.len() {
        let is_key = in_key[i];
        let value = key_value(alloc, cols[i].ty.ty, is_key, field(fields, place), i)?;
        values.push(value)?;
        place = place_behind(place, is_key, whole);
    }
    Ok(Row::from_values(values))
}

// The value of a column in a key row, counted from 0.
fn key_value(
    alloc: Global,
    ty: Ty,
    is_key: bool,
    field: &[u8],
    column: usize,
) -> Result<Value, LineFault>
    ensures value { IfOk result (λ value. key_cell is_key ty field.now ≡ Some value) }
    ensures refused { (code : ChangeCode) → IsErrOf result (Refused code) → (key_cell is_key ty field.now ≡ None) × (code ≡ BadField (column + 1)) }
{
    if !is_key {
        return Ok(Value::Null);
    }
    match spelled(alloc, ty, field) {
        Ok(value) => Ok(value),
        Err(FieldFault::BadField) => Err(bad_field(column)),
        Err(FieldFault::Memory) => Err(LineFault::Memory),
    }
}

// The place of the field behind that of a column: where there is a field for each column, each has one, else those of the key.
fn place_behind(place: usize, is_key: bool, whole: bool) -> usize
    requires { place + 1 < 2 ^ 64 }
    ensures { result ≡ cond (is_key || whole) (place + 1) place }
{
    if is_key || whole { place + 1 } else { place }
}

// The refusal of the field of a column, counted from 0.
fn bad_field(column: usize) -> LineFault
    ensures { (result ≡ LineFault.Memory) ⊎ (result ≡ Refused (BadField (column + 1))) }
{
    match u32::try_from(column) {
        Ok(column) if column < u32::MAX => LineFault::Change(ChangeCode::BadField(column + 1)),
        _ => LineFault::Memory,
    }
}

// The value that a field spells in a column of this type.
fn spelled(alloc: Global, ty: Ty, field: &[u8]) -> Result<Value, FieldFault>
    ensures value { IfOk result (λ value. spelled ty field.now ≡ Some value) }
    ensures bad_field { IsErrOf result FieldFault.BadField → spelled ty field.now ≡ None }
{
    if !is_type(ty) {
        return Err(FieldFault::BadField);
    }
    read_field(alloc, ty, field)
}

// The field at a place, from 0, and an empty one past the last.
#[tactic(auto, using(crate::proofs::Values::field_there, crate::proofs::Values::field_past))]
fn field(fields: &ByteRecord, place: usize) -> &[u8]
    ensures { result.now ≡ slice_index_or (fields_of fields.now) place [] }
{
    match fields.get(place) {
        Some(field) => field,
        None => &[],
    }
}
