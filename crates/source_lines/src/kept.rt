ghost use Rattle.std.specs.Prelude.{◌≡◌, ◌+◌, ◌<◌, ◌^◌, ◌⊎◌, ◌≢◌, List, length, Some, None, true, false, OnOk, OnErr, IfOk, IsErrOf, option_copied};
ghost use Rattle.std.specs.FinMap as map;
ghost use Rattle.ct_value.specs.Bag.{copies, none};
ghost use Rattle.ct_value.specs.Rows.{project};
ghost use Rattle.ct_value.specs.declared.codes.ChangeCode.{ChangeCode};
ghost use Rattle.ct_value.specs.declared.row.Row.{Row};
ghost use Rattle.ct_field.specs.Typed.{cell};
ghost use Rattle.ct_change.specs.Changelog.{Rows, adds, admits, apply, fold, retract};
ghost use Rattle.ct_change.specs.declared.change.Change.{Change};
ghost use Rattle.stream_model.specs.Tables.{refusal, row_refusal};
ghost use Rattle.ct_catalog.specs.Columns.{table_mode};
ghost use Rattle.source_lines.specs.Kept.{HasRoom, IsKept, IsWhole, is_row, key_of, keyed_after, keyed_refusal, rows_refusal, taker_of};
ghost use Rattle.source_lines.specs.declared.refusals.SourceFault.TheVariants.{Refused};

use crate::keyed_rows::KeyedRows;
use crate::refusals::{SourceFault, check_nulls};
use ct_catalog::TableDef;
use ct_change::{Bag, Change, Declared};
use ct_value::{ChangeCode, Cols, Memory, Row, Value, Values};
use std::alloc::Global;

/// What is kept of the rows of a source.
#[derive(Drop)]
pub(crate) enum Kept {
    Nothing,
    Rows(Bag),
    Keyed(KeyedRows),
}

// What has to be kept of a table so that its refusals are seen, where no row stands.
#[tactic(auto, using(ct_change::proofs::laws::Lasts::last_none))]
pub(crate) fn kept_for_refusals(alloc: Global, table: &TableDef) -> Kept
    ensures { IsKept table.now result none }
{
    match (table.mode, &table.key) {
        (Declared::Append, None) => Kept::Nothing,
        (Declared::Append, Some(_)) => Kept::Keyed(KeyedRows::new(alloc)),
        (Declared::Retract, None) => Kept::Rows(Bag::new(alloc)),
        (Declared::Retract, Some(_)) => Kept::Keyed(KeyedRows::new(alloc)),
        (Declared::Upsert, _) => Kept::Nothing,
    }
}

// What has to be kept of a table so that its rows are known, where no row stands.
#[tactic(auto, using(ct_change::proofs::laws::Lasts::last_none))]
pub(crate) fn kept_for_rows(alloc: Global, table: &TableDef) -> Kept
    ensures kept { IsKept table.now result none }
    ensures whole { IsWhole result }
{
    match (table.mode, &table.key) {
        (Declared::Append, None) => Kept::Rows(Bag::new(alloc)),
        (Declared::Append, Some(_)) => Kept::Keyed(KeyedRows::new(alloc)),
        (Declared::Retract, None) => Kept::Rows(Bag::new(alloc)),
        (Declared::Retract, Some(_)) => Kept::Keyed(KeyedRows::new(alloc)),
        (Declared::Upsert, _) => Kept::Keyed(KeyedRows::new(alloc)),
    }
}

// Takes a change, unless it is refused by its kind, its values or the rows that stand.
#[tactic(auto, using(crate::proofs::Takes::room_left, crate::proofs::Takes::by_rows))]
pub(crate) fn take(table: &TableDef, kept: &mut Kept, change: &Change) -> Result<(), SourceFault>
    requires { (changes : List Change) × IsKept table.now kept.old (fold (table_mode table.now) changes) × (length changes + 1 < 2 ^ 64) }
    ensures ok { OnOk result ((rows : Rows) → IsKept table.now kept.old rows → (refusal (taker_of table.now) rows change.now ≡ None) × IsKept table.now kept.new (apply (table_mode table.now) rows change.now)) }
    ensures refused { (code : ChangeCode) → IsErrOf result (Refused code) → (rows : Rows) → IsKept table.now kept.old rows → refusal (taker_of table.now) rows change.now ≡ Some code }
    ensures err { OnErr result (kept.new ≡ kept.old) }
    ensures whole { IsWhole kept.old → IsWhole kept.new }
{
    if !table.mode.admits(change.kind) {
        return Err(SourceFault::Refused(ChangeCode::KindNotDeclared));
    }
    check_nulls(table, change)?;
    take_kept(table, kept, change)
}

/// The same of a change that is nobody else's, whose row it may keep.
#[tactic(auto, using(crate::proofs::Takes::room_left, crate::proofs::Takes::by_rows))]
pub(crate) fn take_own(table: &TableDef, kept: &mut Kept, change: Change) -> Result<(), SourceFault>
    requires { (changes : List Change) × IsKept table.now kept.old (fold (table_mode table.now) changes) × (length changes + 1 < 2 ^ 64) }
    ensures ok { OnOk result ((rows : Rows) → IsKept table.now kept.old rows → (refusal (taker_of table.now) rows change ≡ None) × IsKept table.now kept.new (apply (table_mode table.now) rows change)) }
    ensures refused { (code : ChangeCode) → IsErrOf result (Refused code) → (rows : Rows) → IsKept table.now kept.old rows → refusal (taker_of table.now) rows change ≡ Some code }
    ensures err { OnErr result (kept.new ≡ kept.old) }
    ensures whole { IsWhole kept.old → IsWhole kept.new }
{
    if !table.mode.admits(change.kind) {
        return Err(SourceFault::Refused(ChangeCode::KindNotDeclared));
    }
    check_nulls(table, &change)?;
    keep_own(table, kept, change)
}

// Takes a change that the table takes by its kind.
fn take_kept(table: &TableDef, kept: &mut Kept, change: &Change) -> Result<(), SourceFault>
    requires admitted { admits (table_mode table.now) change.now.kind ≡ true }
    requires room { HasRoom kept.old }
    ensures ok { OnOk result ((rows : Rows) → IsKept table.now kept.old rows → (rows_refusal table.now rows change.now ≡ None) × IsKept table.now kept.new (apply (table_mode table.now) rows change.now)) }
    ensures refused { (code : ChangeCode) → IsErrOf result (Refused code) → (rows : Rows) → IsKept table.now kept.old rows → rows_refusal table.now rows change.now ≡ Some code }
    ensures err { OnErr result (kept.new ≡ kept.old) }
    ensures whole { IsWhole kept.old → IsWhole kept.new }
{
    match kept {
        Kept::Nothing => Ok(()),
        Kept::Rows(rows) => take_row(rows, change),
        Kept::Keyed(rows) => take_keyed(table, rows, change),
    }
}

// The same of a change that is nobody else's.
fn keep_own(table: &TableDef, kept: &mut Kept, change: Change) -> Result<(), SourceFault>
    requires admitted { admits (table_mode table.now) change.kind ≡ true }
    requires room { HasRoom kept.old }
    ensures ok { OnOk result ((rows : Rows) → IsKept table.now kept.old rows → (rows_refusal table.now rows change ≡ None) × IsKept table.now kept.new (apply (table_mode table.now) rows change)) }
    ensures refused { (code : ChangeCode) → IsErrOf result (Refused code) → (rows : Rows) → IsKept table.now kept.old rows → rows_refusal table.now rows change ≡ Some code }
    ensures err { OnErr result (kept.new ≡ kept.old) }
    ensures whole { IsWhole kept.old → IsWhole kept.new }
{
    match kept {
        Kept::Nothing => Ok(()),
        Kept::Rows(rows) => take_row(rows, &change),
        Kept::Keyed(rows) => take_keyed_own(table, rows, change),
    }
}

// Takes a change of a table without a key.
fn take_row(rows: &mut Bag, change: &Change) -> Result<(), SourceFault>
    requires { copies rows.old change.now.row + 1 < 2 ^ 64 }
    ensures ok { OnOk result ((row_refusal retract rows.old change.now ≡ None) × (rows.new ≡ apply retract rows.old change.now)) }
    ensures refused { (code : ChangeCode) → IsErrOf result (Refused code) → row_refusal retract rows.old change.now ≡ Some code }
    ensures err { OnErr result (rows.new ≡ rows.old) }
{
    if change.kind.is_addition() {
        rows.add_copy(&change.row)?;
        return Ok(());
    }
    if rows.count(&change.row) == 0 {
        return Err(SourceFault::Refused(ChangeCode::RowAbsent));
    }
    rows.remove(&change.row);
    Ok(())
}

// Takes a change of a table with a key.
fn take_keyed(table: &TableDef, rows: &mut KeyedRows, change: &Change) -> Result<(), SourceFault>
    ensures ok { OnOk result (rows.new ≡ keyed_after rows.old (project (key_of table.now) change.now.row) change.now) }
    ensures taken { OnOk result (table.now.mode ≡ Declared.Upsert ⊎ (keyed_refusal (map.get rows.old (project (key_of table.now) change.now.row)) change.now ≡ None)) }
    ensures refused { (code : ChangeCode) → IsErrOf result (Refused code) → (table.now.mode ≢ Declared.Upsert) × (keyed_refusal (map.get rows.old (project (key_of table.now) change.now.row)) change.now ≡ Some code) }
    ensures err { OnErr result (rows.new ≡ rows.old) }
{
    let key = key_row(rows.alloc(), table, &change.row)?;
    if table.mode == Declared::Upsert {
        put(rows, key, change)?;
        return Ok(());
    }
    if change.kind.is_addition() {
        return add_new(rows, key, change);
    }
    let_go(rows, &key, change)
}

// The same of a change that is nobody else's: the row that an upsert table then has is its own.
fn take_keyed_own(table: &TableDef, rows: &mut KeyedRows, change: Change) -> Result<(), SourceFault>
    ensures ok { OnOk result (rows.new ≡ keyed_after rows.old (project (key_of table.now) change.row) change) }
    ensures taken { OnOk result (table.now.mode ≡ Declared.Upsert ⊎ (keyed_refusal (map.get rows.old (project (key_of table.now) change.row)) change ≡ None)) }
    ensures refused { (code : ChangeCode) → IsErrOf result (Refused code) → (table.now.mode ≢ Declared.Upsert) × (keyed_refusal (map.get rows.old (project (key_of table.now) change.row)) change ≡ Some code) }
    ensures err { OnErr result (rows.new ≡ rows.old) }
{
    if table.mode != Declared::Upsert || !change.kind.is_addition() {
        return take_keyed(table, rows, &change);
    }
    let key = key_row(rows.alloc(), table, &change.row)?;
    let Change { row, .. } = change;
    rows.set(key, row)?;
    Ok(())
}

// The values of a row in the table's key.
fn key_row(alloc: Global, table: &TableDef, row: &Row) -> Result<Row, Memory>
    ensures { IfOk result (λ key. key ≡ project (key_of table.now) row.now) }
{
    match &table.key {
        Some(cols) => project(alloc, cols, row),
        None => row.prefix(0),
    }
}

// The values of a row in these columns, and NULL in one past its end.
fn project(alloc: Global, cols: &Cols, row: &Row) -> Result<Row, Memory>
    ensures { IfOk result (λ key. key ≡ project cols.now row.now) }
{
    let mut values = Values::with_capacity(alloc, cols.len())?;
    for col in cols.as_slice() {
        values.push(cell(row, *col)?)?;
    }
    Ok(Row::from_values(values))
}

// The value of a column, and NULL past the end.
#[tactic(auto, using(crate::proofs::Nulls::cell_there, crate::proofs::Nulls::cell_past))]
fn cell(row: &Row, column: u32) -> Result<Value, Memory>
    ensures { IfOk result (λ value. value ≡ cell column row.now) }
{
    match row.get(column as usize) {
        Some(value) => value.dup(),
        None => Ok(Value::Null),
    }
}

// Adds a row under its key, and refuses it where the key has one.
fn add_new(rows: &mut KeyedRows, key: Row, change: &Change) -> Result<(), SourceFault>
    requires { adds change.now.kind ≡ true }
    ensures ok { OnOk result (rows.new ≡ keyed_after rows.old key change.now) }
    ensures taken { OnOk result (keyed_refusal (map.get rows.old key) change.now ≡ None) }
    ensures refused { (code : ChangeCode) → IsErrOf result (Refused code) → keyed_refusal (map.get rows.old key) change.now ≡ Some code }
    ensures err { OnErr result (rows.new ≡ rows.old) }
{
    if rows.set_new(key, change.row.dup()?)? {
        Ok(())
    } else {
        Err(SourceFault::Refused(ChangeCode::KeyPresent))
    }
}

// Lets a row under its key go, and refuses that where it doesn't stand.
fn let_go(rows: &mut KeyedRows, key: &Row, change: &Change) -> Result<(), SourceFault>
    requires { adds change.now.kind ≡ false }
    ensures ok { OnOk result (rows.new ≡ keyed_after rows.old key.now change.now) }
    ensures taken { OnOk result (keyed_refusal (map.get rows.old key.now) change.now ≡ None) }
    ensures refused { (code : ChangeCode) → IsErrOf result (Refused code) → keyed_refusal (map.get rows.old key.now) change.now ≡ Some code }
    ensures err { OnErr result (rows.new ≡ rows.old) }
{
    if !is_row(rows.get(key), &change.row) {
        return Err(SourceFault::Refused(ChangeCode::RowAbsent));
    }
    rows.remove(key);
    Ok(())
}

fn is_row(old: Option<&Row>, row: &Row) -> bool
    ensures { result ≡ is_row (option_copied old.entry) row.now }
{
    match old {
        Some(old) => *row == *old,
        None => false,
    }
}

// Sets the row of a key, or lets it go.
fn put(rows: &mut KeyedRows, key: Row, change: &Change) -> Result<(), Memory>
    ensures ok { OnOk result (rows.new ≡ keyed_after rows.old key change.now) }
    ensures err { OnErr result (rows.new ≡ rows.old) }
{
    if change.kind.is_addition() {
        rows.set(key, change.row.dup()?)?;
    } else {
        rows.remove(&key);
    }
    Ok(())
}
