//! The tables of a plan.
ghost use Rattle.std.specs.Prelude.{◌≡◌, ◌∷◌, map, IfOk};
ghost use Rattle.std.specs.List.{list_all};
ghost use Rattle.ct_catalog.specs.Tables.{repeats};
ghost use Rattle.plan_shape.specs.Tables as t;
ghost use Rattle.ct_change.specs.Kinds.{is_upsert};

use ct_catalog::{ColDef, TableDef};
use ct_change::Declared;
use ct_field::is_type;
use ct_value::{Cols, List, Memory, Text};
use std::alloc::Global;
use std::collections::BTreeSet;

const MOST_COLUMNS: usize = 64;

/// Whether these are tables that may be declared, no two of one name.
pub(crate) fn are_tables(
    alloc: Global,
    sink: &TableDef,
    sources: &[TableDef],
) -> Result<bool, Memory>
    ensures { IfOk result (λ are. are ≡ t.are_tables (sink.now ∷ sources.now)) }
{
    if !is_declarable(alloc, sink)? {
        return Ok(false);
    }
    if !are_declarable(alloc, sources)? {
        return Ok(false);
    }
    let names = table_names(alloc, sink, sources)?;
    Ok(!repeats(alloc, names.as_slice())?)
}

fn are_declarable(alloc: Global, tables: &[TableDef]) -> Result<bool, Memory>
    ensures { IfOk result (λ are. are ≡ list_all t.is_declarable tables.now) }
{
    for table in tables {
        if !is_declarable(alloc, table)? {
            return Ok(false);
        }
    }
    Ok(true)
}

fn table_names(alloc: Global, sink: &TableDef, sources: &[TableDef]) -> Result<List<Text>, Memory>
    ensures { IfOk result (λ names. names ≡ map t.table_name (sink.now ∷ sources.now)) }
{
    let mut names = List::new(alloc);
    names.push(sink.name.dup()?)?;
    for table in sources {
        names.push(table.name.dup()?)?;
    }
    Ok(names)
}

// Whether a name stands twice.
fn repeats(alloc: Global, names: &[Text]) -> Result<bool, Memory>
    ensures { IfOk result (λ found. found ≡ repeats names.now) }
{
    let mut seen = BTreeSet::new(alloc);
    for name in names {
        if !seen.insert(name)? {
            return Ok(true);
        }
    }
    Ok(false)
}

// Whether a table may be declared.
fn is_declarable(alloc: Global, table: &TableDef) -> Result<bool, Memory>
    ensures { IfOk result (λ is. is ≡ t.is_declarable table.now) }
{
    if has_columns(alloc, table)? {
        Ok(key_fits(table.mode, table.cols.as_slice(), &table.key))
    } else {
        Ok(false)
    }
}

// Whether there are few enough columns, no two of one name, each of a type that columns have.
fn has_columns(alloc: Global, table: &TableDef) -> Result<bool, Memory>
    ensures { IfOk result (λ has. has ≡ t.has_columns table.now) }
{
    let cols = table.cols.as_slice();
    if cols.len() > MOST_COLUMNS {
        return Ok(false);
    }
    let names = column_names(alloc, cols)?;
    if repeats(alloc, names.as_slice())? {
        return Ok(false);
    }
    Ok(have_types(cols))
}

fn column_names(alloc: Global, cols: &[ColDef]) -> Result<List<Text>, Memory>
    ensures { IfOk result (λ names. names ≡ map t.column_name cols.now) }
{
    let mut names = List::new(alloc);
    for column in cols {
        names.push(column.name.dup()?)?;
    }
    Ok(names)
}

fn have_types(cols: &[ColDef]) -> bool
    ensures { result ≡ list_all t.has_type cols.now }
{
    cols.iter().all(|column| is_type(column.ty.ty))
}

fn key_fits(mode: Declared, cols: &[ColDef], key: &Option<Cols>) -> bool
    ensures { result ≡ t.key_fits mode cols.now key.now }
{
    match key {
        None => !is_upsert(mode),
        Some(key) => is_key(cols, key.as_slice()),
    }
}

/// Whether a table is declared as one of upserts.
pub(crate) fn is_upsert(mode: Declared) -> bool
    ensures { result ≡ is_upsert mode }
{
    match mode {
        Declared::Append | Declared::Retract => false,
        Declared::Upsert => true,
    }
}

fn is_key(cols: &[ColDef], key: &[u32]) -> bool
    ensures { result ≡ t.is_key cols.now key.now }
{
    are_required(cols, key) && rise(key)
}

fn are_required(cols: &[ColDef], key: &[u32]) -> bool
    ensures { result ≡ list_all (t.is_required cols.now) key.now }
{
    key.iter().all(|column| is_required(cols, *column))
}

// Whether a column is there, and NULL may not stand in it.
fn is_required(cols: &[ColDef], column: u32) -> bool
    ensures { result ≡ t.is_required cols.now column }
{
    match cols.get(column as usize) {
        None => false,
        Some(column) => !column.ty.nullable,
    }
}

// Whether each number is larger than the one before it.
fn rise(columns: &[u32]) -> bool
    ensures { result ≡ t.rise_from 0 columns.now }
{
    let mut low: u64 = 0;
    for column in columns {
        let column = *column as u64;
        if column < low {
            return false;
        }
        low = column + 1;
    }
    true
}
