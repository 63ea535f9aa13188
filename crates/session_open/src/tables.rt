ghost use Rattle.std.specs.Prelude.{◌≡◌, ◌<◌, ℕ, [], ◌∷◌, ◌++◌, List as Seq, All, cond, length, slice_get, Some, IfOk, OnOk};
ghost use Rattle.ct_catalog.specs.declared.table.TableDef.{TableDef as Table};
ghost use Rattle.ct_value.specs.declared.ty.ColTy.{ColTy};
ghost use Rattle.plan_rules.specs.Plans.{Doing, columns_from, network_of, scan_in, scan_of, spread_of};
ghost use Rattle.phys_plan.specs.Reading.{numbered};
ghost use Rattle.ct_catalog.specs.Columns.{column_types};
ghost use Rattle.stream_model.specs.Machine.{is_number};
ghost use Rattle.stream_model.specs.Runs.{counts_below};
ghost use Rattle.session_core.specs.LaidOut.{scans_below};
ghost use Rattle.session_core.specs.declared.wiring.TableWiring.{TableWiring as Kept};
ghost use Rattle.session_open.specs.Opening.{AreRoutable, IsKeyRoute, IsTableLaid};

use ct_catalog::TableDef;
use ct_value::{Cols, Memory};
use phys_plan::{Op, Plan};
use session_channels::KeyRoute;
use session_core::TableWiring;
use std::alloc::Global;

/// How the changes of each table of a plan are spread, and its scans.
pub(crate) fn tables_of(alloc: Global, plan: &Plan) -> Result<Vec<TableWiring>, Memory>
    requires few { length plan.now.nodes < 999 }
    requires spread { All (λ table. AreRoutable (column_types table) (spread_of table)) plan.now.sources }
    ensures many { IfOk result (λ tables. length tables.items ≡ length plan.now.sources) }
    ensures tables { IfOk result (λ tables. (number : ℕ) (kept : Kept) → slice_get tables.items number ≡ Some kept → (table : Table) → slice_get plan.now.sources number ≡ Some table → IsTableLaid plan.now number kept table) }
{
    let mut tables = Vec::new(alloc);
    for number in 0..plan.sources.len() {
        let spread = spread_by(alloc, &plan.sources.as_slice()[number])?;
        let scans = scans_of(alloc, plan, number)?;
        tables.push(TableWiring { spread, scans })?;
    }
    Ok(tables)
}

/// How many changes were taken of each table of a plan before the first: none.
pub(crate) fn counts_of(alloc: Global, plan: &Plan) -> Result<Vec<u32>, Memory>
    ensures { IfOk result (λ counts. counts.items ≡ counts_below (λ table. []) (length plan.now.sources)) }
{
    Ok(vec![in alloc; 0; plan.sources.len()]?)
}

// The columns by which a table's changes are spread.
fn spread_by(alloc: Global, table: &TableDef) -> Result<KeyRoute, Memory>
    requires { AreRoutable (column_types table.now) (spread_of table.now) }
    ensures { IfOk result (λ spread. IsKeyRoute (column_types table.now) (spread_of table.now) spread) }
{
    let columns = spread_columns(alloc, table)?;
    let types = table.types()?;
    Ok(KeyRoute { columns, types })
}

// The columns of a table's key, or all.
fn spread_columns(alloc: Global, table: &TableDef) -> Result<Cols, Memory>
    ensures { IfOk result (λ columns. columns ≡ spread_of table.now) }
{
    match &table.key {
        Some(key) => key.dup(),
        None => first_columns(alloc, table.cols.len()),
    }
}

// So many columns, from the first on.
fn first_columns(alloc: Global, count: usize) -> Result<Cols, Memory>
    ensures { IfOk result (λ columns. columns ≡ columns_from 0 count) }
{
    let Ok(count) = u32::try_from(count) else {
        return Err(Memory);
    };
    let mut columns = Cols::new(alloc);
    for column in 0..count {
        columns.push(column)?;
    }
    Ok(columns)
}

// The scans of a table.
fn scans_of(alloc: Global, plan: &Plan, table: usize) -> Result<Cols, Memory>
    requires { length plan.now.nodes < 999 }
    ensures { IfOk result (λ scans. (of : ℕ → Seq ColTy) (doing : ℕ → Doing) → scans ≡ scans_below (network_of of doing plan.now) table (length plan.now.nodes)) }
{
    let mut scans = Cols::new(alloc);
    for node in 0..plan.nodes.len() {
        push_if(&mut scans, node as u32, is_scan(plan, node, table))?;
    }
    Ok(scans)
}

// Puts a number behind the others, or not.
fn push_if(numbers: &mut Cols, number: u32, is: bool) -> Result<(), Memory>
    ensures { OnOk result (numbers.new ≡ cond is (numbers.old ++ number ∷ []) numbers.old) }
{
    if is {
        numbers.push(number)?;
    }
    Ok(())
}

// Whether the node of a number scans a table.
fn is_scan(plan: &Plan, number: usize, table: usize) -> bool
    ensures { result ≡ is_number table (scan_in (numbered plan.now.nodes number)) }
{
    if number == 0 {
        return false;
    }
    match plan.nodes.get(number - 1) {
        None => false,
        Some(node) => is_scan_of(&node.op, table),
    }
}

// Whether an operator scans a table.
fn is_scan_of(op: &Op, table: usize) -> bool
    ensures { result ≡ is_number table (scan_of op.now) }
{
    match op {
        Op::Scan { source } => *source as usize == table,
        _ => false,
    }
}
