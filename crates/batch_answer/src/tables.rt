//! Tables, and bags of rows to and fro.
ghost use Rattle.std.specs.Prelude.{◌≡◌, ◌<◌, [], IfOk, IsErrOf, slice_get, unwrap_or, Some};
ghost use Rattle.ct_value.specs.Bag as bag;
ghost use Rattle.batch_answer.specs.Tallies.{Unfit};

use crate::Tally;
use ct_change::{Bag, Steps};
use ct_expr::EvalFault;
use ct_value::{ColTys, List, Memory};
use std::alloc::Global;
use std::marker::Brand;
use std::sync::ledger::{Blank, Ledger};

/// The rows of tables in order.
pub type Bags = List<Bag>;

/// The columns of tables in order.
pub type TypeLists = List<ColTys>;

/// The columns of a table, none where there is no such table.
pub(crate) fn table_columns(alloc: Global, types: &TypeLists, source: u32) -> Result<ColTys, Memory>
    ensures { IfOk result (λ columns. columns ≡ unwrap_or (slice_get types.now source) []) }
{
    match types.get(source as usize) {
        None => Ok(ColTys::new(alloc)),
        Some(columns) => columns.dup(),
    }
}

/// The rows of a table, none where there is no such table.
pub(crate) fn table_rows(alloc: Global, tables: &Bags, source: u32) -> Result<Tally, EvalFault>
    ensures value { IfOk result (λ rows. rows ≡ unwrap_or (slice_get tables.now source) bag.none) }
    ensures out { IsErrOf result EvalFault.Out → Unfit (Some (unwrap_or (slice_get tables.now source) bag.none)) }
{
    match tables.get(source as usize) {
        None => Ok(Tally::new(alloc)),
        Some(rows) => tally_of::<Brand>(alloc, rows, Blank::new(1)),
    }
}

// The rows of a bag. Nobody reads how many steps that takes.
fn tally_of<L: Ledger>(alloc: Global, rows: &Bag, blank: Blank) -> Result<Tally, EvalFault>
    requires name { blank.name ≡ L.name }
    requires parts { blank.parts ≡ L.parts }
    requires some { 0 < L.parts }
    ensures value { IfOk result (λ tally. tally ≡ rows.now) }
    ensures out { IsErrOf result EvalFault.Out → Unfit (Some rows.now) }
{
    let mut steps = Steps::<L>::new(blank);
    let mut tally = Tally::new(alloc);
    let mut left = rows.rows();
    'runs: while let Some((row, count)) = left.next_row(&mut steps) {
        let copy = row.dup()?;
        tally.add(copy, count)?;
    }
    Ok(tally)
}

/// The same rows as a bag.
pub(crate) fn bag_of(alloc: Global, rows: Tally) -> Result<Bag, Memory>
    ensures { IfOk result (λ made. made ≡ rows) }
{
    let mut made = Bag::new(alloc);
    for (row, count) in rows.into_counts() {
        made.add_many(row, count)?;
    }
    Ok(made)
}
