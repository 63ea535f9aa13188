ghost use Rattle.std.specs.Prelude.{◌≡◌, map, option_map, unwrap_or, [], Some, IfOk};
ghost use Rattle.ct_change.specs.KeyRows as k;
ghost use Rattle.ct_expr.specs.View.{expr_view, exprs_view};
ghost use Rattle.rel_algebra.specs.Items as i;
ghost use Rattle.column_sets.specs.Places as c;
ghost use Rattle.emission_rules.specs.Project as p;
ghost use Rattle.op_row.specs.Gone.{TellsGone, key_of};

use column_sets::image;
use ct_change::key_row;
use ct_expr::{Expr, Exprs};
use ct_value::{Cols, List, Memory, Row, Value, Values};
use std::alloc::Global;

// How it is told that a row of a key went: the columns that the items hand on, and the key's image.
#[derive(Drop)]
pub(crate) struct Gone {
    pub(crate) key: Cols,
    pub(crate) handed: List<Option<u32>>,
    pub(crate) places: Cols,
}

impl Gone {
    // The row by which it is told that this row went.
    pub(crate) fn row(&self, alloc: Global, row: &Row) -> Result<Row, Memory>
        ensures { IfOk result (λ made. made ≡ k.key_row self.now.places (map (p.value_handed row.now) self.now.handed)) }
    {
        let plain = plain_row(alloc, self.handed.as_slice(), row)?;
        key_row(alloc, &plain, &self.places)
    }
}

// How these items tell it over an edge that is after-only by a key, if it is.
pub(crate) fn gone_by(
    alloc: Global,
    items: &Exprs,
    after: Option<Cols>,
) -> Result<Option<Gone>, Memory>
    ensures key { IfOk result (λ gone. option_map key_of gone ≡ after) }
    ensures tells { IfOk result (λ gone. TellsGone (exprs_view items.now) gone) }
{
    match after {
        None => Ok(None),
        Some(key) => Ok(Some(of_key(alloc, items, key)?)),
    }
}

fn of_key(alloc: Global, items: &Exprs, key: Cols) -> Result<Gone, Memory>
    ensures key { IfOk result (λ gone. gone.key ≡ key) }
    ensures handed { IfOk result (λ gone. gone.handed ≡ p.handed (exprs_view items.now)) }
    ensures places { IfOk result (λ gone. gone.places ≡ p.image_of (exprs_view items.now) key) }
{
    let handed = handed_by(alloc, items.as_slice())?;
    let places = places_of(alloc, handed.as_slice(), &key)?;
    Ok(Gone {
        key,
        handed,
        places,
    })
}

// The image of a key; no columns, where one of its columns isn't handed on.
fn places_of(alloc: Global, handed: &[Option<u32>], key: &Cols) -> Result<Cols, Memory>
    ensures { IfOk result (λ places. places ≡ unwrap_or (c.image handed.now key.now) []) }
{
    match image(alloc, handed, key)? {
        None => Ok(Cols::new(alloc)),
        Some(places) => Ok(places),
    }
}

// Of each item the column that it hands on, if it is a plain column.
fn handed_by(alloc: Global, items: &[Expr]) -> Result<List<Option<u32>>, Memory>
    ensures { IfOk result (λ handed. handed ≡ p.handed (exprs_view items.now)) }
{
    let mut handed = List::new(alloc);
    for item in items {
        handed.push(plain_column(item))?;
    }
    Ok(handed)
}

#[tactic(auto, unfolding(ct_expr::specs::View::expr_view))]
fn plain_column(item: &Expr) -> Option<u32>
    ensures { result ≡ i.plain_column (expr_view item.now) }
{
    match item {
        Expr::Column { col, .. } => Some(*col),
        _ => None,
    }
}

// The values of the columns that are handed on, NULL at every other item.
fn plain_row(alloc: Global, handed: &[Option<u32>], row: &Row) -> Result<Row, Memory>
    ensures { IfOk result (λ made. made ≡ map (p.value_handed row.now) handed.now) }
{
    let mut values = Values::with_capacity(alloc, handed.len())?;
    for column in handed {
        values.push(value_handed(row, *column)?)?;
    }
    Ok(Row::from_values(values))
}

fn value_handed(row: &Row, column: Option<u32>) -> Result<Value, Memory>
    ensures { IfOk result (λ value. value ≡ p.value_handed row.now column) }
{
    match column {
        None => Ok(Value::Null),
        Some(column) => value_at(row.as_slice(), column),
    }
}

// The value of a column, NULL where there is no such column.
fn value_at(row: &[Value], column: u32) -> Result<Value, Memory>
    ensures { IfOk result (λ value. value ≡ p.value_handed row.now (Some column)) }
{
    match row.get(column as usize) {
        None => Ok(Value::Null),
        Some(value) => value.dup(),
    }
}
