ghost use Rattle.std.specs.Prelude.{◌≡◌, ℕ, ◌<◌, false, cond, length, get_or, IfOk};
ghost use Rattle.ct_value.specs.declared.value.Value.TheVariants.{Null};
ghost use Rattle.ct_change.specs.KeyRows as k;

use ct_value::{Cols, Memory, Row, Value, Values};
use std::alloc::Global;

/// The key row of a row: its values in the columns of a key, and NULL in every other column. Columns that the row doesn't have
/// count as none.
pub fn key_row(alloc: Global, row: &Row, key: &Cols) -> Result<Row, Memory>
    ensures { IfOk result (λ made. made ≡ k.key_row key.now row.now) }
{
    let among = among(alloc, row.len(), key.as_slice())?;
    let cells = row.as_slice();
    let mut values = Values::with_capacity(alloc, cells.len())?;
    'cell: while values.len() < cells.len() {
        let column = values.len();
        values.push(kept(&cells[column], among[column])?)?;
    }
    Ok(Row::from_values(values))
}

// A value of the key, and NULL for another.
fn kept(cell: &Value, among: bool) -> Result<Value, Memory>
    ensures { IfOk result (λ value. value ≡ cond among cell.now Null) }
{
    if among { cell.dup() } else { Ok(Value::Null) }
}

/// Of so many columns, which are a key's.
pub fn among(alloc: Global, count: usize, key: &[u32]) -> Result<Vec<bool>, Memory>
    ensures len { IfOk result (λ among. length among.items ≡ count) }
    ensures told { IfOk result (λ among. (column : ℕ) → column < count → get_or among.items column false ≡ k.is_among key.now column) }
{
    let mut among = vec![in alloc; false; count]?;
    for column in key {
        let place = *column as usize;
        if place < count {
            among[place] = true;
        }
    }
    Ok(among)
}
