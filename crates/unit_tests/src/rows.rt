ghost use Rattle.std.specs.Prelude.{◌≡◌, length, IfOk};

use ct_value::{Memory, Row, Text, Value, Values};
use std::alloc::Global;

/// The row of one text.
pub fn row(alloc: Global, word: &str) -> Result<Row, Memory>
    ensures { IfOk result (λ row. length row ≡ 1) }
{
    let text = Text::from_str(alloc, word)?;
    let mut values = Values::new(alloc);
    values.push(Value::Text(text))?;
    Ok(Row::from_values(values))
}
