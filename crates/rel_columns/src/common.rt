//! The columns of two inputs together.
ghost use Rattle.std.specs.Prelude.{◌≡◌, length, IfOk};
ghost use Rattle.rel_algebra.specs.Sets as s;

use ct_value::{ColTys, Memory};
use rel_algebra::{SetKind, set_column};

/// Column by column, those of a union, of EXCEPT or of INTERSECT; none where there are more on one side than on the other, or two have
/// no common type.
pub fn set_columns(kind: SetKind, left: &ColTys, right: &ColTys) -> Result<Option<ColTys>, Memory>
    ensures { IfOk result (λ made. made ≡ s.set_columns kind left.now right.now) }
{
    if left.len() == right.len() {
        paired_columns(kind, left, right)
    } else {
        Ok(None)
    }
}

// The same of equally many.
fn paired_columns(kind: SetKind, left: &ColTys, right: &ColTys) -> Result<Option<ColTys>, Memory>
    requires { length left.now ≡ length right.now }
    ensures { IfOk result (λ made. made ≡ s.set_columns kind left.now right.now) }
{
    let mut made = left.beside();
    for i in 0..left.len() {
        let Some(column) = set_column(kind, left.as_slice()[i], right.as_slice()[i]) else {
            return Ok(None);
        };
        made.push(column)?;
    }
    Ok(Some(made))
}
