ghost use Rattle.std.specs.Prelude.{◌≡◌, ◌<◌, ◌≤◌, ◌++◌, IsTrue, All, length, slice_index_or, IfOk, OnOk};
ghost use Rattle.ct_value.specs.Rows.{project};
ghost use Rattle.ct_value.specs.declared.value.Value.TheVariants.{Null};
ghost use Rattle.ct_field.specs.Fields.{field_text};
ghost use Rattle.ct_field.specs.Numbers.{is_type};
ghost use Rattle.route.specs.Routing.{behind_commas, key_text, type_at, types_at};

use ct_field::push_field;
use ct_value::{Bytes, ColTys, Cols, Memory, Row};
use std::alloc::Global;

/// The text of a row's key, which these columns are: their field texts, joined by commas. Each of them has to have a type,
/// and the row a value for each type.
pub fn key_text(alloc: Global, row: &Row, cols: &Cols, tys: &ColTys) -> Result<Bytes, Memory>
    requires wide { length tys.now ≤ length row.now }
    requires columns { All (λ col. col < length tys.now) cols.now }
    requires types { All (λ column. IsTrue (is_type column.ty)) tys.now }
    ensures { IfOk result (λ text. text ≡ key_text (types_at cols.now tys.now) (project cols.now row.now)) }
{
    let mut text = Bytes::new(alloc);
    if let Some((first, others)) = cols.as_slice().split_first() {
        push_column(alloc, &mut text, row, tys, *first)?;
        push_others(alloc, &mut text, row, tys, others)?;
    }
    Ok(text)
}

// Puts the field texts of these columns behind a text, a comma before each.
fn push_others(
    alloc: Global,
    text: &mut Bytes,
    row: &Row,
    tys: &ColTys,
    cols: &[u32],
) -> Result<(), Memory>
    requires wide { length tys.now ≤ length row.now }
    requires columns { All (λ col. col < length tys.now) cols.now }
    requires types { All (λ column. IsTrue (is_type column.ty)) tys.now }
    ensures { OnOk result (text.new ≡ text.old ++ behind_commas (types_at cols.now tys.now) (project cols.now row.now)) }
{
    for col in cols {
        text.push(b',')?;
        push_column(alloc, text, row, tys, *col)?;
    }
    Ok(())
}

// Puts the field text of a column behind a text.
fn push_column(
    alloc: Global,
    text: &mut Bytes,
    row: &Row,
    tys: &ColTys,
    col: u32,
) -> Result<(), Memory>
    requires wide { length tys.now ≤ length row.now }
    requires column { col < length tys.now }
    requires types { All (λ column. IsTrue (is_type column.ty)) tys.now }
    ensures { OnOk result (text.new ≡ text.old ++ field_text (type_at tys.now col) (slice_index_or row.now col Null)) }
{
    let value = &row.as_slice()[col as usize];
    let column = &tys.as_slice()[col as usize];
    push_field(alloc, text, column.ty, value)
}
