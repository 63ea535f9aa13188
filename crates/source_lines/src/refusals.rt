ghost use Rattle.std.specs.Prelude.{◌≡◌, ◌+◌, ◌⊎◌, Some, None, map, filter, OnOk, IsErrOf};
ghost use Rattle.ct_value.specs.declared.codes.ChangeCode.{ChangeCode};
ghost use Rattle.ct_value.specs.declared.codes.ChangeCode.TheVariants.{NullNotAllowed};
ghost use Rattle.ct_field.specs.Typed.{is_null, cell};
ghost use Rattle.ct_change.specs.KeyRows.{is_among};
ghost use Rattle.stream_model.specs.Tables.{asked, null_refusal};
ghost use Rattle.plan_rules.specs.Plans.{required_from};
ghost use Rattle.source_lines.specs.Kept.{taker_of};
ghost use Rattle.source_lines.specs.declared.refusals.SourceFault.TheVariants.{Refused};

use ct_catalog::{ColDef, TableDef};
use ct_change::Change;
use ct_value::{ChangeCode, Memory, Row, Value};
use job_text::{key_columns, tells_key};

/// Why a change isn't taken.
#[derive(Clone, Copy, Debug, PartialEq, Eq)]
pub enum SourceFault {
    /// It is refused by KindNotDeclared, NullNotAllowed, RowAbsent or KeyPresent.
    Refused(ChangeCode),
    Memory,
}

impl From<Memory> for SourceFault {
    ghost use Rattle.std.specs.Prelude.{◌≡◌};
    ghost use Rattle.source_lines.specs.declared.refusals.SourceFault.TheVariants.{Memory};

    ghost from_gives = { λ _ fault. fault ≡ Memory };

    fn from(_: Memory) -> Self {
        SourceFault::Memory
    }
}

// Refuses a change that has NULL in a column that may not hold it, by the first such column, from 1. Of a change that tells its key alone
// only the key's columns are looked at.
pub(crate) fn check_nulls(table: &TableDef, change: &Change) -> Result<(), SourceFault>
    ensures ok { OnOk result (null_refusal (asked (taker_of table.now) change.now) change.now.row ≡ None) }
    ensures refused { (code : ChangeCode) → IsErrOf result (Refused code) → null_refusal (asked (taker_of table.now) change.now) change.now.row ≡ Some code }
{
    if tells_key(table, change.kind) {
        check_key(table.cols.as_slice(), key_columns(table), &change.row)
    } else {
        check_row(table.cols.as_slice(), &change.row)
    }
}

// Refuses a row by all columns.
#[tactic(auto, using(crate::proofs::Nulls::null_allowed, crate::proofs::Nulls::null_absent, crate::proofs::Nulls::null_found, crate::proofs::Nulls::null_none))]
fn check_row(cols: &[ColDef], row: &Row) -> Result<(), SourceFault>
    ensures ok { OnOk result (null_refusal (required_from 0 (map (λ c. c.ty) cols.now)) row.now ≡ None) }
    ensures refused { (code : ChangeCode) → IsErrOf result (Refused code) → null_refusal (required_from 0 (map (λ c. c.ty) cols.now)) row.now ≡ Some code }
{
    for i in 0..cols.len() {
        if !cols[i].ty.nullable && has_null(row, i) {
            return Err(null_fault(i));
        }
    }
    Ok(())
}

// Refuses a row by the columns of a key.
#[tactic(auto, using(crate::proofs::Nulls::asked_allowed, crate::proofs::Nulls::asked_absent, crate::proofs::Nulls::asked_stops, crate::proofs::Nulls::asked_none))]
fn check_key(cols: &[ColDef], key: &[u32], row: &Row) -> Result<(), SourceFault>
    ensures ok { OnOk result (null_refusal (filter (is_among (required_from 0 (map (λ c. c.ty) cols.now))) key.now) row.now ≡ None) }
    ensures refused { (code : ChangeCode) → IsErrOf result (Refused code) → null_refusal (filter (is_among (required_from 0 (map (λ c. c.ty) cols.now))) key.now) row.now ≡ Some code }
{
    for i in 0..key.len() {
        let column = key[i] as usize;
        if is_required(cols, column) && has_null(row, column) {
            return Err(null_fault(column));
        }
    }
    Ok(())
}

// Whether NULL may not stand in a column, from 0.
fn is_required(cols: &[ColDef], column: usize) -> bool
    ensures { result ≡ is_among (required_from 0 (map (λ c. c.ty) cols.now)) column }
{
    match cols.get(column) {
        Some(col) => !col.ty.nullable,
        None => false,
    }
}

// Whether NULL stands in a column, from 0.
#[tactic(auto, using(crate::proofs::Nulls::null_past))]
fn has_null(row: &Row, column: usize) -> bool
    ensures { result ≡ is_null (cell column row.now) }
{
    match row.get(column) {
        Some(value) => matches!(value, Value::Null),
        None => true,
    }
}

// The refusal of NULL in a column, from 0.
fn null_fault(column: usize) -> SourceFault
    ensures { (result ≡ SourceFault.Memory) ⊎ (result ≡ Refused (NullNotAllowed (column + 1))) }
{
    match u32::try_from(column) {
        Ok(column) if column < u32::MAX => {
            SourceFault::Refused(ChangeCode::NullNotAllowed(column + 1))
        }
        _ => SourceFault::Memory,
    }
}
