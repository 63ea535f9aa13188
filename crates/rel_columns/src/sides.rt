//! Joins and ranks.
ghost use Rattle.std.specs.Prelude.{◌≡◌, true, map, IfOk};
ghost use Rattle.rel_algebra.specs.Joins as j;
ghost use Rattle.rel_algebra.specs.Ranks as r;

use crate::calls::COUNT;
use ct_value::{ColTy, ColTys, Memory};
use rel_algebra::JoinKind;

/// The left's columns, then the right's; NULL may stand in those of a side whose rows may be missing.
pub fn join_columns(kind: JoinKind, left: ColTys, right: ColTys) -> Result<ColTys, Memory>
    ensures { IfOk result (λ made. made ≡ j.join_columns kind left right) }
{
    let left_missing = matches!(kind, JoinKind::Right | JoinKind::Full);
    let right_missing = matches!(kind, JoinKind::Left | JoinKind::Full);
    let mut made = nullable_if(left_missing, left)?;
    let others = nullable_if(right_missing, right)?;
    made.append(others)?;
    Ok(made)
}

// The columns of a side, whose rows may be missing.
fn nullable_if(missing: bool, columns: ColTys) -> Result<ColTys, Memory>
    ensures { IfOk result (λ made. made ≡ map (j.nullable_if missing) columns) }
{
    if missing {
        nullable(&columns)
    } else {
        Ok(columns)
    }
}

// These columns, in each of which NULL may stand.
fn nullable(columns: &ColTys) -> Result<ColTys, Memory>
    ensures { IfOk result (λ made. made ≡ map (j.nullable_if true) columns.now) }
{
    let mut made = columns.beside();
    for column in columns.as_slice() {
        made.push(ColTy {
            ty: column.ty,
            nullable: true,
        })?;
    }
    Ok(made)
}

/// The columns of ranked rows, with that of the rank behind them where it is told.
pub fn rank_columns(ranked: bool, columns: ColTys) -> Result<ColTys, Memory>
    ensures { IfOk result (λ made. made ≡ r.rank_columns ranked columns) }
{
    let mut made = columns;
    if ranked {
        made.push(COUNT)?;
    }
    Ok(made)
}
