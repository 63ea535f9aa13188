ghost use Rattle.std.specs.Prelude.{◌≡◌, ◌∷◌, [], IfOk};
ghost use Rattle.ct_change.specs.Changelog.{HasKey};

use crate::rows::row;
use ct_change::{Append, Change, Changes, InMode, Kind, OutMode, Retract, UpsertBy};
use ct_value::{Cols, Memory, Row};
use std::alloc::Global;
use std::test::Fail;

// Tells a row that comes.
fn tells_row<M: OutMode>(alloc: Global, mode: &M, row: Row) -> Result<bool, Memory> {
    let mut told = Changes::new(alloc);
    mode.emit(None, Some(row), &mut told)?;
    Ok(told.len() == 1)
}

// Takes a row that comes.
fn takes_row<M: InMode>(mode: &M, row: Row) -> Result<bool, Memory>
    requires { HasKey (M.mode mode.now) row }
{
    let mut kept = mode.fresh()?;
    let diff = mode.absorb(&mut kept, Change::new(Kind::I, row))?;
    Ok(diff.come.is_some())
}

fn tells_and_takes<M: InMode + OutMode>(alloc: Global, mode: &M, row: Row) -> Result<bool, Memory>
    requires { HasKey (M.mode mode.now) row }
{
    let told = tells_row(alloc, mode, row.dup()?)?;
    Ok(takes_row(mode, row)? && told)
}

// The mode of rows whose first column is the key.
fn by_first(alloc: Global) -> Result<UpsertBy, Memory>
    ensures { IfOk result (λ mode. mode.key ≡ 0 ∷ []) }
{
    let mut key = Cols::new(alloc);
    key.push(0)?;
    Ok(UpsertBy { alloc, key })
}

fn upserts(alloc: Global) -> Result<bool, Memory> {
    tells_and_takes(alloc, &by_first(alloc)?, row(alloc, "a")?)
}

#[test]
fn each_mode_tells_and_takes_a_row(rt: HostRuntime) -> Result<(), Fail> {
    let alloc = rt.alloc();
    assert!(rt; tells_and_takes(alloc, &Append, row(alloc, "a")?)?);
    assert!(rt; tells_and_takes(alloc, &Retract, row(alloc, "a")?)?);
    assert!(rt; upserts(alloc)?);
    Ok(())
}
