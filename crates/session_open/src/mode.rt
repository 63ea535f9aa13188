use ct_change::{
    Append, Change, ChangeMode, Changes, Diff, InMode, Kind, LastRows, OutMode, Retract, UpsertBy,
};
use ct_value::{Memory, Row};

/// The mode of an edge, which is known when the job opens: inserts alone come, or both rows of an update are told, or the new
/// row alone by a key.
#[derive(Drop)]
pub enum AnyMode {
    Append,
    Retract,
    UpsertBy(UpsertBy),
}

/// What is kept of the rows that stand, by the mode.
#[derive(Drop)]
pub enum AnyKept {
    Nothing,
    LastRows(LastRows),
}

impl ChangeMode for AnyMode {
    ghost use Rattle.session_open.specs.Modes.{mode_in};

    ghost mode = { mode_in };

    fn admits(&self, kind: Kind) -> bool {
        match self {
            AnyMode::Append => Append.admits(kind),
            AnyMode::Retract => Retract.admits(kind),
            AnyMode::UpsertBy(by) => by.admits(kind),
        }
    }
}

// What is kept is always that of the mode.
impl InMode for AnyMode {
    ghost use Rattle.session_open.specs.Modes.{IsKeptFor};

    type Kept = AnyKept;

    ghost stands_for = { IsKeptFor };

    fn fresh(&self) -> Result<AnyKept, Memory> {
        match self {
            AnyMode::Append => Ok(AnyKept::Nothing),
            AnyMode::Retract => Ok(AnyKept::Nothing),
            AnyMode::UpsertBy(by) => Ok(AnyKept::LastRows(by.fresh()?)),
        }
    }

    fn absorb(&self, kept: &mut AnyKept, change: Change) -> Result<Diff, Memory> {
        match (self, kept) {
            (AnyMode::Append, AnyKept::Nothing) => Append.absorb(&mut (), change),
            (AnyMode::Retract, AnyKept::Nothing) => Retract.absorb(&mut (), change),
            (AnyMode::UpsertBy(by), AnyKept::LastRows(rows)) => by.absorb(rows, change),
            _ => unreachable!(),
        }
    }
}

impl OutMode for AnyMode {
    fn emit(&self, old: Option<Row>, fresh: Option<Row>, to: &mut Changes) -> Result<(), Memory> {
        match self {
            AnyMode::Append => Append.emit(old, fresh, to),
            AnyMode::Retract => Retract.emit(old, fresh, to),
            AnyMode::UpsertBy(by) => by.emit(old, fresh, to),
        }
    }
}
