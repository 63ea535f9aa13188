ghost use Rattle.ct_change.specs.Changelog.{append};

use crate::{Change, ChangeMode, Changes, Diff, InMode, Kind, OutMode};
use ct_value::{Memory, Row};

/// The mode in which every change is `+I` (Flink documentation, "Table to Stream Conversion").
#[derive(Clone, Copy, Debug)]
pub struct Append;

impl ChangeMode for Append {
    ghost mode = { λ _. append };

    fn admits(&self, kind: Kind) -> bool {
        kind == Kind::I
    }
}

// Each row comes once and never goes, so nothing is kept.
impl InMode for Append {
    type Kept = ();

    ghost stands_for = { λ _ _ _. Unit {0} };

    fn fresh(&self) -> Result<(), Memory> {
        Ok(())
    }

    fn absorb(&self, _kept: &mut (), change: Change) -> Result<Diff, Memory> {
        Ok(Diff {
            gone: None,
            come: Some(change),
        })
    }
}

impl OutMode for Append {
    fn emit(&self, _old: Option<Row>, fresh: Option<Row>, to: &mut Changes) -> Result<(), Memory> {
        match fresh {
            None => Ok(()),
            Some(fresh) => to.push(Change::new(Kind::I, fresh)),
        }
    }
}
