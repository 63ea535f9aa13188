ghost use Rattle.ct_change.specs.Changelog.{retract};

use crate::{Change, ChangeMode, Changes, Diff, InMode, Kind, OutMode};
use ct_value::{Memory, Row};

/// The mode in which an update is two changes: `-U` of the old row and `+U` of the new one (Flink
/// documentation, "Table to Stream Conversion").
#[derive(Clone, Copy, Debug)]
pub struct Retract;

impl ChangeMode for Retract {
    ghost mode = { λ _. retract };

    fn admits(&self, _kind: Kind) -> bool {
        true
    }
}

// Each change says by itself what goes and what comes, so nothing is kept.
impl InMode for Retract {
    type Kept = ();

    ghost stands_for = { λ _ _ _. Unit {0} };

    fn fresh(&self) -> Result<(), Memory> {
        Ok(())
    }

    fn absorb(&self, _kept: &mut (), change: Change) -> Result<Diff, Memory> {
        if change.kind.is_addition() {
            Ok(Diff {
                gone: None,
                come: Some(change),
            })
        } else {
            Ok(Diff {
                gone: Some(change),
                come: None,
            })
        }
    }
}

impl OutMode for Retract {
    fn emit(&self, old: Option<Row>, fresh: Option<Row>, to: &mut Changes) -> Result<(), Memory> {
        match (old, fresh) {
            (None, None) => Ok(()),
            (None, Some(fresh)) => to.push(Change::new(Kind::I, fresh)),
            (Some(old), None) => to.push(Change::new(Kind::D, old)),
            (Some(old), Some(fresh)) => {
                if old != fresh {
                    to.push(Change::new(Kind::UB, old))?;
                    to.push(Change::new(Kind::UA, fresh))?;
                }
                Ok(())
            }
        }
    }
}
