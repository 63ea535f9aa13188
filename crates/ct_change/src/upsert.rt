ghost use Rattle.std.specs.Prelude.{◌≡◌, IfOk, OnOk, OnErr, ◌<◌};
ghost use Rattle.std.specs.FinMap as map;
ghost use Rattle.ct_value.specs.Rows.{project};
ghost use Rattle.ct_change.specs.Changelog.{upsert, HasKey};
ghost use Rattle.ct_change.specs.Emission.{replaced_by};
ghost use Rattle.ct_change.specs.LastRows.{AreLast, last_after};

use crate::{Change, ChangeMode, Changes, Diff, InMode, Kind, LastRows, OutMode, key_row};
use ct_value::{Cols, Memory, Row};
use std::alloc::Global;

/// The mode in which a row is set or removed by its key, which these columns are (Flink documentation, "Table to Stream
/// Conversion"); a row that goes is told by its key alone. The last rows are kept by memory of `alloc`.
#[derive(Debug, Drop)]
pub struct UpsertBy {
    pub alloc: Global,
    pub key: Cols,
}

impl ChangeMode for UpsertBy {
    ghost mode = { λ s. upsert s.key };

    fn admits(&self, kind: Kind) -> bool {
        kind != Kind::UB
    }
}

// A change tells a key's new row alone, so the last row of each key is kept.
impl InMode for UpsertBy {
    type Kept = LastRows;

    ghost stands_for = { λ s kept rows. AreLast s.key kept rows };

    fn fresh(&self) -> Result<LastRows, Memory> {
        Ok(LastRows::new(self.alloc))
    }

    fn absorb(&self, kept: &mut LastRows, change: Change) -> Result<Diff, Memory> {
        let old = keep(&self.key, kept, &change)?;
        Ok(replacement(old, change))
    }
}

impl OutMode for UpsertBy {
    fn emit(&self, old: Option<Row>, fresh: Option<Row>, to: &mut Changes) -> Result<(), Memory> {
        match (old, fresh) {
            (None, None) => Ok(()),
            (None, Some(fresh)) => to.push(Change::new(Kind::I, fresh)),
            (Some(old), None) => {
                to.push(Change::new(Kind::D, key_row(self.alloc, &old, &self.key)?))
            }
            (Some(old), Some(fresh)) => {
                if old != fresh {
                    to.push(Change::new(Kind::UA, fresh))?;
                }
                Ok(())
            }
        }
    }
}

// Keeps what a change leaves of its key, and answers the row that the key had.
fn keep(key: &Cols, kept: &mut LastRows, change: &Change) -> Result<Option<Row>, Memory>
    requires { HasKey (upsert key.now) change.now.row }
    ensures old { IfOk result (λ old. old ≡ map.get kept.old (project key.now change.now.row)) }
    ensures ok { OnOk result (kept.new ≡ last_after key.now kept.old change.now) }
    ensures err { OnErr result (kept.new ≡ kept.old) }
{
    let own = change.row.project(key)?;
    if change.kind.is_addition() {
        let old = kept.set(own, change.row.dup()?)?;
        Ok(old)
    } else {
        Ok(kept.take(&own))
    }
}

// What goes and what comes by a change on a key that has this row, or none.
fn replacement(old: Option<Row>, change: Change) -> Diff
    ensures { result ≡ replaced_by old change }
{
    match (old, change.kind.is_addition()) {
        (None, true) => Diff {
            gone: None,
            come: Some(change),
        },
        (None, false) => Diff {
            gone: None,
            come: None,
        },
        (Some(old), true) => Diff {
            gone: Some(Change::new(Kind::UB, old)),
            come: Some(Change::new(Kind::UA, change.row)),
        },
        (Some(old), false) => Diff {
            gone: Some(Change::new(Kind::D, old)),
            come: None,
        },
    }
}
