ghost use Rattle.std.specs.Prelude.{◌≡◌, IfOk};

use crate::Kind;
use ct_value::{Dup, List, Memory, Row};

/// A change of a table: a row that comes or goes.
#[derive(Debug, Drop)]
pub struct Change {
    pub kind: Kind,
    pub row: Row,
}

/// What goes and what comes by a change, where it is taken as a change of a bag.
#[derive(Debug, Drop)]
pub struct Diff {
    pub gone: Option<Change>,
    pub come: Option<Change>,
}

impl Change {
    /// The change of this kind with this row. It takes no memory.
    pub fn new(kind: Kind, row: Row) -> Change
        ensures { result ≡ record { kind = kind; row = row } }
    {
        Change { kind, row }
    }

    /// An equal change.
    pub fn dup(&self) -> Result<Change, Memory>
        ensures { IfOk result (λ copy. copy ≡ self.now) }
    {
        Ok(Change::new(self.kind, self.row.dup()?))
    }
}

impl Dup for Change {
    fn dup(&self) -> Result<Change, Memory> {
        Change::dup(self)
    }
}

/// A list of changes.
pub type Changes = List<Change>;
