ghost use Rattle.std.specs.Prelude.{◌≡◌, ◌++◌, IfOk, OnOk, OnErr};
ghost use Rattle.ct_value.specs.Bag.{none};
ghost use Rattle.ct_change.specs.Changelog.{Mode, Rows, admits, apply, MayCome, HasKey};
ghost use Rattle.ct_change.specs.Emission.{difference, emission, CanTell};

use crate::{Change, Changes, Diff, Kind};
use ct_value::{Memory, Row};

/// A mode in which a changelog is written (Flink documentation, "Table to Stream Conversion").
pub trait ChangeMode: Drop {
    /// Which mode it is.
    ghost mode: { Self → Mode };

    /// Whether changes of this kind belong to the mode.
    fn admits(&self, kind: Kind) -> bool
        ensures { result ≡ admits (mode self.now) kind };
}

/// A mode of a changelog that is read.
pub trait InMode: ChangeMode {
    /// What is kept of the rows that stand.
    type Kept: Drop;

    /// Whether what is kept stands for these rows.
    ghost stands_for: { Self → Self.Kept → Rows → Type 0 };

    /// What is kept where no row stands.
    fn fresh(&self) -> Result<Self::Kept, Memory>
        ensures { IfOk result (λ kept. stands_for self.now kept none) };

    /// Takes a change, which may come where these rows stand, and answers what goes and what comes by it.
    /// After want of memory what is kept stands for the rows from before.
    fn absorb(&self, kept: &mut Self::Kept, change: Change) -> Result<Diff, Memory>
        requires may { (rows : Rows) × stands_for self.now kept.old rows × MayCome (Self.mode self.now) rows change }
        requires key { HasKey (Self.mode self.now) change.row }
        ensures ok { IfOk result (λ diff. (rows : Rows) → stands_for self.now kept.old rows → MayCome (Self.mode self.now) rows change → (diff ≡ difference (Self.mode self.now) rows change) × stands_for self.now kept.new (apply (Self.mode self.now) rows change)) }
        ensures err { OnErr result ((rows : Rows) → stands_for self.now kept.old rows → stands_for self.now kept.new rows) };
}

/// A mode of a changelog that is written.
pub trait OutMode: ChangeMode {
    /// Puts behind the others the changes that replace one row, or none, by another, or none; where the mode has a key, a row
    /// that goes is told by its key row. The mode has to be able to tell it.
    fn emit(&self, old: Option<Row>, fresh: Option<Row>, to: &mut Changes) -> Result<(), Memory>
        requires { CanTell (Self.mode self.now) old fresh }
        ensures { OnOk result (to.new ≡ to.old ++ emission (Self.mode self.now) old fresh) };
}
