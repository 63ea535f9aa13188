ghost use Rattle.std.specs.Prelude.{◌≡◌, List, ℕ};

/// What a change does: `+I` adds a row, `-U` and `+U` are the two halves of an update, `-D` removes a row
/// (Flink documentation, "Dynamic Tables").
#[derive(Clone, Copy, Debug, PartialEq, Eq)]
pub enum Kind {
    I,
    UB,
    UA,
    D,
}

/// A set of kinds.
#[derive(Clone, Copy, Debug, PartialEq, Eq)]
pub struct KindSet {
    pub i: bool,
    pub ub: bool,
    pub ua: bool,
    pub d: bool,
}

/// The mode that a table declares for its changes. An upsert table has a key.
#[derive(Clone, Copy, Debug, PartialEq, Eq)]
pub enum Declared {
    Append,
    Retract,
    Upsert,
}

impl Kind {
    ghost use Rattle.ct_change.specs.Changelog.{adds};

    /// Whether a change of this kind adds its row, as `+I` and `+U` do.
    pub fn is_addition(self) -> bool
        ensures { result ≡ adds self }
    {
        matches!(self, Kind::I | Kind::UA)
    }
}

impl KindSet {
    ghost use Rattle.ct_change.specs.Changelog.{has};

    /// Whether the kind is in the set.
    pub fn contains(self, kind: Kind) -> bool
        ensures { result ≡ has self kind }
    {
        match kind {
            Kind::I => self.i,
            Kind::UB => self.ub,
            Kind::UA => self.ua,
            Kind::D => self.d,
        }
    }
}

impl Declared {
    ghost use Rattle.ct_change.specs.Changelog.{admits, mode_of};

    /// Whether a table of this mode takes changes of this kind: only `+I` in an append table, all kinds in
    /// a retract table, all but `-U` in an upsert table.
    pub fn admits(self, kind: Kind) -> bool
        ensures { (key : List ℕ) → result ≡ admits (mode_of self key) kind }
    {
        match self {
            Declared::Append => kind == Kind::I,
            Declared::Retract => true,
            Declared::Upsert => kind != Kind::UB,
        }
    }
}
