use ct_value::{ChangeCode, Memory};

/// Why the lines of a file aren't taken.
#[derive(Clone, Copy, Debug, PartialEq, Eq)]
pub enum TakeFault {
    /// The first line that is refused, counted from 1 in its file; the table is 0 where all tables share a file, else the number of the
    /// file's table from 1.
    Refused {
        code: ChangeCode,
        line: u32,
        table: u32,
    },
    Memory,
}

impl From<Memory> for TakeFault {
    ghost use Rattle.std.specs.Prelude.{◌≡◌};
    ghost use Rattle.source_lines.specs.declared.fault.TakeFault.TheVariants as fault;

    ghost from_gives = { λ _ given. given ≡ fault.Memory };

    fn from(_: Memory) -> Self {
        TakeFault::Memory
    }
}
