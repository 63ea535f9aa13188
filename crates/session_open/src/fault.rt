use ct_value::Memory;

/// Why a job doesn't open: the rows with which its nodes open are more than the limit, or memory was wanting.
#[derive(Clone, Copy, Debug, PartialEq, Eq)]
pub enum OpenFault {
    Limit,
    Memory,
}

impl From<Memory> for OpenFault {
    ghost use Rattle.std.specs.Prelude.{◌≡◌};
    ghost use Rattle.session_open.specs.declared.fault.OpenFault.TheVariants.{Memory as Wanting};

    ghost from_gives = { λ _ fault. fault ≡ Wanting };

    fn from(_: Memory) -> Self {
        OpenFault::Memory
    }
}
