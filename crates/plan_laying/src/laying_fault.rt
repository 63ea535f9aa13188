//! Why no plan is made.

use ct_value::Memory;

/// Why no plan is made: a part of the tree scans a table that isn't there, or memory was wanting.
#[derive(Clone, Copy, Debug, PartialEq, Eq)]
pub enum LayingFault {
    NoTable,
    Memory,
}

impl From<Memory> for LayingFault {
    ghost use Rattle.std.specs.Prelude.{◌≡◌};
    ghost use Rattle.plan_laying.specs.declared.laying_fault.LayingFault.TheVariants.{Memory as Wanting};

    ghost from_gives = { λ _ fault. fault ≡ Wanting };

    fn from(_: Memory) -> Self {
        LayingFault::Memory
    }
}
