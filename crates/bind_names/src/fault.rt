ghost use Rattle.bind_names.specs.declared.fault.BindFault.TheVariants as fault;
ghost use Rattle.std.specs.Prelude.{◌≡◌};

use ct_value::{Memory, ScriptCode};
use std::alloc::{AllocError, AllocFailed};

/// Why a query isn't bound.
#[derive(Clone, Copy, Debug, PartialEq, Eq)]
pub enum BindFault {
    /// The first reason to refuse it.
    Refused(ScriptCode),
    Memory,
}

impl From<Memory> for BindFault {
    ghost from_gives = { λ _ e. e ≡ fault.Memory };

    fn from(_: Memory) -> Self {
        BindFault::Memory
    }
}

impl From<AllocError> for BindFault {
    ghost from_gives = { λ _ e. e ≡ fault.Memory };

    fn from(_: AllocError) -> Self {
        BindFault::Memory
    }
}

impl<T: Drop> From<AllocFailed<T>> for BindFault {
    ghost from_gives = { λ _ e. e ≡ fault.Memory };

    fn from(_: AllocFailed<T>) -> Self {
        BindFault::Memory
    }
}
