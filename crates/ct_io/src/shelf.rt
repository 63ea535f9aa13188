ghost use Rattle.std.specs.Prelude.{◌≡◌, ◌⊎◌, ◌≤◌, ◌<◌, ℕ, Option, length, IfOk, IfSome, IsErrOf, IsSomeAnd};
ghost use Rattle.ct_io.specs.Counts.{Rose};
ghost use Rattle.ct_io.specs.Holdings.{Holdings, loaded, Whole, Long, Missing};

use ct_value::{Bytes, Memory, Text};
use std::alloc::Global;

/// Why a file is not loaded.
#[derive(Clone, Copy, Debug, PartialEq, Eq)]
pub enum LoadFault {
    /// The bytes held are more than the limit.
    TooLong,
    /// The shelf failed, or holds no file of the name.
    Failed,
    Memory,
}

impl From<Memory> for LoadFault {
    ghost use Rattle.std.specs.Prelude.{◌≡◌};
    ghost use Rattle.ct_io.specs.declared.shelf.LoadFault.TheVariants.{Memory};

    ghost from_gives = { λ _ fault. fault ≡ Memory };

    fn from(_: Memory) -> Self {
        LoadFault::Memory
    }
}

/// Where files come from. A caller sees what the shelf holds, where it tells that, and a count of its faults,
/// which never falls: without a risen count no failure can be answered for a file that is held.
pub trait Shelf {
    /// What it holds, where it tells.
    ghost holdings: { Self → Option Holdings };

    /// How often it has failed.
    ghost faults: { Self → ℕ };

    /// The bytes held under a name, all of them, where they are at most `limit`.
    fn load(&mut self, alloc: Global, name: &Text, limit: u64) -> Result<Bytes, LoadFault>
        ensures whole { IfOk result (λ bytes. IfSome (holdings self.new) (λ held. loaded held name.now limit ≡ Whole bytes)) }
        ensures within { IfOk result (λ bytes. length bytes ≤ limit) }
        ensures too_long { IsErrOf result LoadFault.TooLong → IfSome (holdings self.new) (λ held. loaded held name.now limit ≡ Long) }
        ensures failed { IsErrOf result LoadFault.Failed → Rose (faults self.old) (faults self.new) ⊎ IsSomeAnd (holdings self.new) (λ held. loaded held name.now limit ≡ Missing) }
        ensures same { holdings self.new ≡ holdings self.old }
        ensures later { faults self.old ≤ faults self.new };
}

/// The answer of a load that finds these bytes.
pub(crate) fn copy_within(bytes: &Bytes, limit: u64) -> Result<Bytes, LoadFault>
    ensures copy { IfOk result (λ copy. copy ≡ bytes.now) }
    ensures within { IfOk result (λ copy. length copy ≤ limit) }
    ensures too_long { IsErrOf result LoadFault.TooLong → limit < length bytes.now }
    ensures not_failed { IsErrOf result LoadFault.Failed → ⊥ }
{
    if bytes.len() as u64 > limit {
        return Err(LoadFault::TooLong);
    }
    Ok(bytes.dup()?)
}
