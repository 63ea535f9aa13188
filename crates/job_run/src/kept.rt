//! Runs whose written bytes are kept in memory.
ghost use Rattle.std.specs.Prelude.{◌≡◌, ℕ, List, IfOk, IfErr};
ghost use Rattle.job_ending.specs.Endings.{IsPrintable};
ghost use Rattle.job_ending.specs.Outcome.{Outcome};
ghost use Rattle.job_ending.specs.Runs.{IsBefore, ending_of, ending_of_halt};
ghost use Rattle.job_run.specs.Kept.{IsKept, in_memory};
ghost use Rattle.job_run.specs.Outcome.{behind};

use ct_io::GrowingSink;
use job_ending::Halt;

/// The bytes that a run has kept, unless it halted.
pub(crate) fn kept_by(ran: Result<(), Halt>, kept: GrowingSink) -> Result<Vec<u8>, Halt>
    ensures ok { IfOk result (λ bytes. (there : Outcome) → IsKept there (ending_of ran) kept.bytes → (next : List ℕ → Outcome) → behind next there ≡ next bytes.items) }
    ensures halts { IfErr result (λ halt. (there : Outcome) → IsKept there (ending_of ran) kept.bytes → (next : List ℕ → Outcome) → IsBefore halt (behind next there)) }
    ensures printable { IfErr result (λ halt. IsPrintable (ending_of ran) → IsPrintable (ending_of_halt halt)) }
{
    match ran {
        Ok(()) => Ok(kept.into_bytes()),
        Err(halt) => Err(in_memory(halt)),
    }
}

/// A shelf or a sink in memory fails by want of that.
pub(crate) fn in_memory(halt: Halt) -> Halt
    ensures { result ≡ in_memory halt }
{
    match halt {
        Halt::ReadFault | Halt::WriteFault => Halt::Memory,
        halt => halt,
    }
}
