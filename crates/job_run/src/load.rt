//! A file of a job, and its script.
ghost use Rattle.std.specs.Prelude.{◌≡◌, ◌≤◌, ℕ, List, Some, length, IfOk, IfErr};
ghost use Rattle.ct_io.specs.Counts.{Rose};
ghost use Rattle.ct_io.specs.Holdings.{Holdings, loaded, Whole};
ghost use Rattle.job_ending.specs.Endings.{IsPrintable};
ghost use Rattle.job_ending.specs.Outcome.{Outcome};
ghost use Rattle.job_ending.specs.Runs.{HaltsAs, ending_of_halt};
ghost use Rattle.job_judgement.specs.Judged.{IsJudged};
ghost use Rattle.job_judgement.specs.Judgement.{Accepted as Judged};
ghost use Rattle.job_judgement.specs.Views.{accepted_view};
ghost use Rattle.job_run.specs.Outcome.{after_load, with_script};

use ct_io::{LoadFault, Shelf};
use ct_value::{Bytes, Text};
use job_ending::{Halt, LimitName};
use job_judgement::{Accepted, judged};
use std::alloc::Global;

const SCRIPT_LIMIT: u64 = 262144;

/// The bytes of a file of at most `limit` bytes.
pub fn load<F: Shelf>(
    alloc: Global,
    shelf: &mut F,
    name: &Text,
    limit: u64,
    over: LimitName,
) -> Result<Bytes, Halt>
    ensures within { IfOk result (λ bytes. length bytes ≤ limit) }
    ensures whole { IfOk result (λ bytes. (h : Holdings) → F.holdings shelf.old ≡ Some h → loaded h name.now limit ≡ Whole bytes) }
    ensures halts { IfErr result (λ halt. (next : Holdings → List ℕ → Outcome) → HaltsAs (F.holdings shelf.old) (λ h. after_load over (next h) (loaded h name.now limit)) (Rose (F.faults shelf.old) (F.faults shelf.new)) halt) }
    ensures printable { IfErr result (λ halt. IsPrintable (ending_of_halt halt)) }
    ensures same { F.holdings shelf.new ≡ F.holdings shelf.old }
    ensures later { F.faults shelf.old ≤ F.faults shelf.new }
{
    match shelf.load(alloc, name, limit) {
        Ok(bytes) => Ok(bytes),
        Err(LoadFault::TooLong) => Err(Halt::Limit(over)),
        Err(LoadFault::Failed) => Err(Halt::ReadFault),
        Err(LoadFault::Memory) => Err(Halt::Memory),
    }
}

/// The script that a file of at most 262,144 bytes holds.
pub fn load_script<F: Shelf>(alloc: Global, shelf: &mut F, name: &Text) -> Result<Accepted, Halt>
    ensures judged { IfOk result (λ script. IsJudged (accepted_view script)) }
    ensures ok { IfOk result (λ script. (h : Holdings) → F.holdings shelf.old ≡ Some h → (next : Judged → Outcome) → with_script h name.now next ≡ next (accepted_view script)) }
    ensures halts { IfErr result (λ halt. (next : Holdings → Judged → Outcome) → HaltsAs (F.holdings shelf.old) (λ h. with_script h name.now (next h)) (Rose (F.faults shelf.old) (F.faults shelf.new)) halt) }
    ensures printable { IfErr result (λ halt. IsPrintable (ending_of_halt halt)) }
    ensures same { F.holdings shelf.new ≡ F.holdings shelf.old }
    ensures later { F.faults shelf.old ≤ F.faults shelf.new }
{
    let text = load(alloc, shelf, name, SCRIPT_LIMIT, LimitName::Script)?;
    judged(alloc, &text)
}
