// Scripts that are judged.
ghost use Rattle.std.specs.Prelude.{IfOk};
ghost use Rattle.job_judgement.specs.Judged.{IsJudged};
ghost use Rattle.job_judgement.specs.Views.{accepted_view};

use ct_value::{Bytes, Memory};
use job_ending::{Halt, LimitName};
use job_judgement::{Accepted, judged};
use std::alloc::Global;

/// The bytes of a text.
pub(crate) fn bytes_of(alloc: Global, text: &str) -> Result<Bytes, Halt> {
    match Bytes::from_slice(alloc, text.as_bytes()) {
        Ok(bytes) => Ok(bytes),
        Err(Memory) => Err(Halt::Memory),
    }
}

/// What a short text is judged to be.
pub(crate) fn script_of(alloc: Global, text: &Bytes) -> Result<Accepted, Halt>
    ensures { IfOk result (λ script. IsJudged (accepted_view script)) }
{
    if text.len() > 1000 {
        return Err(Halt::Limit(LimitName::Script));
    }
    judged(alloc, text)
}
