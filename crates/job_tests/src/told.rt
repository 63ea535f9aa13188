// What a run writes.
use ct_io::{Shelf, SureSink};
use ct_value::{Memory, Text, TextFault};
use job::{run_job, status};
use std::alloc::Global;

/// What a run leaves on `out` and on `err`, and its status.
pub(crate) type Left = (&'static str, &'static str, u8);

/// The same as texts of its own.
pub(crate) type Told = (Text, Text, u8);

// What a sink was told, where that is a text.
fn text_of(alloc: Global, bytes: &[u8]) -> Result<Text, Memory> {
    match Text::from_bytes(alloc, bytes) {
        Ok(text) => Ok(text),
        Err(TextFault::NotUtf8) => Text::from_str(alloc, "no text"),
        Err(TextFault::Memory) => Err(Memory),
    }
}

/// What a run over a shelf leaves on sinks that never fail.
pub(crate) fn told<F: Shelf>(alloc: Global, words: &[Text], shelf: &mut F) -> Result<Told, Memory> {
    let mut out = SureSink::new(alloc)?;
    let mut err = SureSink::new(alloc)?;
    let ending = run_job(alloc, words, shelf, &mut out, &mut err);
    let written = text_of(alloc, out.written())?;
    let reported = text_of(alloc, err.written())?;
    Ok((written, reported, status(&ending)))
}

/// Whether a run leaves this.
pub(crate) fn is_told(told: &Result<Told, Memory>, left: &Left) -> bool {
    match told {
        Ok((out, err, status)) => {
            out.is(left.0.as_bytes()) && err.is(left.1.as_bytes()) && *status == left.2
        }
        Err(_) => false,
    }
}
