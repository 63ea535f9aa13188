ghost use Rattle.std.specs.Prelude.{◌≡◌, ◌⊎◌};
ghost use Rattle.ct_io.specs.Counts.{Rose};
ghost use Rattle.ct_io.specs.Written.{Appends};
ghost use Rattle.job_ending.specs.Endings.{IsPrintable, ending_line};

use crate::ending::{Ending, ending_line};
use ct_io::{Sink, put_all};
use std::alloc::Global;

/// Writes the ending's line, and answers the ending. Where it finds no memory for the line, the ending is want of memory,
/// whose line needs none.
pub fn report<E: Sink>(alloc: Global, ending: Ending, err: &mut E) -> Ending
    requires printable { IsPrintable ending }
    ensures same { (result ≡ ending) ⊎ (result ≡ Ending.Memory) }
    ensures reported { (Rose (E.faults err.old) (E.faults err.new) → ⊥) → Appends (E.written err.old) (E.written err.new) (ending_line result) }
{
    match ending_line(alloc, &ending) {
        Ok(line) => {
            let _ = put_all(err, line.as_slice());
            ending
        }
        Err(_) => {
            let _ = put_all(err, b"out of memory\n");
            Ending::Memory
        }
    }
}
