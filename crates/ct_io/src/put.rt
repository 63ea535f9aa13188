ghost use Rattle.std.specs.Prelude.{◌<◌, [], length, OnOk, OnErr, IfOk};
ghost use Rattle.ct_io.specs.Counts.{HasCause};
ghost use Rattle.ct_io.specs.Written.{Appends, AppendsUpTo, AppendsPart};
ghost use Rattle.ct_io.specs.Copies.{copies_text};

use crate::{PutFailed, Sink};

/// Offers a piece, and the untaken rest again until it is taken.
#[tactic(auto, using(crate::proofs::laws::Appending::up_to_start, crate::proofs::laws::Appending::up_to_more, crate::proofs::laws::Appending::up_to_end, crate::proofs::laws::Appending::part_then_nothing, crate::proofs::laws::Appending::part_of_whole))]
pub fn put_all<K: Sink>(out: &mut K, piece: &[u8]) -> Result<(), PutFailed>
    ensures whole { OnOk result (Appends (K.written out.old) (K.written out.new) piece.now) }
    ensures part { AppendsPart (K.written out.old) (K.written out.new) piece.now }
    ensures cause { HasCause (K.faults out.old) (K.faults out.new) result }
{
    let mut rest = piece;
    'rest: while !rest.is_empty() {
        rest = put_some(out, rest)?;
    }
    Ok(())
}

fn put_some<'a, K: Sink>(out: &mut K, piece: &'a [u8]) -> Result<&'a [u8], PutFailed>
    requires { 0 < length piece.now }
    ensures taken { IfOk result (λ rest. AppendsUpTo (K.written out.old) (K.written out.new) piece.now rest.now) }
    ensures shorter { IfOk result (λ rest. length rest.now < length piece.now) }
    ensures refused { OnErr result (Appends (K.written out.old) (K.written out.new) []) }
    ensures cause { HasCause (K.faults out.old) (K.faults out.new) result }
{
    let count = out.put(piece)?;
    Ok(&piece[count..])
}

/// Puts a line so many times.
#[tactic(auto, using(crate::proofs::laws::Appending::up_to_start, crate::proofs::laws::Pieces::up_to_copy, crate::proofs::laws::Pieces::whole_copies))]
pub fn put_copies<K: Sink>(out: &mut K, line: &[u8], count: u64) -> Result<(), PutFailed>
    ensures whole { OnOk result (Appends (K.written out.old) (K.written out.new) (copies_text count line.now)) }
    ensures part { AppendsPart (K.written out.old) (K.written out.new) (copies_text count line.now) }
    ensures cause { HasCause (K.faults out.old) (K.faults out.new) result }
{
    let mut left = count;
    'copies: while left > 0 {
        put_all(out, line)?;
        left -= 1;
    }
    Ok(())
}
