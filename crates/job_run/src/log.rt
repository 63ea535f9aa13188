//! Bytes that clauses alone see.
ghost use Rattle.std.specs.Prelude.{◌≡◌, ◌++◌};

use ct_value::Bytes;
use std::snapshot::Snapshot;

/// The note of bytes with more of them behind. Neither takes a byte of memory.
pub(crate) fn grown(log: Snapshot<Bytes>, more: &[u8]) -> Snapshot<Bytes>
    ensures { result.value ≡ log.value ++ more.now }
{
    let _ = more;
    log
}
