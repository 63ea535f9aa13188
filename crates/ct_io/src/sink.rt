ghost use Rattle.std.specs.Prelude.{◌≤◌, ◌<◌, ◌≡◌, ℕ, Bool, Option, List, [], length, take, IfOk, OnErr};
ghost use Rattle.ct_io.specs.Counts.{HasCause};
ghost use Rattle.ct_io.specs.Written.{Appends};

/// A piece was not taken.
#[derive(Clone, Copy, Debug, PartialEq, Eq)]
pub struct PutFailed;

/// Where output goes. A caller sees what was written, where the sink tells that, and a count of its faults,
/// which never falls: without a risen count no failure can be answered.
pub trait Sink {
    /// The bytes that were written, where it tells.
    ghost written: { Self → Option (List ℕ) };

    /// How often it has failed.
    ghost faults: { Self → ℕ };

    /// Whether the process ends with what is written here.
    ghost last: { Self → Bool };

    /// Whether the process ends with what is written here, so that memory may be left to the system, which frees it whole. It takes no
    /// memory.
    fn is_last(&self) -> bool
        ensures { result ≡ last self.now };

    /// Takes some first bytes of a piece that isn't empty, at least one, and answers how many. It takes no memory.
    fn put(&mut self, piece: &[u8]) -> Result<usize, PutFailed>
        requires { 0 < length piece.now }
        ensures some { IfOk result (λ count. 1 ≤ count) }
        ensures within { IfOk result (λ count. count ≤ length piece.now) }
        ensures taken { IfOk result (λ count. Appends (written self.old) (written self.new) (take count piece.now)) }
        ensures refused { OnErr result (Appends (written self.old) (written self.new) []) }
        ensures cause { HasCause (faults self.old) (faults self.new) result };
}
