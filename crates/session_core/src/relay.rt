ghost use Rattle.std.specs.Prelude.{◌≡◌, true};
ghost use Rattle.session_core.specs.Relay.{Relays};

use op_rules::PieceOperator;

/// An operator that can say that it emits each change as it came, so that a session need not ask it for each.
pub trait RelayOperator: PieceOperator {
    /// Whether it emits each change as it came, whatever came before, and what it keeps stays right without a call. To answer
    /// `false` is right of each operator.
    fn relays(&self) -> bool
        ensures { result ≡ true → Relays (Self.rule self.now) (Self.stands_for self.now) };
}
