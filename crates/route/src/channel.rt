ghost use Rattle.std.specs.Prelude.{◌≡◌, ◌↔◌, ◌+◌, ◌<◌, ◌^◌, [], ◌∷◌, ◌++◌, List, ℕ, length, slice_get, Some, IsNone, IfSome, IfNone, OnOk, OnErr};
ghost use Rattle.ct_change.specs.declared.change.Change.{Change};
ghost use Rattle.route.specs.Channel.{HasPassed};

use ct_change::Change;
use ct_value::Memory;
use std::alloc::Global;
use std::collections::VecDeque;
use std::marker::Model;

/// A channel from one subtask to another, through which changes go in order. It keeps what is in flight, and two
/// numbers: how many changes were sent, and how many of them were taken.
#[derive(Drop)]
pub struct Channel {
    flight: VecDeque<Change>,
    sent: u32,
    taken: u32,
}

impl Model for Channel {
    ghost use Rattle.std.specs.Prelude.{◌≡◌, ◌+◌, length};
    ghost use Rattle.route.specs.Channel.{Flow};

    ghost Value = { Flow };

    ghost view = { λ c. record { flight = c.flight.items; sent = c.sent; taken = c.taken } };

    ghost invariant = { λ c. c.taken + length c.flight.items ≡ c.sent };
}

impl Channel {
    /// A channel through which nothing was sent. It takes no memory.
    pub fn new(alloc: Global) -> Channel
        ensures { HasPassed result [] 0 }
    {
        Channel {
            flight: VecDeque::new(alloc),
            sent: 0,
            taken: 0,
        }
    }

    /// Sends a change behind the others. Fewer than 4,294,967,295 changes have to have been sent.
    pub fn send(&mut self, change: Change) -> Result<(), Memory>
        requires { self.old.sent + 1 < 2 ^ 32 }
        ensures ok { OnOk result ((sent : List Change) (taken : ℕ) → HasPassed self.old sent taken → HasPassed self.new (sent ++ change ∷ []) taken) }
        ensures behind { OnOk result (self.new.flight ≡ self.old.flight ++ change ∷ []) }
        ensures counted { OnOk result (self.new.sent ≡ self.old.sent + 1) }
        ensures err { OnErr result (self.new ≡ self.old) }
    {
        self.flight.push_back(change)?;
        self.sent += 1;
        Ok(())
    }

    /// Takes the change that was sent first of those in flight, and answers `None` exactly where nothing is in flight. It
    /// takes no memory.
    pub fn take_front(&mut self) -> Option<Change>
        ensures first { IfSome result (λ change. (sent : List Change) (taken : ℕ) → HasPassed self.old sent taken → (slice_get sent taken ≡ Some change) × HasPassed self.new sent (taken + 1)) }
        ensures front { IfSome result (λ change. self.old.flight ≡ change ∷ self.new.flight) }
        ensures none { IsNone result ↔ (self.old.flight ≡ []) }
        ensures same { IfNone result (self.new ≡ self.old) }
        ensures counted { self.new.sent ≡ self.old.sent }
    {
        let change = self.flight.pop_front()?;
        self.taken += 1;
        Some(change)
    }

    /// How many changes are in flight. It takes no memory.
    pub fn in_flight(&self) -> u32
        ensures { result ≡ length self.now.flight }
    {
        self.sent - self.taken
    }
}
