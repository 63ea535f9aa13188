ghost use Rattle.std.specs.Prelude.{◌≡◌, ◌<◌, true, slice_get};
ghost use Rattle.stream_model.specs.Looks.{in_flight};
ghost use Rattle.session_core.specs.Kept.{CarriesSome, ForCarried, IsEdgeQuiet, IsFlightQuiet};

use crate::{Traffic, Wiring};

impl Traffic {
    /// How many changes are in flight in a channel, and `None` exactly where there is no such channel.
    pub fn in_flight(&self, wiring: &Wiring, edge: u32, from: u32, to: u32) -> Option<u32>
        requires ready { CarriesSome wiring.now self.now }
        ensures { ForCarried wiring.now self.now (λ g limit handed s. result ≡ in_flight g s edge from to) }
    {
        let _feed = wiring.feed(edge)?;
        if !wiring.is_channel(edge, from, to) {
            return None;
        }
        Some(self.channels.in_flight(edge, from, to))
    }

    /// How many changes were taken of a table, and `None` exactly where there is no such table.
    pub fn taken(&self, table: u32) -> Option<u32>
        ensures { result ≡ slice_get self.now.counts.items table }
    {
        self.counts.get(table as usize).copied()
    }

    /// Whether no channel holds a change.
    pub fn is_quiet(&self, wiring: &Wiring) -> bool
        requires ready { CarriesSome wiring.now self.now }
        ensures quiet { ForCarried wiring.now self.now (λ g limit handed s. result ≡ true → IsFlightQuiet g s) }
        ensures busy { ForCarried wiring.now self.now (λ g limit handed s. IsFlightQuiet g s → result ≡ true) }
    {
        for edge in 0..wiring.nodes + 1 {
            if !self.holds_nothing(wiring, edge) {
                return false;
            }
        }
        true
    }

    // Whether an edge feeds no port, or holds no change.
    fn holds_nothing(&self, wiring: &Wiring, edge: u32) -> bool
        requires edge { edge < self.now.channels.edges }
        ensures quiet { ForCarried wiring.now self.now (λ g limit handed s. result ≡ true → IsEdgeQuiet g s edge) }
        ensures busy { ForCarried wiring.now self.now (λ g limit handed s. IsEdgeQuiet g s edge → result ≡ true) }
    {
        match wiring.feed(edge) {
            Some(_) => self.channels.edge_is_quiet(edge),
            None => true,
        }
    }
}
