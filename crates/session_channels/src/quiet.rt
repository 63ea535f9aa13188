ghost use Rattle.std.specs.Prelude.{◌≡◌, ◌<◌, [], true, ℕ};
ghost use Rattle.session_channels.specs.Lanes.{flight_in};

use crate::Channels;

impl Channels {
    /// Whether nothing is in flight on an edge.
    pub fn edge_is_quiet(&self, edge: u32) -> bool
        requires edge { edge < self.now.edges }
        ensures quiet { result ≡ true → (i j : ℕ) → i < self.now.width → j < self.now.width → flight_in self.now.width self.now.lanes.items edge i j ≡ [] }
        ensures busy { ((i j : ℕ) → i < self.now.width → j < self.now.width → flight_in self.now.width self.now.lanes.items edge i j ≡ []) → result ≡ true }
    {
        for from in 0..self.width as u32 {
            if !self.subtask_is_quiet(edge, from) {
                return false;
            }
        }
        true
    }

    // Whether nothing is in flight from a subtask.
    fn subtask_is_quiet(&self, edge: u32, from: u32) -> bool
        requires edge { edge < self.now.edges }
        requires from { from < self.now.width }
        ensures quiet { result ≡ true → (j : ℕ) → j < self.now.width → flight_in self.now.width self.now.lanes.items edge from j ≡ [] }
        ensures busy { ((j : ℕ) → j < self.now.width → flight_in self.now.width self.now.lanes.items edge from j ≡ []) → result ≡ true }
    {
        for to in 0..self.width as u32 {
            if self.in_flight(edge, from, to) > 0 {
                return false;
            }
        }
        true
    }
}
