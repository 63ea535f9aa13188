ghost use Rattle.std.specs.Prelude.{◌≡◌, ◌<◌, ◌≤◌, ◌+◌, ◌*◌, ◌^◌, [], All, length, OnOk, IfOk, IfSome, IfNone};
ghost use Rattle.session_channels.specs.Lanes.{IsSent, IsTaken, flight_in};

use ct_change::Change;
use ct_value::Memory;
use route::Channel;
use std::alloc::Global;

/// The channels of a job, (edge, from, to) for each edge and each two subtasks, and how many changes were ever put in them.
/// Edges have numbers below `edges`, subtasks below `width`.
#[derive(Drop)]
pub struct Channels {
    pub edges: usize,
    pub width: usize,
    pub sent: u32,
    pub lanes: Vec<Channel>,
    ghost counted: { sent < 2 ^ 32 },
    ghost few: { edges < 1000 },
    ghost narrow: { width < 17 },
    ghost sized: { length lanes.items ≡ edges * width * width },
    ghost short: { All (λ lane. lane.sent ≤ sent) lanes.items },
}

impl Channels {
    /// Channels in which nothing is in flight.
    pub fn new(alloc: Global, edges: u32, width: u32) -> Result<Channels, Memory>
        requires few { edges < 1000 }
        requires narrow { width < 17 }
        ensures width { IfOk result (λ made. made.width ≡ width) }
        ensures edges { IfOk result (λ made. made.edges ≡ edges) }
        ensures sent { IfOk result (λ made. made.sent ≡ 0) }
        ensures flight { IfOk result (λ made. flight_in made.width made.lanes.items ≡ (λ e i j. [])) }
    {
        let count = edges as usize * width as usize * width as usize;
        let mut lanes = Vec::new(alloc);
        for made in 0..count {
            lanes.push(Channel::new(alloc))?;
        }
        Ok(Channels {
            edges: edges as usize,
            width: width as usize,
            sent: 0,
            lanes,
        })
    }

    /// Puts a change into a channel.
    pub fn send(&mut self, edge: u32, from: u32, to: u32, change: Change) -> Result<(), Memory>
        requires edge { edge < self.old.edges }
        requires from { from < self.old.width }
        requires to { to < self.old.width }
        requires room { self.old.sent + 1 < 2 ^ 32 }
        ensures ok { OnOk result (IsSent (flight_in self.old.width self.old.lanes.items) (flight_in self.new.width self.new.lanes.items) edge from to change) }
        ensures sent { OnOk result (self.new.sent ≡ self.old.sent + 1) }
        ensures width { self.new.width ≡ self.old.width }
        ensures edges { self.new.edges ≡ self.old.edges }
    {
        self.sent += 1;
        let place = self.place(edge, from, to);
        if let Some(lane) = self.lanes.get_mut(place) {
            lane.send(change)?;
        }
        Ok(())
    }

    /// Takes the front of a channel.
    pub fn take_front(&mut self, edge: u32, from: u32, to: u32) -> Option<Change>
        requires edge { edge < self.old.edges }
        requires from { from < self.old.width }
        requires to { to < self.old.width }
        ensures some { IfSome result (λ change. IsTaken (flight_in self.old.width self.old.lanes.items) (flight_in self.new.width self.new.lanes.items) edge from to change) }
        ensures none { IfNone result (flight_in self.old.width self.old.lanes.items edge from to ≡ []) }
        ensures sent { self.new.sent ≡ self.old.sent }
        ensures width { self.new.width ≡ self.old.width }
        ensures edges { self.new.edges ≡ self.old.edges }
    {
        let place = self.place(edge, from, to);
        match self.lanes.get_mut(place) {
            Some(lane) => lane.take_front(),
            None => None,
        }
    }

    /// How many changes are in flight in a channel.
    pub fn in_flight(&self, edge: u32, from: u32, to: u32) -> u32
        requires edge { edge < self.now.edges }
        requires from { from < self.now.width }
        requires to { to < self.now.width }
        ensures { result ≡ length (flight_in self.now.width self.now.lanes.items edge from to) }
    {
        let place = self.place(edge, from, to);
        self.lanes[place].in_flight()
    }

    // Where a channel stands.
    fn place(&self, edge: u32, from: u32, to: u32) -> usize
        requires edge { edge < self.now.edges }
        requires from { from < self.now.width }
        requires to { to < self.now.width }
        ensures is { result ≡ (edge * self.now.width + from) * self.now.width + to }
        ensures within { result < length self.now.lanes.items }
    {
        (edge as usize * self.width + from as usize) * self.width + to as usize
    }
}
