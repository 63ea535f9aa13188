ghost use Rattle.std.specs.Prelude.{◌≡◌, ℕ, ◌+◌, ◌<◌, ◌∷◌, drop, length, slice_get, option_copied, Some, IfOk, IfSome};
ghost use Rattle.stream_model.specs.Network.{Network};
ghost use Rattle.stream_model.specs.Machine as machine;
ghost use Rattle.stream_model.specs.Drain.{stages};
ghost use Rattle.session_core.specs.LaidOut.{IsLaidOut, IsStageThere, feed_of, stage_of, taker_of};

use crate::{Feed, Stage, TableWiring, Wiring};
use ct_value::{ColTys, Memory};

impl Wiring {
    /// The port that an edge feeds.
    pub fn feed(&self, edge: u32) -> Option<Feed>
        ensures { (g : Network) (limit : ℕ) → IsLaidOut self.now g limit → feed_of result ≡ g.fed edge }
    {
        match self.feeds.get(edge as usize) {
            Some(feed) => *feed,
            None => None,
        }
    }

    /// Whether an edge has this channel. The edge has to be there.
    pub fn is_channel(&self, edge: u32, from: u32, to: u32) -> bool
        requires edge { edge < length self.now.routes.items }
        ensures { (g : Network) (limit : ℕ) → IsLaidOut self.now g limit → result ≡ machine.is_channel g edge from to }
    {
        from < self.parallelism && to < self.parallelism && self.joins(edge, from, to)
    }

    // Whether an edge's exchange has a channel from one subtask to the other.
    fn joins(&self, edge: u32, from: u32, to: u32) -> bool
        requires edge { edge < length self.now.routes.items }
        ensures { (g : Network) (limit : ℕ) → IsLaidOut self.now g limit → result ≡ machine.has_channel (g.edge edge).exchange from to }
    {
        self.routes[edge as usize].joins(from, to)
    }

    /// Whether there is such a subtask.
    pub fn is_place(&self, node: u32, subtask: u32) -> bool
        ensures { (g : Network) (limit : ℕ) → IsLaidOut self.now g limit → result ≡ machine.is_place g node subtask }
    {
        node > 0 && node <= self.nodes && subtask < self.parallelism
    }

    /// What is kept of a table.
    pub fn table(&self, number: u32) -> Option<&TableWiring>
        ensures value { option_copied result ≡ slice_get self.now.tables.items number }
        ensures found { IfSome result (λ table. slice_get self.now.tables.items number ≡ Some table.now) }
    {
        self.tables.get(number as usize)
    }

    /// The types of the row at which a node is out of range.
    pub fn types_of(&self, node: u32) -> Result<ColTys, Memory>
        requires { node < length self.now.types.items }
        ensures { IfOk result (λ types. (g : Network) (limit : ℕ) → IsLaidOut self.now g limit → types ≡ g.range_types node) }
    {
        self.types[node as usize].dup()
    }

    /// How many changes a bundle of a node holds, where it keeps bundles.
    pub fn bundle(&self, node: u32) -> Option<u32>
        ensures { (g : Network) (limit : ℕ) → IsLaidOut self.now g limit → result ≡ g.bundle node }
    {
        match self.bundles.get(node as usize) {
            Some(size) => *size,
            None => None,
        }
    }

    /// The subtask that takes what a stage of a drain delivers, or whose bundle is flushed: its node, and its number there. `None`
    /// exactly where it delivers a channel of an edge that feeds no node.
    pub fn taker(&self, stage: Stage) -> Option<(u32, u32)>
        ensures { (g : Network) (limit : ℕ) → IsLaidOut self.now g limit → result ≡ taker_of g (stage_of stage) }
    {
        match stage {
            Stage::Deliver(lane) => match self.feed(lane.edge) {
                Some(feed) => Some((feed.node, lane.to)),
                None => None,
            },
            Stage::Flush { node, subtask } => Some((node, subtask)),
        }
    }

    /// How many stages a drain has.
    pub fn stage_count(&self) -> usize
        ensures { (g : Network) (limit : ℕ) → IsLaidOut self.now g limit → result ≡ length (stages g) }
    {
        self.stages.len()
    }

    /// The stage of this number, in the order of a drain.
    pub fn stage(&self, number: usize) -> Stage
        requires { number < length self.now.stages.items }
        ensures there { (g : Network) (limit : ℕ) → IsLaidOut self.now g limit → IsStageThere g result }
        ensures next { (g : Network) (limit : ℕ) → IsLaidOut self.now g limit → drop number (stages g) ≡ stage_of result ∷ drop (number + 1) (stages g) }
    {
        self.stages[number]
    }
}
