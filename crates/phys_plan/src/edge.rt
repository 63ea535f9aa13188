use ct_change::{KindSet, Update};
use ct_value::{Cols, List};

/// To which subtask of its consumer an edge sends a change: to the one of the sender's number, or to that of the values of
/// these columns.
#[derive(Debug, Drop)]
pub enum Exchange {
    Forward,
    Hash(Cols),
}

/// What is known of the edge that leaves a node: its exchange, the kinds that it carries, and how it tells updates.
#[derive(Debug, Drop)]
pub struct Edge {
    pub exchange: Exchange,
    pub kinds: KindSet,
    pub update: Update,
}

/// The edges of a plan; edge e, counted from 1, leaves node e.
pub type Edges = List<Edge>;
