use crate::{Edges, Nodes};
use ct_catalog::{Sources, TableDef};

/// A plan: its tables, its nodes and the edges that leave them, into how many subtasks each node is split, and how many
/// changes a bundle holds, or 0 where there are no bundles.
#[derive(Drop)]
pub struct Plan {
    pub sources: Sources,
    pub sink: TableDef,
    pub nodes: Nodes,
    pub edges: Edges,
    pub parallelism: u32,
    pub mini_batch: u32,
}

/// The rules that a sound plan meets, in the order in which they are tested.
#[derive(Clone, Copy, Debug, PartialEq, Eq)]
pub enum Rule {
    Shape,
    Types,
    Keys,
    Kinds,
    UpdateKind,
    Exchanged,
    SinkKey,
}
