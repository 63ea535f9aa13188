use ct_value::{ColTys, Cols};
use session_channels::{KeyRoute, Route};
use std::alloc::Global;

/// A port of a node.
#[derive(Clone, Copy, Debug, PartialEq, Eq)]
pub struct Feed {
    pub node: u32,
    pub port: u32,
}

/// A channel: an edge, and the subtasks at its two ends.
#[derive(Clone, Copy, Debug, PartialEq, Eq)]
pub struct Lane {
    pub edge: u32,
    pub from: u32,
    pub to: u32,
}

/// A stage of a drain: a channel is delivered whole, or a subtask's bundle is flushed.
#[derive(Clone, Copy, Debug, PartialEq, Eq)]
pub enum Stage {
    Deliver(Lane),
    Flush { node: u32, subtask: u32 },
}

/// How a table's changes are spread over the subtasks of its scans, and the numbers of these scans.
#[derive(Drop)]
pub struct TableWiring {
    pub spread: KeyRoute,
    pub scans: Cols,
}

/// How a job is wired, laid out for look-ups by number: into how many subtasks each node is split, how many nodes there are,
/// how many changes may be sent; by edge the port that it feeds and its route; the tables; by node the types of the rows at
/// which it is out of range, and how many changes a bundle of it holds, where it keeps bundles; and the stages of a drain in order.
#[derive(Drop)]
pub struct Wiring {
    pub alloc: Global,
    pub parallelism: u32,
    pub nodes: u32,
    pub limit: u32,
    pub feeds: Vec<Option<Feed>>,
    pub routes: Vec<Route>,
    pub tables: Vec<TableWiring>,
    pub types: Vec<ColTys>,
    pub bundles: Vec<Option<u32>>,
    pub stages: Vec<Stage>,
}
