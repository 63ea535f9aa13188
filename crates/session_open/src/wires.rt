use session_channels::Route;
use session_core::Feed;

/// How nodes are joined: into how many subtasks each is split, how many nodes there are, and by edge the port that it feeds
/// and its route,
/// and by node how many changes a bundle of it holds, where it keeps bundles.
#[derive(Drop)]
pub struct Wires {
    pub parallelism: u32,
    pub nodes: u32,
    pub feeds: Vec<Option<Feed>>,
    pub routes: Vec<Route>,
    pub bundles: Vec<Option<u32>>,
}
