ghost use Rattle.std.specs.Prelude.{◌≡◌, ◌<◌, ◌+◌, ◌^◌, ℕ, All, None, get_or, length, IfOk};
ghost use Rattle.plan_rules.specs.Plans as plans;
ghost use Rattle.session_core.specs.LaidOut.{feed_of};

use ct_value::{Memory, Numbers};
use phys_plan::Nodes;
use session_core::Feed;
use std::alloc::Global;

/// The port that each edge of a plan feeds, by the edge's number.
pub fn feeds_of(alloc: Global, nodes: &Nodes) -> Result<Vec<Option<Feed>>, Memory>
    requires few { length nodes.now < 999 }
    requires small { All (λ node. length node.inputs < 2 ^ 32) nodes.now }
    ensures many { IfOk result (λ feeds. length feeds.items ≡ length nodes.now + 1) }
    ensures feeds { IfOk result (λ feeds. (e : ℕ) → e < length nodes.now + 1 → feed_of (get_or feeds.items e None) ≡ plans.feed_from 1 e nodes.now) }
{
    let mut feeds = Vec::new(alloc);
    for edge in 0..nodes.len() as u32 + 1 {
        feeds.push(first_fed(nodes, edge))?;
    }
    Ok(feeds)
}

// The first port that an edge feeds.
fn first_fed(nodes: &Nodes, edge: u32) -> Option<Feed>
    requires few { length nodes.now < 999 }
    requires small { All (λ node. length node.inputs < 2 ^ 32) nodes.now }
    ensures { feed_of result ≡ plans.feed_from 1 edge nodes.now }
{
    for done in 0..nodes.len() {
        if let Some(port) = port_of(&nodes.as_slice()[done].inputs, edge) {
            return Some(Feed {
                node: done as u32 + 1,
                port,
            });
        }
    }
    None
}

// The first port of a node that an edge feeds.
fn port_of(inputs: &Numbers, edge: u32) -> Option<u32>
    requires { length inputs.now < 2 ^ 32 }
    ensures { result ≡ plans.port_of edge inputs.now }
{
    for port in 0..inputs.len() {
        if inputs.as_slice()[port] == edge {
            return Some(port as u32);
        }
    }
    None
}
