//! The keys of all nodes.
ghost use Rattle.std.specs.Prelude.{◌≡◌, ◌+◌, ◌++◌, ◌∷◌, [], length, map, OnOk, IfOk};
ghost use Rattle.phys_plan.specs.Reading.{at, wires, no_keys};
ghost use Rattle.phys_plan.specs.Columns.{columns_in};
ghost use Rattle.upsert_keys.specs.Keys as k;
ghost use Rattle.upsert_keys.specs.Seen as s;

use crate::nodes::keys_of;
use crate::seen::all_seen;
use column_sets::dup_sets;
use ct_catalog::TableDef;
use ct_value::{ColTys, List, Memory, beside};
use phys_plan::{Edge, KeyInfo, Node, Nodes};
use std::alloc::Global;

/// The keys of each node, over the exchanges of the edges. `columns` are those that each node sends, by its number, with an empty
/// list at 0; `sources` are the plan's tables.
#[tactic(auto, using(phys_plan::proofs::laws::Reading::read_more))]
pub fn infer_keys(
    alloc: Global,
    columns: &[ColTys],
    sources: &[TableDef],
    edges: &[Edge],
    nodes: &[Node],
) -> Result<List<KeyInfo>, Memory>
    ensures { IfOk result (λ table. table ≡ k.keys (columns_in columns.now) sources.now edges.now (wires nodes.now)) }
{
    let mut done = List::with_capacity(alloc, nodes.len())?;
    for node in nodes {
        done.push(next_keys(alloc, columns, sources, edges, done.as_slice(), node)?)?;
    }
    Ok(done)
}

// The keys of a node, from those of the nodes so far.
fn next_keys(
    alloc: Global,
    columns: &[ColTys],
    sources: &[TableDef],
    edges: &[Edge],
    done: &[KeyInfo],
    node: &Node,
) -> Result<KeyInfo, Memory>
    ensures { IfOk result (λ keys. keys ≡ k.keys_of sources.now node.now.op (s.all_seen (columns_in columns.now) edges.now node.now.inputs (map (at no_keys done.now) node.now.inputs))) }
{
    let seen = all_seen(alloc, edges, columns, done, node.inputs.as_slice())?;
    keys_of(alloc, sources, &node.op, seen.as_slice())
}

/// The nodes with their keys, from a table of these, in which a node that isn't there has none.
#[tactic(auto, using(crate::proofs::laws::Keys::wires_keyed))]
pub fn set_keys(nodes: Nodes, keys: &[KeyInfo]) -> Result<Nodes, Memory>
    ensures keyed { IfOk result (λ made. made ≡ k.keyed keys.now nodes) }
    ensures same { IfOk result (λ made. wires made ≡ wires nodes) }
{
    let made = keyed(nodes, keys)?;
    Ok(made)
}

fn keyed(nodes: Nodes, keys: &[KeyInfo]) -> Result<Nodes, Memory>
    ensures { IfOk result (λ made. made ≡ k.keyed keys.now nodes) }
{
    let mut made = nodes.beside();
    for node in nodes.into_vec() {
        push_keyed(&mut made, node, keys)?;
    }
    Ok(made)
}

// Puts a node behind others, with its keys.
fn push_keyed(made: &mut Nodes, node: Node, keys: &[KeyInfo]) -> Result<(), Memory>
    ensures { OnOk result (made.new ≡ made.old ++ record { op = node.op; inputs = node.inputs; keys = at no_keys keys.now (length made.old + 1) } ∷ []) }
{
    let (node, own) = beside(node, keys_at(made, keys))?;
    made.push(with_keys(node, own))
}

// The keys of the node behind these.
fn keys_at(made: &Nodes, keys: &[KeyInfo]) -> Result<KeyInfo, Memory>
    ensures { IfOk result (λ own. own ≡ at no_keys keys.now (length made.now + 1)) }
{
    match keys.get(made.len()) {
        Some(own) => copied(own),
        None => Ok(KeyInfo {
            unique: made.beside(),
            local: made.beside(),
            fixing: made.beside(),
        }),
    }
}

fn copied(keys: &KeyInfo) -> Result<KeyInfo, Memory>
    ensures { IfOk result (λ copy. copy ≡ keys.now) }
{
    Ok(KeyInfo {
        unique: dup_sets(&keys.unique)?,
        local: dup_sets(&keys.local)?,
        fixing: dup_sets(&keys.fixing)?,
    })
}

fn with_keys(node: Node, keys: KeyInfo) -> Node
    ensures { result ≡ record { op = node.op; inputs = node.inputs; keys = keys } }
{
    let Node { op, inputs, .. } = node;
    Node { op, inputs, keys }
}
