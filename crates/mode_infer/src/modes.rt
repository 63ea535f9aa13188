//! The mode of each edge.
ghost use Rattle.std.specs.Prelude.{◌≡◌, ◌+◌, IfOk};
ghost use Rattle.phys_plan.specs.Reading.{at, wires};
ghost use Rattle.phys_plan.specs.Columns.{columns_in};
ghost use Rattle.mode_infer.specs.Modes as m;

use crate::kinds::{Flow, flows, kind_set};
use crate::row_keys::update_keys;
use crate::updates::updates_of;
use ct_catalog::TableDef;
use ct_change::{Declared, KindSet, Update};
use ct_value::{ColTys, List, Memory};
use phys_plan::{Edge, Edges, Node, Op, numbered};
use std::alloc::Global;

/// What is inferred of an edge: the kinds that it carries, and how it tells updates. The edge of a sink carries what it prints.
#[derive(Debug, Drop)]
pub struct EdgeMode {
    pub kinds: KindSet,
    pub update: Update,
}

/// The modes of the edges of a plan's nodes (Flink documentation, "Dynamic Tables"). `columns` are those that each node sends, by its number,
/// with an empty list at 0; `sources` are the plan's tables, and `sink` is the one that it fills.
pub fn infer_modes(
    alloc: Global,
    columns: &[ColTys],
    sources: &[TableDef],
    sink: &TableDef,
    nodes: &[Node],
) -> Result<List<EdgeMode>, Memory>
    ensures { IfOk result (λ modes. modes ≡ m.edge_modes (columns_in columns.now) sources.now sink.now (wires nodes.now)) }
{
    let flows = flows(alloc, sources, nodes)?;
    let keys = update_keys(alloc, columns, nodes)?;
    let updates = updates_of(
        alloc,
        sources,
        sink,
        flows.as_slice(),
        keys.as_slice(),
        nodes,
    )?;
    let modes = modes_of(alloc, flows.as_slice(), &updates)?;
    with_sinks(alloc, sink.mode, nodes, modes.as_slice())
}

/// The edges with their modes, from a table of these; an edge without one carries nothing.
pub fn set_modes(edges: Edges, modes: &[EdgeMode]) -> Result<Edges, Memory>
    ensures { IfOk result (λ made. made ≡ m.moded modes.now edges) }
{
    let mut made = edges.beside();
    for edge in edges.into_vec() {
        let own = mode_at(modes, made.len())?;
        made.push(with_mode(edge, own))?;
    }
    Ok(made)
}

// The mode of the edge behind so many others.
fn mode_at(modes: &[EdgeMode], before: usize) -> Result<EdgeMode, Memory>
    ensures { IfOk result (λ own. own ≡ at m.no_mode modes.now (before + 1)) }
{
    match modes.get(before) {
        Some(own) => Ok(EdgeMode {
            kinds: own.kinds,
            update: copied(&own.update)?,
        }),
        None => Ok(EdgeMode {
            kinds: kind_set(false, false, false, false),
            update: Update::Absent,
        }),
    }
}

fn with_mode(edge: Edge, mode: EdgeMode) -> Edge
    ensures { result ≡ record { exchange = edge.exchange; kinds = mode.kinds; update = mode.update } }
{
    let Edge { exchange, .. } = edge;
    let EdgeMode { kinds, update } = mode;
    Edge {
        exchange,
        kinds,
        update,
    }
}

// The kinds of each edge beside how it tells updates.
fn modes_of(alloc: Global, flows: &[Flow], updates: &[Update]) -> Result<List<EdgeMode>, Memory>
    ensures { IfOk result (λ modes. modes ≡ m.modes_of flows.now updates.now) }
{
    let mut modes = List::new(alloc);
    let many = flows.len().min(updates.len());
    for i in 0..many {
        modes.push(mode(flows[i].sent, &updates[i])?)?;
    }
    Ok(modes)
}

fn mode(kinds: KindSet, update: &Update) -> Result<EdgeMode, Memory>
    ensures { IfOk result (λ made. made ≡ m.mode kinds update.now) }
{
    Ok(EdgeMode {
        kinds: edge_kinds(kinds, update),
        update: copied(update)?,
    })
}

// An edge that tells new rows alone has no -U.
fn edge_kinds(kinds: KindSet, update: &Update) -> KindSet
    ensures { result ≡ m.edge_kinds kinds update.now }
{
    match update {
        Update::Absent => kinds,
        Update::After(_) => kind_set(kinds.i, false, kinds.ua, kinds.d),
        Update::Both => kinds,
    }
}

fn copied(update: &Update) -> Result<Update, Memory>
    ensures { IfOk result (λ copy. copy ≡ update.now) }
{
    match update {
        Update::Absent => Ok(Update::Absent),
        Update::After(key) => Ok(Update::After(key.dup()?)),
        Update::Both => Ok(Update::Both),
    }
}

// ---- the sink

// The modes of all edges, from those that they have where a sink counts like any other node.
fn with_sinks(
    alloc: Global,
    declared: Declared,
    nodes: &[Node],
    modes: &[EdgeMode],
) -> Result<List<EdgeMode>, Memory>
    ensures { IfOk result (λ all. all ≡ m.with_sinks declared (wires nodes.now) modes.now) }
{
    let mut all = List::new(alloc);
    let many = nodes.len().min(modes.len());
    for i in 0..many {
        all.push(with_sink(declared, modes, &nodes[i], &modes[i])?)?;
    }
    Ok(all)
}

fn with_sink(
    declared: Declared,
    modes: &[EdgeMode],
    node: &Node,
    own: &EdgeMode,
) -> Result<EdgeMode, Memory>
    ensures { IfOk result (λ mode. mode ≡ m.with_sink declared modes.now node.now.op node.now.inputs own.now) }
{
    match node.op {
        Op::Sink => Ok(sink_mode(declared, modes, node.inputs.as_slice())),
        _ => Ok(EdgeMode {
            kinds: own.kinds,
            update: copied(&own.update)?,
        }),
    }
}

// The edge of a sink has the kinds that it prints, and no updates.
fn sink_mode(declared: Declared, modes: &[EdgeMode], inputs: &[u32]) -> EdgeMode
    ensures { result ≡ m.sink_mode declared modes.now inputs.now }
{
    EdgeMode {
        kinds: printed_of(declared, modes, inputs),
        update: Update::Absent,
    }
}

fn printed_of(declared: Declared, modes: &[EdgeMode], inputs: &[u32]) -> KindSet
    ensures { result ≡ m.printed declared (m.first_mode modes.now inputs.now) }
{
    match inputs {
        [] => kind_set(false, false, false, false),
        [input, ..] => match numbered(modes, *input) {
            Some(mode) => printed(declared, mode),
            None => kind_set(false, false, false, false),
        },
    }
}

// The kinds that a sink prints of what comes over an edge.
fn printed(declared: Declared, input: &EdgeMode) -> KindSet
    ensures { result ≡ m.printed declared input.now }
{
    match declared {
        Declared::Append => input.kinds,
        Declared::Retract => input.kinds,
        Declared::Upsert => upsert_kinds(input.kinds, &input.update),
    }
}

// An upsert sink prints both halves of an update, as +I and -D.
fn upsert_kinds(kinds: KindSet, update: &Update) -> KindSet
    ensures { result ≡ m.upsert_kinds kinds update.now }
{
    match update {
        Update::Absent => kinds,
        Update::After(_) => kinds,
        Update::Both => kind_set(true, false, false, true),
    }
}
