//! How each edge tells updates.
ghost use Rattle.std.specs.Prelude.{◌≡◌, None, Some, length, option_copied, IfOk};
ghost use Rattle.phys_plan.specs.Reading.{at, wires};
ghost use Rattle.mode_infer.specs.Kinds.{no_flow};
ghost use Rattle.mode_infer.specs.Kinds as k;
ghost use Rattle.mode_infer.specs.Updates as u;

use crate::consumers::is_taken;
use crate::kinds::{Flow, flow_at};
use crate::row_keys::key_at;
use ct_catalog::TableDef;
use ct_change::{Declared, KindSet, Update};
use ct_value::{Cols, Memory};
use phys_plan::{Node, Op};
use std::alloc::Global;

/// The updates of the edges of nodes, each found from those behind it.
pub(crate) fn updates_of(
    alloc: Global,
    sources: &[TableDef],
    sink: &TableDef,
    flows: &[Flow],
    keys: &[Option<Cols>],
    nodes: &[Node],
) -> Result<Vec<Update>, Memory>
    ensures { IfOk result (λ updates. updates.items ≡ u.updates_behind sources.now sink.now flows.now keys.now 0 (wires nodes.now)) }
{
    let mut updates = absent(alloc, nodes.len())?;
    let mut rest = nodes.len();
    'node: while rest > 0 {
        let update = update_at(
            alloc,
            sources,
            sink,
            flows,
            keys,
            rest,
            &nodes[rest - 1],
            &nodes[rest..],
            &updates[rest..],
        )?;
        rest -= 1;
        updates[rest] = update;
    }
    Ok(updates)
}

// So many edges that tell no updates.
fn absent(alloc: Global, count: usize) -> Result<Vec<Update>, Memory>
    ensures { IfOk result (λ updates. length updates.items ≡ count) }
{
    let mut updates = Vec::with_capacity(alloc, count)?;
    while updates.len() < count {
        updates.push(Update::Absent)?;
    }
    Ok(updates)
}

// The update of the edge of a node, from the nodes behind it and their edges.
fn update_at(
    alloc: Global,
    sources: &[TableDef],
    sink: &TableDef,
    flows: &[Flow],
    keys: &[Option<Cols>],
    number: usize,
    node: &Node,
    later: &[Node],
    behind: &[Update],
) -> Result<Update, Memory>
    ensures { IfOk result (λ update. update ≡ k.update_of sources.now node.now.op (at no_flow flows.now number).sent (at None keys.now number) (u.is_taken sink.now (at None keys.now number) number (wires later.now) behind.now)) }
{
    let Ok(number) = u32::try_from(number) else {
        return Err(Memory);
    };
    let key = key_at(keys, number);
    let taken = is_taken(alloc, sink, key, number, later, behind)?;
    update_of(sources, &node.op, flow_at(flows, number).sent, key, taken)
}

fn update_of(
    sources: &[TableDef],
    op: &Op,
    kinds: KindSet,
    key: Option<&Cols>,
    taken: bool,
) -> Result<Update, Memory>
    ensures { IfOk result (λ update. update ≡ k.update_of sources.now op.now kinds (option_copied key.entry) taken) }
{
    match op {
        Op::Scan { source } => scan_update(sources.get(*source as usize), kinds),
        Op::Materialize { key: shown } => Ok(Update::After(shown.dup()?)),
        Op::Sink => Ok(Update::Absent),
        _ => told(kinds, key, taken),
    }
}

fn scan_update(table: Option<&TableDef>, kinds: KindSet) -> Result<Update, Memory>
    ensures { IfOk result (λ update. update ≡ k.scan_update (option_copied table.entry) kinds) }
{
    match table {
        None => Ok(in_full(kinds)),
        Some(table) => table_update(table, kinds),
    }
}

// An upsert table tells new rows alone by its key.
fn table_update(table: &TableDef, kinds: KindSet) -> Result<Update, Memory>
    ensures { IfOk result (λ update. update ≡ k.table_update table.now.mode table.now.key kinds) }
{
    match table.mode {
        Declared::Append => Ok(in_full(kinds)),
        Declared::Retract => Ok(in_full(kinds)),
        Declared::Upsert => match &table.key {
            None => Ok(in_full(kinds)),
            Some(key) => Ok(Update::After(key.dup()?)),
        },
    }
}

// New rows alone, where the node has an update key and its consumer takes them so.
fn told(kinds: KindSet, key: Option<&Cols>, taken: bool) -> Result<Update, Memory>
    ensures { IfOk result (λ update. update ≡ k.told kinds (option_copied key.entry) taken) }
{
    match key {
        None => Ok(in_full(kinds)),
        Some(key) => told_by(kinds, key, taken),
    }
}

fn told_by(kinds: KindSet, key: &Cols, taken: bool) -> Result<Update, Memory>
    ensures { IfOk result (λ update. update ≡ k.told kinds (Some key.now) taken) }
{
    if kinds.ua && taken {
        Ok(Update::After(key.dup()?))
    } else {
        Ok(in_full(kinds))
    }
}

// With the old rows, where there are updates.
fn in_full(kinds: KindSet) -> Update
    ensures { result ≡ k.in_full kinds }
{
    if kinds.ua {
        Update::Both
    } else {
        Update::Absent
    }
}
