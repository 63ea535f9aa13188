ghost use Rattle.std.specs.Prelude.{◌≡◌, ◌<◌, ◌+◌, ◌^◌, [], ℕ, All, List, Some, length, OnOk};
ghost use Rattle.ct_change.specs.declared.change.Change.{Change};
ghost use Rattle.op_rules.specs.Edges.{Edge};
ghost use Rattle.session_channels.specs.Routes.{IsWide, RoutesFor};
ghost use Rattle.session_channels.specs.Sending.{AllRoute, Carry, MayScan, ScansMore, SendsMore, scanned_by, sent_by};

use crate::{Channels, Route, goes_to};
use ct_change::{Change, Changes};
use ct_value::{Cols, Memory};
use std::alloc::Global;
use std::mem::swap;

/// A subtask sends changes through an edge, each to the subtask that the edge's exchange says, and leaves their list empty; where they
/// are two at most, it keeps its memory.
pub fn send_all(
    alloc: Global,
    channels: &mut Channels,
    route: &Route,
    edge: u32,
    from: u32,
    changes: &mut Changes,
) -> Result<(), Memory>
    requires edge { edge < channels.old.edges }
    requires from { from < channels.old.width }
    requires room { channels.old.sent + length changes.old < 2 ^ 32 }
    requires wide { All (λ change. IsWide route.now change.row) changes.old }
    ensures emptied { OnOk result (changes.new ≡ []) }
    ensures ok { OnOk result ((of : Edge) (flight : ℕ → ℕ → ℕ → List Change) → RoutesFor channels.old.width route.now of → Carry channels.old flight → Carry channels.new (sent_by of flight edge from changes.old)) }
    ensures sent { OnOk result (channels.new.sent ≡ channels.old.sent + length changes.old) }
    ensures width { channels.new.width ≡ channels.old.width }
    ensures edges { channels.new.edges ≡ channels.old.edges }
{
    let Some(last) = changes.pop() else {
        return Ok(());
    };
    if changes.is_empty() {
        return send_one(alloc, channels, route, edge, from, last);
    }
    if changes.len() == 1 {
        if let Some(first) = changes.pop() {
            send_one(alloc, channels, route, edge, from, first)?;
        }
        return send_one(alloc, channels, route, edge, from, last);
    }
    changes.push(last)?;
    let mut list = changes.beside();
    swap(&mut list, changes);
    send_list(alloc, channels, route, edge, from, list)
}

// The same of a list.
fn send_list(
    alloc: Global,
    channels: &mut Channels,
    route: &Route,
    edge: u32,
    from: u32,
    changes: Changes,
) -> Result<(), Memory>
    requires edge { edge < channels.old.edges }
    requires from { from < channels.old.width }
    requires room { channels.old.sent + length changes < 2 ^ 32 }
    requires wide { All (λ change. IsWide route.now change.row) changes }
    ensures ok { OnOk result ((of : Edge) (flight : ℕ → ℕ → ℕ → List Change) → RoutesFor channels.old.width route.now of → Carry channels.old flight → Carry channels.new (sent_by of flight edge from changes)) }
    ensures sent { OnOk result (channels.new.sent ≡ channels.old.sent + length changes) }
    ensures width { channels.new.width ≡ channels.old.width }
    ensures edges { channels.new.edges ≡ channels.old.edges }
{
    for change in changes {
        send_one(alloc, channels, route, edge, from, change)?;
    }
    Ok(())
}

// A subtask sends one change more.
fn send_one(
    alloc: Global,
    channels: &mut Channels,
    route: &Route,
    edge: u32,
    from: u32,
    change: Change,
) -> Result<(), Memory>
    requires edge { edge < channels.old.edges }
    requires from { from < channels.old.width }
    requires room { channels.old.sent + 1 < 2 ^ 32 }
    requires wide { IsWide route.now change.row }
    ensures ok { OnOk result (SendsMore channels.old channels.new route.now edge from change) }
    ensures sent { OnOk result (channels.new.sent ≡ channels.old.sent + 1) }
    ensures width { channels.new.width ≡ channels.old.width }
    ensures edges { channels.new.edges ≡ channels.old.edges }
{
    let to = goes_to(alloc, route, channels.width as u32, from, &change.row)?;
    channels.send(edge, from, to, change)?;
    Ok(())
}

/// The scans of these numbers send a change, each at the same subtask: the last one sends the change itself, the others
/// copies.
pub fn scan_all(
    alloc: Global,
    channels: &mut Channels,
    routes: &Vec<Route>,
    scans: &Cols,
    from: u32,
    change: Change,
) -> Result<(), Memory>
    requires from { from < channels.old.width }
    requires room { channels.old.sent + length scans.now < 2 ^ 32 }
    requires scans { All (λ scan. MayScan channels.old.edges routes.now.items scan change.row) scans.now }
    ensures ok { OnOk result ((edges : ℕ → Edge) (flight : ℕ → ℕ → ℕ → List Change) → AllRoute channels.old.width routes.now.items edges → Carry channels.old flight → Carry channels.new (scanned_by edges from change flight scans.now)) }
    ensures sent { OnOk result (channels.new.sent ≡ channels.old.sent + length scans.now) }
    ensures width { channels.new.width ≡ channels.old.width }
    ensures edges { channels.new.edges ≡ channels.old.edges }
{
    let count = scans.len();
    if count == 0 {
        return Ok(());
    }
    for done in 0..count - 1 {
        let copy = change.dup()?;
        scan_one(alloc, channels, routes, scans, done, from, copy)?;
    }
    scan_one(alloc, channels, routes, scans, count - 1, from, change)?;
    Ok(())
}

// The scan of this number in the list sends a change, after those before it.
fn scan_one(
    alloc: Global,
    channels: &mut Channels,
    routes: &Vec<Route>,
    scans: &Cols,
    number: usize,
    from: u32,
    change: Change,
) -> Result<(), Memory>
    requires from { from < channels.old.width }
    requires room { channels.old.sent + 1 < 2 ^ 32 }
    requires number { number < length scans.now }
    requires scans { All (λ scan. MayScan channels.old.edges routes.now.items scan change.row) scans.now }
    ensures ok { OnOk result (ScansMore channels.old channels.new routes.now.items scans.now number from change) }
    ensures sent { OnOk result (channels.new.sent ≡ channels.old.sent + 1) }
    ensures width { channels.new.width ≡ channels.old.width }
    ensures edges { channels.new.edges ≡ channels.old.edges }
{
    let scan = scans.as_slice()[number];
    let route = &routes[scan as usize];
    send_one(alloc, channels, route, scan, from, change)?;
    Ok(())
}
