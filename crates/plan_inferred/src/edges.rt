//! The rules of edges.
ghost use Rattle.std.specs.Prelude.{◌≡◌, option_copied, IfOk};
ghost use Rattle.std.specs.List.{list_all};
ghost use Rattle.phys_plan.specs.Reading as p;
ghost use Rattle.plan_inferred.specs.Rules as r;
ghost use Rattle.plan_inferred.specs.Same as s;

use crate::Inferred;
use ct_change::{KindSet, Update};
use ct_value::Memory;
use mode_infer::{EdgeMode, asked, is_input, needs_old_rows, port_of};
use phys_plan::{Edge, Exchange, Node, Plan, numbered};
use std::alloc::Global;

/// Whether the edge that leaves a node, by its number, from 1, carries the kinds that are inferred of it.
pub fn has_kinds(inferred: &Inferred, plan: &Plan, number: u32) -> bool
    ensures { result ≡ r.has_kinds inferred.now plan.now number }
{
    let mode = numbered(inferred.modes.as_slice(), number);
    says_kinds(mode, numbered(plan.edges.as_slice(), number))
}

fn says_kinds(mode: Option<&EdgeMode>, edge: Option<&Edge>) -> bool
    ensures { result ≡ r.says_kinds (option_copied mode.entry) (option_copied edge.entry) }
{
    match edge {
        None => true,
        Some(edge) => match mode {
            None => false,
            Some(mode) => same_kinds(mode.kinds, edge.kinds),
        },
    }
}

fn same_kinds(kinds: KindSet, other: KindSet) -> bool
    ensures { result ≡ s.same_kinds kinds other }
{
    kinds.i == other.i && kinds.ub == other.ub && kinds.ua == other.ua && kinds.d == other.d
}

// ---- updates

/// Whether the edge that leaves a node, by its number, from 1, tells updates as it is inferred, and the node gets the old rows of
/// updates where it needs them.
pub fn has_update(inferred: &Inferred, plan: &Plan, number: u32) -> bool
    ensures { result ≡ r.has_update inferred.now plan.now number }
{
    let mode = numbered(inferred.modes.as_slice(), number);
    says_update(mode, numbered(plan.edges.as_slice(), number))
        && has_old_rows(
            plan.edges.as_slice(),
            numbered(plan.nodes.as_slice(), number),
        )
}

fn says_update(mode: Option<&EdgeMode>, edge: Option<&Edge>) -> bool
    ensures { result ≡ r.says_update (option_copied mode.entry) (option_copied edge.entry) }
{
    match edge {
        None => true,
        Some(edge) => match mode {
            None => false,
            Some(mode) => same_update(&mode.update, &edge.update),
        },
    }
}

fn same_update(update: &Update, other: &Update) -> bool
    ensures { result ≡ s.same_update update.now other.now }
{
    match update {
        Update::Absent => matches!(other, Update::Absent),
        Update::After(key) => match other {
            Update::After(by) => key.as_slice() == by.as_slice(),
            Update::Absent | Update::Both => false,
        },
        Update::Both => matches!(other, Update::Both),
    }
}

fn has_old_rows(edges: &[Edge], node: Option<&Node>) -> bool
    ensures { result ≡ r.has_old_rows edges.now (option_copied node.entry) }
{
    match node {
        None => true,
        Some(node) => {
            !needs_old_rows(&node.op) || all_bring_old_rows(edges, node.inputs.as_slice())
        }
    }
}

fn all_bring_old_rows(edges: &[Edge], inputs: &[u32]) -> bool
    ensures { result ≡ list_all (λ input. r.brings_old_rows (p.numbered edges.now input)) inputs.now }
{
    inputs
        .iter()
        .all(|input| brings_old_rows(numbered(edges, *input)))
}

fn brings_old_rows(edge: Option<&Edge>) -> bool
    ensures { result ≡ r.brings_old_rows (option_copied edge.entry) }
{
    match edge {
        None => true,
        Some(edge) => !matches!(edge.update, Update::After(_)),
    }
}

// ---- exchanges

/// Whether the edge that leaves a node, by its number, from 1, goes as the node that it feeds asks for it.
pub fn is_exchanged(alloc: Global, plan: &Plan, number: u32) -> Result<bool, Memory>
    ensures { IfOk result (λ exchanged. exchanged ≡ r.is_exchanged plan.now number) }
{
    match numbered(plan.edges.as_slice(), number) {
        None => Ok(true),
        Some(edge) => {
            let to = consumer(number, plan.nodes.as_slice());
            let exchange = exchange_by(alloc, number, to)?;
            Ok(same_exchange(&exchange, &edge.exchange))
        }
    }
}

fn exchange_by(alloc: Global, number: u32, to: Option<&Node>) -> Result<Exchange, Memory>
    ensures { IfOk result (λ exchange. exchange ≡ r.exchange_by number (option_copied to.entry)) }
{
    match to {
        None => Ok(Exchange::Forward),
        Some(node) => {
            let port = port_of(number, node.inputs.as_slice());
            match asked(alloc, &node.op, port)? {
                None => Ok(Exchange::Forward),
                Some(cols) => Ok(Exchange::Hash(cols)),
            }
        }
    }
}

// The first node that has a number among its inputs.
#[tactic(auto, using(crate::proofs::Walks::found_here))]
fn consumer(number: u32, nodes: &[Node]) -> Option<&Node>
    ensures { option_copied result ≡ r.consumer number nodes.now }
{
    for node in nodes {
        if is_input(number, node.inputs.as_slice()) {
            return Some(node);
        }
    }
    None
}

fn same_exchange(exchange: &Exchange, other: &Exchange) -> bool
    ensures { result ≡ s.same_exchange exchange.now other.now }
{
    match exchange {
        Exchange::Forward => matches!(other, Exchange::Forward),
        Exchange::Hash(cols) => match other {
            Exchange::Hash(others) => cols.as_slice() == others.as_slice(),
            Exchange::Forward => false,
        },
    }
}
