//! The kinds of each node's output.
ghost use Rattle.std.specs.Prelude.{◌≡◌, fold, map, IfOk};
ghost use Rattle.phys_plan.specs.Reading.{at, wires};
ghost use Rattle.std.specs.List.{list_any};
ghost use Rattle.mode_infer.specs.Kinds as k;
ghost use Rattle.ct_change.specs.Kinds.{has_more_than_inserts};

use crate::operators::flow_of;
use ct_catalog::TableDef;
use ct_change::KindSet;
use ct_value::{List, Memory};
use phys_plan::{Node, numbered};
use std::alloc::Global;

/// What an edge carries: the kinds that are sent, and those of the rows that they stand for, which are others only above a local group.
#[derive(Clone, Copy, Debug, PartialEq, Eq)]
pub struct Flow {
    pub sent: KindSet,
    pub meant: KindSet,
}

/// What each node sends, as long as no edge leaves out the old rows.
#[tactic(auto, using(phys_plan::proofs::laws::Reading::read_more))]
pub fn flows(alloc: Global, sources: &[TableDef], nodes: &[Node]) -> Result<List<Flow>, Memory>
    ensures { IfOk result (λ table. table ≡ k.flows sources.now (wires nodes.now)) }
{
    let mut done = List::with_capacity(alloc, nodes.len())?;
    for node in nodes {
        let inputs = flows_in(alloc, done.as_slice(), node.inputs.as_slice())?;
        done.push(flow_of(sources, &node.op, inputs.as_slice()))?;
    }
    Ok(done)
}

// What the inputs of these numbers send.
fn flows_in(alloc: Global, done: &[Flow], inputs: &[u32]) -> Result<List<Flow>, Memory>
    ensures { IfOk result (λ flows. flows ≡ map (at k.no_flow done.now) inputs.now) }
{
    let mut flows = List::new(alloc);
    for input in inputs {
        flows.push(flow_at(done, *input))?;
    }
    Ok(flows)
}

/// What the node of a number sends.
pub(crate) fn flow_at(done: &[Flow], number: u32) -> Flow
    ensures { result ≡ at k.no_flow done.now number }
{
    match numbered(done, number) {
        Some(flow) => *flow,
        None => plain(kind_set(false, false, false, false)),
    }
}

// ---- sets of kinds

pub(crate) fn kind_set(i: bool, ub: bool, ua: bool, d: bool) -> KindSet
    ensures { result ≡ k.kind_set i ub ua d }
{
    KindSet { i, ub, ua, d }
}

pub(crate) fn has_more_than_inserts(kinds: KindSet) -> bool
    ensures { result ≡ has_more_than_inserts kinds }
{
    kinds.ub || kinds.ua || kinds.d
}

pub(crate) fn either(one: KindSet, other: KindSet) -> KindSet
    ensures { result ≡ k.either one other }
{
    kind_set(
        one.i || other.i,
        one.ub || other.ub,
        one.ua || other.ua,
        one.d || other.d,
    )
}

pub(crate) fn with_old(kinds: KindSet) -> KindSet
    ensures { result ≡ k.with_old kinds }
{
    kind_set(kinds.i, kinds.ub || kinds.ua, kinds.ua, kinds.d)
}

/// What goes over an edge whose changes stand for themselves.
pub fn plain(kinds: KindSet) -> Flow
    ensures { result ≡ k.plain kinds }
{
    Flow {
        sent: kinds,
        meant: kinds,
    }
}

/// The kinds of any of these inputs.
pub(crate) fn any_kinds(inputs: &[Flow]) -> KindSet
    ensures { result ≡ fold k.either k.no_kinds (map k.sent_of inputs.now) }
{
    let mut kinds = kind_set(false, false, false, false);
    for input in inputs {
        kinds = either(kinds, input.sent);
    }
    kinds
}

pub(crate) fn any_has_more(inputs: &[Flow]) -> bool
    ensures { result ≡ list_any has_more_than_inserts (map k.sent_of inputs.now) }
{
    for input in inputs {
        if has_more_than_inserts(input.sent) {
            return true;
        }
    }
    false
}
