//! What an operator asks of its inputs.
ghost use Rattle.std.specs.Prelude.{◌≡◌, option_copied};
ghost use Rattle.std.specs.List.{list_all};
ghost use Rattle.plan_rules.specs.Plans.{kinds_in};
ghost use Rattle.phys_plan.specs.Reading.{numbered, first_input};
ghost use Rattle.plan_shape.specs.Shape as s;

use crate::node_columns::takes;
use crate::tables::is_upsert;
use ct_catalog::TableDef;
use ct_change::KindSet;
use ct_value::{Cols, List, Numbers};
use phys_plan::{Edge, Node, Op, Plan};
use rel_algebra::{Agg, AggCall};

/// Whether a node has as many inputs as its operator takes, and those that it may have.
pub(crate) fn is_fed(plan: &Plan, node: &Node) -> bool
    ensures { result ≡ s.is_fed plan.now node.now }
{
    let input = first_input(&node.inputs);
    takes(&node.op, node.inputs.len())
        && suits_input(
            plan.sources.as_slice(),
            &node.op,
            op_at(&plan.nodes, input),
            kinds_at(&plan.edges, input),
        )
}

fn first_input(inputs: &Numbers) -> u32
    ensures { result ≡ first_input inputs.now }
{
    match inputs.get(0) {
        None => 0,
        Some(input) => *input,
    }
}

// The operator of a node, by its number.
fn op_at(nodes: &List<Node>, number: u32) -> Option<&Op>
    ensures { option_copied result ≡ s.op_in (numbered nodes.now number) }
{
    if number == 0 {
        return None;
    }
    match nodes.get(number as usize - 1) {
        None => None,
        Some(node) => Some(&node.op),
    }
}

// The kinds of an edge, by its number.
fn kinds_at(edges: &List<Edge>, number: u32) -> KindSet
    ensures { result ≡ kinds_in (numbered edges.now number) }
{
    match edge_at(edges, number) {
        None => KindSet {
            i: false,
            ub: false,
            ua: false,
            d: false,
        },
        Some(edge) => edge.kinds,
    }
}

fn edge_at(edges: &List<Edge>, number: u32) -> Option<&Edge>
    ensures { option_copied result ≡ numbered edges.now number }
{
    if number == 0 {
        return None;
    }
    edges.get(number as usize - 1)
}

// Whether an operator may stand on one with such an edge.
fn suits_input(sources: &[TableDef], op: &Op, below: Option<&Op>, kinds: KindSet) -> bool
    ensures { result ≡ s.suits_input sources.now op.now (option_copied below.entry) kinds }
{
    match op {
        Op::Normalize { key } => scans_by(sources, key, below),
        Op::LocalGroup { aggs, .. } => have_parts(kinds, aggs.as_slice()),
        _ => true,
    }
}

// Whether an operator scans an upsert table of this key.
fn scans_by(sources: &[TableDef], key: &Cols, below: Option<&Op>) -> bool
    ensures { result ≡ s.scans_by sources.now key.now (option_copied below.entry) }
{
    match below {
        Some(Op::Scan { source }) => is_upsert_by(key, sources.get(*source as usize)),
        _ => false,
    }
}

fn is_upsert_by(key: &Cols, table: Option<&TableDef>) -> bool
    ensures { result ≡ s.is_upsert_by key.now (option_copied table.entry) }
{
    match table {
        None => false,
        Some(table) => is_upsert(table.mode) && is_keyed_by(key, &table.key),
    }
}

fn is_keyed_by(key: &Cols, of_table: &Option<Cols>) -> bool
    ensures { result ≡ s.is_keyed_by key.now of_table.now }
{
    match of_table {
        None => false,
        Some(of_table) => key.as_slice() == of_table.as_slice(),
    }
}

/// Whether parts of each of these calls can be summed up, over changes of these kinds.
pub fn have_parts(kinds: KindSet, aggs: &[Agg]) -> bool
    ensures { result ≡ list_all (λ agg. s.has_parts kinds agg.call) aggs.now }
{
    aggs.iter().all(|agg| has_parts(kinds, agg.call))
}

// Whether parts of a call can be summed up.
fn has_parts(kinds: KindSet, call: AggCall) -> bool
    ensures { result ≡ s.has_parts kinds call }
{
    match call {
        AggCall::CountAll | AggCall::Count | AggCall::Sum | AggCall::Avg => true,
        AggCall::CountDistinct => false,
        AggCall::Min | AggCall::Max => only_inserts(kinds),
    }
}

fn only_inserts(kinds: KindSet) -> bool
    ensures { result ≡ s.only_inserts kinds }
{
    kinds.i && !kinds.ub && !kinds.ua && !kinds.d
}
