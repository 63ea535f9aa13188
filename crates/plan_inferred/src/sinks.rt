//! The rule of sinks.
ghost use Rattle.std.specs.Prelude.{◌≡◌, option_copied, IfOk};
ghost use Rattle.plan_inferred.specs.Rules as r;
ghost use Rattle.phys_plan.specs.Reading.{first_input};

use crate::{Inferred, Way, way_of};
use ct_change::Declared;
use ct_value::{Cols, Memory, Numbers};
use mode_infer::EdgeMode;
use phys_plan::{Node, Op, Plan, numbered};
use std::alloc::Global;

/// Whether what comes to a node, by its number, from 1, suits the plan's table where the node is a sink.
pub fn suits_sink(
    alloc: Global,
    inferred: &Inferred,
    plan: &Plan,
    number: u32,
) -> Result<bool, Memory>
    ensures { IfOk result (λ suits. suits ≡ r.suits_sink inferred.now plan.now number) }
{
    match numbered(plan.nodes.as_slice(), number) {
        None => Ok(true),
        Some(node) => fills(alloc, inferred, plan, &node.op, &node.inputs),
    }
}

fn fills(
    alloc: Global,
    inferred: &Inferred,
    plan: &Plan,
    op: &Op,
    inputs: &Numbers,
) -> Result<bool, Memory>
    ensures { IfOk result (λ suits. suits ≡ r.fills inferred.now plan.now op.now inputs.now) }
{
    match op {
        Op::Sink => suits_table(alloc, inferred, plan, first_input(inputs)),
        _ => Ok(true),
    }
}

/// The number of the first input; 0, which no node has, where there is none.
pub fn first_input(inputs: &Numbers) -> u32
    ensures { result ≡ first_input inputs.now }
{
    match inputs.get(0) {
        None => 0,
        Some(input) => *input,
    }
}

fn suits_table(alloc: Global, inferred: &Inferred, plan: &Plan, input: u32) -> Result<bool, Memory>
    ensures { IfOk result (λ suits. suits ≡ r.suits_table inferred.now plan.now.nodes plan.now.sink.mode plan.now.sink.key input) }
{
    match plan.sink.mode {
        Declared::Append => Ok(inserts_alone(numbered(inferred.modes.as_slice(), input))),
        Declared::Retract => Ok(true),
        Declared::Upsert => {
            let node = numbered(plan.nodes.as_slice(), input);
            comes_with_key(alloc, inferred, &plan.sink.key, input, node)
        }
    }
}

fn inserts_alone(mode: Option<&EdgeMode>) -> bool
    ensures { result ≡ r.inserts_alone (option_copied mode.entry) }
{
    match mode {
        None => true,
        Some(mode) => !(mode.kinds.ub || mode.kinds.ua || mode.kinds.d),
    }
}

fn comes_with_key(
    alloc: Global,
    inferred: &Inferred,
    key: &Option<Cols>,
    input: u32,
    node: Option<&Node>,
) -> Result<bool, Memory>
    ensures { IfOk result (λ comes. comes ≡ r.comes_with_key inferred.now key.now input (option_copied node.entry)) }
{
    match key {
        None => Ok(false),
        Some(key) => comes_keyed(alloc, inferred, key, input, node),
    }
}

fn comes_keyed(
    alloc: Global,
    inferred: &Inferred,
    key: &Cols,
    input: u32,
    node: Option<&Node>,
) -> Result<bool, Memory>
    ensures { IfOk result (λ comes. comes ≡ r.comes_keyed inferred.now key.now input (option_copied node.entry)) }
{
    match node {
        None => Ok(false),
        Some(node) => comes_by(alloc, inferred, key, input, node),
    }
}

fn comes_by(
    alloc: Global,
    inferred: &Inferred,
    key: &Cols,
    input: u32,
    node: &Node,
) -> Result<bool, Memory>
    ensures { IfOk result (λ comes. comes ≡ r.comes_by inferred.now key.now input node.now.op node.now.inputs) }
{
    match &node.op {
        Op::Materialize { .. } => {
            let way = way_at(alloc, inferred, true, key, first_input(&node.inputs))?;
            Ok(is_shown(way))
        }
        _ => {
            let way = way_at(alloc, inferred, false, key, input)?;
            Ok(is_direct(way))
        }
    }
}

/// The way in which an upsert sink with this key takes the changes of a node, by its number, from 1. `force` tells that the script asks
/// for a materializer.
pub fn way_at(
    alloc: Global,
    inferred: &Inferred,
    force: bool,
    key: &Cols,
    input: u32,
) -> Result<Way, Memory>
    ensures { IfOk result (λ way. way ≡ r.way_at inferred.now force key.now input) }
{
    let Some(flow) = numbered(inferred.flows.as_slice(), input) else {
        return Ok(Way::Refused);
    };
    let Some(update_key) = numbered(inferred.update_keys.as_slice(), input) else {
        return Ok(Way::Refused);
    };
    let Some(keys) = numbered(inferred.keys.as_slice(), input) else {
        return Ok(Way::Refused);
    };
    way_of(alloc, force, key, flow.sent, update_key.as_ref(), keys)
}

fn is_direct(way: Way) -> bool
    ensures { result ≡ r.is_direct way }
{
    match way {
        Way::NewRows | Way::Direct => true,
        Way::Forced | Way::Materialized | Way::Refused => false,
    }
}

fn is_shown(way: Way) -> bool
    ensures { result ≡ r.is_shown way }
{
    match way {
        Way::Forced | Way::Materialized => true,
        Way::NewRows | Way::Direct | Way::Refused => false,
    }
}
