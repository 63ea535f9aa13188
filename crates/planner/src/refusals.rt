//! The first refusal of a plan.
ghost use Rattle.std.specs.Prelude.{◌≡◌, false, IfOk};
ghost use Rattle.planner.specs.Refusals as r;

use crate::sinks::{brings_null, changes_rows, has_materializer, sink_way};
use crate::ties::has_ties;
use ct_catalog::Materialize;
use ct_value::{Memory, ScriptCode};
use phys_plan::Plan;
use plan_inferred::{Inferred, Way};
use std::alloc::Global;

// The most nodes of a plan.
const MOST_NODES: usize = 128;

/// The first refusal of a plan without materializers, by what is inferred of it and by the script's setting for them: `Ties` where rows may tie
/// in a Top-N, `SinkMode` where an append table would get other changes than inserts, `SinkKeyNotUnique` where an upsert table may get
/// several rows under one key, `SinkNull` where NULL may come into a NOT NULL column, `MaterializeOff` where a materializer is needed and the
/// setting is off, `TooManyNodes` where the plan has more than 128 nodes with its materializer; none where none of these is so (Flink
/// documentation, "Configuration", `table.exec.sink.upsert-materialize`).
pub fn refusal(
    alloc: Global,
    inferred: &Inferred,
    plan: &Plan,
    setting: Materialize,
) -> Result<Option<ScriptCode>, Memory>
    ensures { IfOk result (λ code. code ≡ r.refusal inferred.now plan.now setting) }
{
    let ties = has_ties(alloc, inferred, plan.nodes.as_slice())?;
    let way = sink_way(alloc, inferred, plan, setting)?;
    if ties {
        return Ok(Some(ScriptCode::Ties));
    }
    Ok(sink_refusal(inferred, plan, is_off(setting), way))
}

// The first refusal behind ties.
fn sink_refusal(inferred: &Inferred, plan: &Plan, off: bool, way: Way) -> Option<ScriptCode>
    requires { r.has_ties inferred.now plan.now.nodes ≡ false }
    ensures { result ≡ r.first_refusal inferred.now plan.now off way }
{
    if changes_rows(plan.sink.mode, inferred.modes.as_slice()) {
        return Some(ScriptCode::SinkMode);
    }
    if way == Way::Refused {
        return Some(ScriptCode::SinkKeyNotUnique);
    }
    if brings_null(inferred, plan) {
        return Some(ScriptCode::SinkNull);
    }
    if off && way == Way::Materialized {
        return Some(ScriptCode::MaterializeOff);
    }
    if is_large(plan, way) {
        return Some(ScriptCode::TooManyNodes);
    }
    None
}

fn is_off(setting: Materialize) -> bool
    ensures { result ≡ r.is_off setting }
{
    match setting {
        Materialize::None => true,
        Materialize::Auto | Materialize::Force => false,
    }
}

// Whether the plan has more than 128 nodes, with the materializer where there is one.
fn is_large(plan: &Plan, way: Way) -> bool
    ensures { result ≡ r.is_large plan.now way }
{
    if has_materializer(way) {
        plan.nodes.len() >= MOST_NODES
    } else {
        plan.nodes.len() > MOST_NODES
    }
}
