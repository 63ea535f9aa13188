//! How a sink takes what comes.
ghost use Rattle.std.specs.Prelude.{◌≡◌, IfOk};
ghost use Rattle.std.specs.List.{list_any};
ghost use Rattle.planner.specs.Refusals as r;
ghost use Rattle.planner.specs.Tops.{shown_key};

use ct_catalog::Materialize;
use ct_change::Declared;
use ct_value::{Cols, Memory};
use mode_infer::EdgeMode;
use phys_plan::{Node, Plan, numbered};
use plan_check::keep_nulls;
use plan_inferred::{Inferred, Way, first_input, way_at};
use std::alloc::Global;

/// Whether an append table would get other changes than inserts.
pub(crate) fn changes_rows(declared: Declared, modes: &[EdgeMode]) -> bool
    ensures { result ≡ r.changes_rows declared modes.now }
{
    match declared {
        Declared::Append => any_tells_more(modes),
        Declared::Retract | Declared::Upsert => false,
    }
}

fn any_tells_more(modes: &[EdgeMode]) -> bool
    ensures { result ≡ list_any r.tells_more modes.now }
{
    for mode in modes {
        if tells_more(mode) {
            return true;
        }
    }
    false
}

// Whether an edge carries other kinds than +I.
fn tells_more(mode: &EdgeMode) -> bool
    ensures { result ≡ r.tells_more mode.now }
{
    mode.kinds.ub || mode.kinds.ua || mode.kinds.d
}

/// The number of the node below the last.
pub(crate) fn below_sink(nodes: &[Node]) -> u32
    ensures { result ≡ r.below_sink nodes.now }
{
    match nodes.last() {
        None => 0,
        Some(node) => first_input(&node.inputs),
    }
}

/// The way in which the plan's table takes what comes; a table that isn't an upsert table takes it as it is.
pub fn sink_way(
    alloc: Global,
    inferred: &Inferred,
    plan: &Plan,
    setting: Materialize,
) -> Result<Way, Memory>
    ensures { IfOk result (λ way. way ≡ r.sink_way inferred.now plan.now setting) }
{
    match plan.sink.mode {
        Declared::Append | Declared::Retract => Ok(Way::Direct),
        Declared::Upsert => {
            let input = below_sink(plan.nodes.as_slice());
            way_with(alloc, inferred, is_forced(setting), &plan.sink.key, input)
        }
    }
}

fn way_with(
    alloc: Global,
    inferred: &Inferred,
    force: bool,
    key: &Option<Cols>,
    input: u32,
) -> Result<Way, Memory>
    ensures { IfOk result (λ way. way ≡ r.way_with inferred.now force key.now input) }
{
    match key {
        None => Ok(Way::Refused),
        Some(key) => way_at(alloc, inferred, force, key, input),
    }
}

fn is_forced(setting: Materialize) -> bool
    ensures { result ≡ r.is_forced setting }
{
    match setting {
        Materialize::None | Materialize::Auto => false,
        Materialize::Force => true,
    }
}

/// Whether a table that takes its changes in this way is shown what comes by a materializer.
pub fn has_materializer(way: Way) -> bool
    ensures { result ≡ r.has_materializer way }
{
    match way {
        Way::Forced | Way::Materialized => true,
        Way::NewRows | Way::Direct | Way::Refused => false,
    }
}

/// The key of the materializer before a sink with this key that takes what comes in this way, and `None` where there is none.
pub(crate) fn shown_key(way: Way, key: &Option<Cols>) -> Result<Option<Cols>, Memory>
    ensures { IfOk result (λ shown. shown ≡ shown_key way key.now) }
{
    if !has_materializer(way) {
        return Ok(None);
    }
    match key {
        None => Ok(None),
        Some(key) => Ok(Some(key.dup()?)),
    }
}

/// Whether NULL may come where it may not stand in the plan's table.
pub(crate) fn brings_null(inferred: &Inferred, plan: &Plan) -> bool
    ensures { result ≡ r.brings_null inferred.now plan.now }
{
    let input = below_sink(plan.nodes.as_slice());
    match inferred.columns.as_slice().get(input as usize) {
        None => false,
        Some(columns) => !keep_nulls(columns.as_slice(), plan.sink.cols.as_slice()),
    }
}
