//! A plan made and checked.
ghost use Rattle.std.specs.Prelude.{◌≡◌, None, IfOk, IfErr, OnOk};
ghost use Rattle.ct_catalog.specs.declared.settings.Materialize.{Materialize as Setting};
ghost use Rattle.rel_algebra.specs.Rel.{Rel};
ghost use Rattle.laid_plans.specs.Inferred.{with_inferred};
ghost use Rattle.plan_check.specs.Checked.{plan_in};
ghost use Rattle.plan_check.specs.Sound.{IsSound, inferred_of};
ghost use Rattle.plan_rules.specs.Erased.{erased};
ghost use Rattle.planner.specs.Refusals as r;
ghost use Rattle.planner.specs.Planned.{IsLaidPlan, Planned, Says, made};
ghost use Rattle.plan_laying.specs.Topped.{topped_plan};
ghost use Rattle.planner.specs.Tops.{shown_key, top_of};

use crate::sinks::shown_key;
use crate::sizes::is_plainly_large;
use crate::{PlannerFault, refusal, sink_way};
use ct_catalog::Materialize;
use ct_value::{Cols, Memory, ScriptCode};
use mode_infer::set_modes;
use phys_plan::Plan;
use plan_check::{CheckedPlan, infer_plan};
use plan_inferred::Inferred;
use plan_laying::with_materializer;
use std::alloc::Global;
use upsert_keys::set_keys;

// The most nodes of a plan of which anything is inferred.
const MOST_INFERRED: usize = 1_024;

/// The plan of a tree, from the nodes and exchanges that are laid of it, by the script's setting for materializers: with a materializer before its
/// sink where that takes what comes by one, with the keys that are inferred of each node, and the kinds and updates of each edge. Its algebra is the
/// tree. `Refused` comes with the first refusal: ties, the sink's mode, its key, NULL, a materializer that is off, too many nodes (Flink
/// documentation, "Configuration", `table.exec.sink.upsert-materialize`).
pub fn plan(alloc: Global, laid: Plan, setting: Materialize) -> Result<CheckedPlan, PlannerFault>
    requires { (rel : Rel) × IsLaidPlan laid rel }
    ensures planned { IfOk result (λ checked. made laid setting ≡ Planned (plan_in checked)) }
    ensures erased { IfOk result (λ checked. (rel : Rel) → IsLaidPlan laid rel → erased (plan_in checked) ≡ rel) }
    ensures refused { IfErr result (λ fault. Says (made laid setting) fault) }
{
    test_size(alloc, &laid)?;
    let inferred = infer_plan(alloc, &laid)?;
    let key = test_refusals(alloc, &inferred, &laid, setting)?;
    Ok(finished(alloc, laid, inferred, key)?)
}

// A plan that is refused for its size alone is refused before anything is inferred of it, and a larger one is want of memory.
fn test_size(alloc: Global, laid: &Plan) -> Result<(), PlannerFault>
    ensures { IfErr result (λ fault. (setting : Setting) → Says (made laid.now setting) fault) }
{
    if is_plainly_large(alloc, laid)? {
        return Err(PlannerFault::Refused(ScriptCode::TooManyNodes));
    }
    if laid.nodes.len() > MOST_INFERRED {
        return Err(PlannerFault::Memory);
    }
    Ok(())
}

// Whether the plan is refused; and otherwise the key of the materializer before its sink, if there is one.
fn test_refusals(
    alloc: Global,
    inferred: &Inferred,
    laid: &Plan,
    setting: Materialize,
) -> Result<Option<Cols>, PlannerFault>
    requires { inferred.now ≡ inferred_of laid.now }
    ensures accepted { OnOk result (r.refusal (inferred_of laid.now) laid.now setting ≡ None) }
    ensures shown { IfOk result (λ key. key ≡ shown_key (r.sink_way (inferred_of laid.now) laid.now setting) laid.now.sink.key) }
    ensures refused { IfErr result (λ fault. Says (made laid.now setting) fault) }
{
    if let Some(code) = refusal(alloc, inferred, laid, setting)? {
        return Err(PlannerFault::Refused(code));
    }
    let way = sink_way(alloc, inferred, laid, setting)?;
    Ok(shown_key(way, &laid.sink.key)?)
}

// The plan with a materializer by this key, if there is one, and with what is inferred of it so: of the plan as it is laid that is known.
fn finished(
    alloc: Global,
    laid: Plan,
    inferred: Inferred,
    key: Option<Cols>,
) -> Result<CheckedPlan, Memory>
    requires known { inferred ≡ inferred_of laid }
    requires sound { IsSound (with_inferred (topped_plan (top_of key) laid)) }
    ensures { IfOk result (λ checked. plan_in checked ≡ with_inferred (topped_plan (top_of key) laid)) }
{
    match key {
        None => checked(laid, inferred),
        Some(key) => {
            let shown = with_materializer(alloc, laid, key)?;
            let inferred = infer_plan(alloc, &shown)?;
            checked(shown, inferred)
        }
    }
}

// The plan with what is inferred of it: that is inferred of the plan with it too.
fn checked(laid: Plan, inferred: Inferred) -> Result<CheckedPlan, Memory>
    requires known { inferred ≡ inferred_of laid }
    requires sound { IsSound (with_inferred laid) }
    ensures { IfOk result (λ checked. plan_in checked ≡ with_inferred laid) }
{
    let plan = with_inferred(laid, &inferred)?;
    Ok(CheckedPlan::new(plan, inferred))
}

fn with_inferred(laid: Plan, inferred: &Inferred) -> Result<Plan, Memory>
    requires { inferred.now ≡ inferred_of laid }
    ensures { IfOk result (λ plan. plan ≡ with_inferred laid) }
{
    let Plan {
        sources,
        sink,
        nodes,
        edges,
        parallelism,
        mini_batch,
    } = laid;
    Ok(Plan {
        sources,
        sink,
        nodes: set_keys(nodes, inferred.keys.as_slice())?,
        edges: set_modes(edges, inferred.modes.as_slice())?,
        parallelism,
        mini_batch,
    })
}
