//! The plan of an accepted script.
ghost use Rattle.std.specs.Prelude.{◌≡◌, Ok, IfOk, IfErr};
ghost use Rattle.plan_check.specs.declared.checked.CheckedPlan.{CheckedPlan};
ghost use Rattle.plan_check.specs.Checked.{plan_in};
ghost use Rattle.sound_plans.specs.Sound.{IsRuled};
ghost use Rattle.planner.specs.Planned.{Planned, Says, made};
ghost use Rattle.job_judgement.specs.Halts.{IsHalt};
ghost use Rattle.job_judgement.specs.Judged.{IsJudged};
ghost use Rattle.job_judgement.specs.Views.{accepted_view};
ghost use Rattle.job_plan.specs.Planned.{laid, mini_batch_of, planned};

use ct_catalog::Settings;
use ct_value::{Memory, ScriptCode};
use job_ending::Halt;
use job_judgement::Accepted;
use phys_plan::Plan;
use plan_check::CheckedPlan;
use plan_laying::{LayingFault, plan_of};
use planner::{PlannerFault, plan};
use std::alloc::Global;

/// The plan of an accepted script. The script is refused at its statement by the first of the planner's refusals.
pub fn planned(alloc: Global, script: &Accepted) -> Result<CheckedPlan, Halt>
    requires judged { IsJudged (accepted_view script.now) }
    ensures ok { IfOk result (λ checked. planned (accepted_view script.now) ≡ Ok (plan_in checked)) }
    ensures ruled { IfOk result (λ checked. IsRuled (plan_in checked)) }
    ensures halts { IfErr result (λ halt. IsHalt halt (planned (accepted_view script.now))) }
{
    match made(alloc, script) {
        Ok(checked) => Ok(checked),
        Err(PlannerFault::Refused(code)) => Err(halt_at(script, code)),
        Err(PlannerFault::Memory) => Err(Halt::Memory),
    }
}

// What the planner makes of the plan that is laid of the script's query.
fn made(alloc: Global, script: &Accepted) -> Result<CheckedPlan, PlannerFault>
    requires judged { IsJudged (accepted_view script.now) }
    ensures planned { IfOk result (λ checked. made (laid (accepted_view script.now)) (accepted_view script.now).catalogue.settings.materialize ≡ Planned (plan_in checked)) }
    ensures ruled { IfOk result (λ checked. IsRuled (plan_in checked)) }
    ensures fault { IfErr result (λ fault. Says (made (laid (accepted_view script.now)) (accepted_view script.now).catalogue.settings.materialize) fault) }
{
    let laid = laid_of(alloc, script)?;
    plan(alloc, laid, script.catalog.settings().materialize)
}

// The plan that is laid of the script's query.
fn laid_of(alloc: Global, script: &Accepted) -> Result<Plan, Memory>
    requires judged { IsJudged (accepted_view script.now) }
    ensures { IfOk result (λ plan. plan ≡ laid (accepted_view script.now)) }
{
    let sources = script.inserted.sources.dup()?;
    let sink = script.inserted.sink.dup()?;
    let settings = script.catalog.settings();
    let rel = &script.inserted.query.rel;
    let mini_batch = mini_batch_of(settings);
    let parallelism = settings.parallelism;
    match plan_of(
        alloc,
        rel,
        sources,
        sink,
        parallelism,
        mini_batch,
        settings.two_phase,
    ) {
        Ok(plan) => Ok(plan),
        Err(LayingFault::Memory) => Err(Memory),
        Err(LayingFault::NoTable) => unreachable!(),
    }
}

// How many changes a bundle holds: none where mini-batches are off.
fn mini_batch_of(settings: &Settings) -> u32
    ensures { result ≡ mini_batch_of settings.now }
{
    if settings.batching {
        settings.batch_size
    } else {
        0
    }
}

fn halt_at(script: &Accepted, code: ScriptCode) -> Halt
    ensures { result ≡ Halt.Script code script.now.statement }
{
    Halt::Script {
        code,
        statement: script.statement,
    }
}
