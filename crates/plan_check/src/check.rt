//! The check of a plan.
ghost use Rattle.std.specs.Prelude.{◌≡◌, true, suc, IfOk, IfErr, OnOk};
ghost use Rattle.phys_plan.specs.declared.plan.Rule.TheVariants as r;
ghost use Rattle.plan_shape.specs.Shape.{is_whole};
ghost use Rattle.plan_check.specs.Checked.{plan_in};
ghost use Rattle.plan_check.specs.Faults.{IsFault, Suffices};
ghost use Rattle.plan_check.specs.Sound.{IsSound, MeetsFirst, first_failing, inferred_of, looked_at, meets, place};

use crate::CheckedPlan;
use crate::known::{Known, all_known, nothing_known, types_known};
use crate::nodes::has_types;
use ct_value::Memory;
use phys_plan::{Plan, Rule};
use plan_inferred::{Inferred, has_keys, has_kinds, has_update, is_exchanged, suits_sink};
use plan_shape::{has_shape, is_whole};
use std::alloc::Global;

/// Why a plan is refused.
#[derive(Clone, Copy, Debug, PartialEq, Eq)]
pub enum PlanFault {
    /// The first rule that a node breaks, and the first node that breaks it.
    Broken { rule: Rule, node: u32 },
    Memory,
}

impl From<Memory> for PlanFault {
    ghost use Rattle.std.specs.Prelude.{◌≡◌};
    ghost use Rattle.plan_check.specs.declared.check.PlanFault.TheVariants.{Memory};

    ghost from_gives = { λ _ fault. fault ≡ Memory };

    fn from(_: Memory) -> Self {
        PlanFault::Memory
    }
}

/// The plan as a checked one, where each of its nodes meets the rules of sound plans; the rules are tested one after the other,
/// each at all nodes. On a refusal the plan is given up.
pub fn check_plan(alloc: Global, plan: Plan) -> Result<CheckedPlan, PlanFault>
    ensures accepted { IfOk result (λ checked. plan_in checked ≡ plan) }
    ensures sound { IfOk result (λ _. IsSound plan) }
    ensures refused { IfErr result (λ fault. IsFault plan fault) }
{
    let inferred = test_plan(alloc, &plan)?;
    Ok(CheckedPlan::new(plan, inferred))
}

// What is inferred of a plan, which is sound.
fn test_plan(alloc: Global, plan: &Plan) -> Result<Inferred, PlanFault>
    ensures sound { OnOk result (IsSound plan.now) }
    ensures known { IfOk result (λ inferred. inferred ≡ inferred_of plan.now) }
    ensures refused { IfErr result (λ fault. IsFault plan.now fault) }
{
    if !is_whole(alloc, plan)? {
        return Err(PlanFault::Broken {
            rule: Rule::Shape,
            node: 1,
        });
    }
    let known = nothing_known(alloc);
    require(alloc, Rule::Shape, plan, &known)?;
    let known = types_known(alloc, plan)?;
    require(alloc, Rule::Types, plan, &known)?;
    test_inferred(alloc, plan, known)
}

// What is inferred of a plan, each of whose nodes says that.
fn test_inferred(alloc: Global, plan: &Plan, known: Known) -> Result<Inferred, PlanFault>
    requires whole { is_whole plan.now ≡ true }
    requires types { Suffices r.Types plan.now known }
    requires earlier { MeetsFirst 2 plan.now }
    ensures sound { OnOk result (IsSound plan.now) }
    ensures known { IfOk result (λ inferred. inferred ≡ inferred_of plan.now) }
    ensures refused { IfErr result (λ fault. IsFault plan.now fault) }
{
    let known = all_known(alloc, plan, known)?;
    require(alloc, Rule::Keys, plan, &known)?;
    require(alloc, Rule::Kinds, plan, &known)?;
    require(alloc, Rule::UpdateKind, plan, &known)?;
    require(alloc, Rule::Exchanged, plan, &known)?;
    require(alloc, Rule::SinkKey, plan, &known)?;
    Ok(known.inferred)
}

// A rule that each node has to meet, behind those before it.
fn require(alloc: Global, rule: Rule, plan: &Plan, known: &Known) -> Result<(), PlanFault>
    requires whole { is_whole plan.now ≡ true }
    requires suffices { Suffices rule plan.now known.now }
    requires earlier { MeetsFirst (place rule) plan.now }
    ensures met { OnOk result (MeetsFirst (suc (place rule)) plan.now) }
    ensures broken { IfErr result (λ fault. IsFault plan.now fault) }
{
    match first_broken(alloc, rule, plan, known)? {
        None => Ok(()),
        Some(node) => Err(PlanFault::Broken { rule, node }),
    }
}

// The first node that breaks a rule.
#[tactic(auto, using(crate::proofs::Firsts::broken_here, crate::proofs::Firsts::met_here))]
fn first_broken(
    alloc: Global,
    rule: Rule,
    plan: &Plan,
    known: &Known,
) -> Result<Option<u32>, Memory>
    requires whole { is_whole plan.now ≡ true }
    requires suffices { Suffices rule plan.now known.now }
    ensures { IfOk result (λ first. first ≡ first_failing (meets rule plan.now) 1 (looked_at plan.now)) }
{
    for i in 0..plan.nodes.len() {
        let number = i as u32 + 1;
        let met = meets(alloc, rule, plan, known, number)?;
        if !met {
            return Ok(Some(number));
        }
    }
    Ok(None)
}

// Whether a node meets a rule.
fn meets(alloc: Global, rule: Rule, plan: &Plan, known: &Known, number: u32) -> Result<bool, Memory>
    requires whole { is_whole plan.now ≡ true }
    requires suffices { Suffices rule plan.now known.now }
    ensures { IfOk result (λ met. met ≡ meets rule plan.now number) }
{
    match rule {
        Rule::Shape => Ok(has_shape(plan, number)),
        Rule::Types => Ok(has_types(plan, &known.types, number)),
        Rule::Keys => Ok(has_keys(&known.inferred, plan, number)),
        Rule::Kinds => Ok(has_kinds(&known.inferred, plan, number)),
        Rule::UpdateKind => Ok(has_update(&known.inferred, plan, number)),
        Rule::Exchanged => is_exchanged(alloc, plan, number),
        Rule::SinkKey => suits_sink(alloc, &known.inferred, plan, number),
    }
}
