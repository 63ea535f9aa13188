ghost use Rattle.std.specs.Prelude.{◌≡◌};
ghost use Rattle.plan_check.specs.Sound.{IsSound, inferred_of};

use phys_plan::Plan;
use plan_inferred::Inferred;

/// A plan whose nodes meet the rules of sound plans, and all that is inferred of it.
#[derive(Drop)]
pub struct CheckedPlan {
    plan: Plan,
    inferred: Inferred,
    ghost sound: { IsSound plan },
    ghost known: { inferred ≡ inferred_of plan },
}

impl CheckedPlan {
    ghost use Rattle.plan_check.specs.Checked.{plan_in};

    /// The plan, which is sound, as a checked one: this is what is inferred of it.
    pub fn new(plan: Plan, inferred: Inferred) -> CheckedPlan
        requires sound { IsSound plan }
        requires known { inferred ≡ inferred_of plan }
        ensures { plan_in result ≡ plan }
    {
        CheckedPlan { plan, inferred }
    }

    /// The plan.
    pub fn plan(&self) -> &Plan
        ensures same { result.now ≡ plan_in self.now }
        ensures sound { IsSound result.now }
    {
        &self.plan
    }

    /// The columns of its nodes, their keys, the kinds that they send, their update keys, and the modes of the edges that leave them.
    pub fn inferred(&self) -> &Inferred
        ensures { result.now ≡ inferred_of (plan_in self.now) }
    {
        &self.inferred
    }

    /// The plan, given up by its check.
    pub fn into_plan(self) -> Plan
        ensures same { result ≡ plan_in self }
        ensures sound { IsSound result }
    {
        self.plan
    }
}
