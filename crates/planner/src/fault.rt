use ct_value::{Memory, ScriptCode};

/// Why a tree gets no plan.
#[derive(Clone, Copy, Debug, PartialEq, Eq)]
pub enum PlannerFault {
    /// The first refusal.
    Refused(ScriptCode),
    Memory,
}

impl From<Memory> for PlannerFault {
    ghost use Rattle.std.specs.Prelude.{◌≡◌};
    ghost use Rattle.planner.specs.declared.fault.PlannerFault.TheVariants.{Memory};

    ghost from_gives = { λ _ fault. fault ≡ Memory };

    fn from(_: Memory) -> Self {
        PlannerFault::Memory
    }
}
