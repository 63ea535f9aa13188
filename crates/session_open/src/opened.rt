ghost use Rattle.std.specs.Prelude.{ℕ, [], List as Seq, IfOk, IfErr};
ghost use Rattle.ct_value.specs.declared.ty.ColTy.{ColTy};
ghost use Rattle.plan_rules.specs.Plans.{Doing, network_of};
ghost use Rattle.stream_model.specs.Machine.{opened};
ghost use Rattle.session_core.specs.Stands.{StandsFor};
ghost use Rattle.session_open.specs.Opening.{IsOpenable, IsTooMany, MayOpen};

use crate::opening::open_operators;
use crate::sources::sources_of;
use crate::tables::counts_of;
use crate::wiring::wiring_of;
use crate::{OpenFault, PlanOperator, PlanSource};
use ct_value::{ColTys, List};
use phys_plan::Plan;
use session_channels::Channels;
use session_core::{Session, Traffic};
use std::alloc::Global;
use stream_model::PrintList;

/// The session of a plan, with the columns that each node sends and a limit on the changes sent: it stands for the empty run of
/// the plan's network, and has handed out nothing. What nodes open with is sent. `Limit` comes exactly where that is more than
/// the limit.
pub fn open_job<O: PlanOperator, S: PlanSource>(
    alloc: Global,
    plan: &Plan,
    columns: &List<ColTys>,
    limit: u32,
) -> Result<Session<O, S>, OpenFault>
    requires may { MayOpen plan.now columns.now }
    requires ready { (of : ℕ → Seq ColTy) × (doing : ℕ → Doing) × IsOpenable O.runs plan.now columns.now of doing }
    ensures ok { IfOk result (λ session. (of : ℕ → Seq ColTy) (doing : ℕ → Doing) → IsOpenable O.runs plan.now columns.now of doing → StandsFor O.rule O.broken O.stands_for O.takes_pieces S.stands_for (network_of of doing plan.now) limit session [] []) }
    ensures err { IfErr result (λ fault. (of : ℕ → Seq ColTy) (doing : ℕ → Doing) → IsOpenable O.runs plan.now columns.now of doing → IsTooMany limit (opened (network_of of doing plan.now)).sends fault) }
{
    let wiring = wiring_of::<O>(alloc, plan, columns, limit)?;
    let sources = sources_of(alloc, plan)?;
    let counts = counts_of(alloc, plan)?;
    let mut channels = Channels::new(alloc, plan.nodes.len() as u32 + 1, plan.parallelism)?;
    let operators = open_operators(alloc, plan, columns, &wiring, &mut channels)?;
    let traffic = Traffic {
        channels,
        printed: PrintList::new(alloc),
        took: 0,
        counts,
    };
    Ok(Session::new(operators, sources, traffic, wiring))
}
