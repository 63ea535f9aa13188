ghost use Rattle.std.specs.Prelude.{ℕ, List as Seq, [], IfOk};
ghost use Rattle.ct_value.specs.declared.ty.ColTy.{ColTy};
ghost use Rattle.plan_rules.specs.Plans.{Doing, network_of, table_of};
ghost use Rattle.session_core.specs.Sources.{AllCheck};

use ct_catalog::TableDef;
use ct_value::Memory;
use phys_plan::Plan;
use session_core::SourceCheck;
use std::alloc::Global;

/// What tests the changes of a table, and can be made for a declared one.
pub trait PlanSource: SourceCheck {
    /// The test of a table of which no change was taken. Into how many subtasks a job's nodes are split says nothing of it.
    fn open(alloc: Global, table: &TableDef) -> Result<Self, Memory>
        ensures { IfOk result (λ made. (many : ℕ) → Self.stands_for made (table_of many table.now) []) };
}

/// The tests of a plan's tables, of which no change was taken.
pub(crate) fn sources_of<S: PlanSource>(alloc: Global, plan: &Plan) -> Result<Vec<S>, Memory>
    ensures { IfOk result (λ sources. (of : ℕ → Seq ColTy) (doing : ℕ → Doing) → AllCheck S.stands_for (network_of of doing plan.now) sources.items (λ table. [])) }
{
    let mut sources = Vec::new(alloc);
    for number in 0..plan.sources.len() {
        sources.push(S::open(alloc, &plan.sources.as_slice()[number])?)?;
    }
    Ok(sources)
}
