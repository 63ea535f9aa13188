ghost use Rattle.std.specs.Prelude.{ℕ, List as Seq, IfOk};
ghost use Rattle.ct_value.specs.declared.ty.ColTy.{ColTy};
ghost use Rattle.ct_change.specs.Changelog.{Mode};
ghost use Rattle.phys_plan.specs.Reading.{first_input, numbered};
ghost use Rattle.plan_rules.specs.Columns.{AreColumns};
ghost use Rattle.plan_rules.specs.Phases.{local_by};
ghost use Rattle.plan_rules.specs.Plans.{local_in};
ghost use Rattle.session_open.specs.Locals.{IsLocal};

use crate::numbers::{first_of, node_at};
use crate::types::types_at;
use ct_value::{ColTys, List, Memory, Numbers};
use phys_plan::{Node, Op, Plan};
use rel_algebra::Aggs;
use std::alloc::Global;

/// What a local group sums up: rows with columns of these types, by the first so many, with these calls.
#[derive(Drop)]
pub(crate) struct Local {
    pub keys: u32,
    pub aggs: Aggs,
    pub types: ColTys,
}

/// That of the first input of a node, where that is a local group.
pub(crate) fn local_below(
    alloc: Global,
    plan: &Plan,
    columns: &List<ColTys>,
    inputs: &Numbers,
) -> Result<Option<Local>, Memory>
    ensures { IfOk result (λ found. (of : ℕ → Seq ColTy) → AreColumns columns.now of → IsLocal found (local_in of plan.now (numbered plan.now.nodes (first_input inputs.now)))) }
{
    match node_at(plan, first_of(inputs)) {
        None => Ok(None),
        Some(below) => local_of(alloc, columns, below),
    }
}

// That of a node.
fn local_of(alloc: Global, columns: &List<ColTys>, node: &Node) -> Result<Option<Local>, Memory>
    ensures { IfOk result (λ found. (of : ℕ → Seq ColTy) (mode : Mode) → AreColumns columns.now of → IsLocal found (local_by node.now.op (of (first_input node.now.inputs)) mode)) }
{
    match &node.op {
        Op::LocalGroup { keys, aggs } => {
            let types = types_at(alloc, columns, first_of(&node.inputs))?;
            let aggs = aggs.dup()?;
            Ok(Some(Local {
                keys: *keys,
                aggs,
                types,
            }))
        }
        _ => Ok(None),
    }
}
