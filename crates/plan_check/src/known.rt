//! What the check of a plan knows of it, so that no node's test finds it anew.
ghost use Rattle.std.specs.Prelude.{◌≡◌, IfOk};
ghost use Rattle.phys_plan.specs.declared.plan.Rule.TheVariants as r;
ghost use Rattle.plan_check.specs.Faults.{Suffices};
ghost use Rattle.plan_check.specs.Sound.{columns_or_none, inferred_of, sent_columns};

use crate::nodes::plan_types;
use ct_value::{ColTys, List, Memory};
use phys_plan::Plan;
use plan_inferred::{Inferred, infer};
use plan_shape::NodeColumns;
use std::alloc::Global;

/// The columns of all nodes, and what is inferred from them; empty where a rule doesn't ask for it yet.
#[derive(Drop)]
pub(crate) struct Known {
    pub(crate) types: NodeColumns,
    pub(crate) inferred: Inferred,
}

/// What is known before the first rule.
pub(crate) fn nothing_known(alloc: Global) -> Known {
    Known {
        types: List::new(alloc),
        inferred: nothing_inferred(alloc),
    }
}

/// What the rule Types asks for.
pub(crate) fn types_known(alloc: Global, plan: &Plan) -> Result<Known, Memory>
    ensures { IfOk result (λ known. Suffices r.Types plan.now known) }
{
    Ok(Known {
        types: plan_types(alloc, plan)?,
        inferred: nothing_inferred(alloc),
    })
}

/// What the rules behind it ask for.
pub(crate) fn all_known(alloc: Global, plan: &Plan, known: Known) -> Result<Known, Memory>
    requires { Suffices r.Types plan.now known }
    ensures { IfOk result (λ all. all.inferred ≡ inferred_of plan.now) }
{
    let columns = sent_columns(alloc, &known.types)?;
    Ok(Known {
        types: known.types,
        inferred: infer(alloc, columns, plan)?,
    })
}

/// What is inferred of a plan, whose nodes need not be well-typed: one that isn't counts as a node without columns.
pub fn infer_plan(alloc: Global, plan: &Plan) -> Result<Inferred, Memory>
    ensures { IfOk result (λ made. made ≡ inferred_of plan.now) }
{
    let known = types_known(alloc, plan)?;
    let all = all_known(alloc, plan, known)?;
    Ok(all.inferred)
}

fn nothing_inferred(alloc: Global) -> Inferred {
    Inferred {
        columns: List::new(alloc),
        keys: List::new(alloc),
        flows: List::new(alloc),
        update_keys: List::new(alloc),
        modes: List::new(alloc),
    }
}

// The columns that each node sends, by its number, with none at 0.
fn sent_columns(alloc: Global, types: &NodeColumns) -> Result<List<ColTys>, Memory>
    ensures { IfOk result (λ columns. columns ≡ sent_columns types.now) }
{
    let mut sent = List::new(alloc);
    sent.push(List::new(alloc))?;
    for columns in types.as_slice() {
        sent.push(columns_or_none(alloc, columns)?)?;
    }
    Ok(sent)
}

fn columns_or_none(alloc: Global, columns: &Option<ColTys>) -> Result<ColTys, Memory>
    ensures { IfOk result (λ sent. sent ≡ columns_or_none columns.now) }
{
    match columns {
        None => Ok(List::new(alloc)),
        Some(columns) => columns.dup(),
    }
}
