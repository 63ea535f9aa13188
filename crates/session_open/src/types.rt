ghost use Rattle.std.specs.Prelude.{◌≡◌, [], ◌++◌, IfOk, get_or, take};
ghost use Rattle.phys_plan.specs.Reading.{first_input};
ghost use Rattle.plan_rules.specs.Behaviours.{range_types_by, rule_of};
ghost use Rattle.plan_rules.specs.Roles.{role};
ghost use Rattle.session_open.specs.Running.{second_input};

use crate::numbers::{first_of, second_of};
use ct_value::{ColTys, List, Memory, Numbers};
use phys_plan::{Node, Op};
use std::alloc::Global;

// The types of the row at which a node is out of range.
pub(crate) fn range_types_of(
    alloc: Global,
    columns: &List<ColTys>,
    node: &Node,
) -> Result<ColTys, Memory>
    ensures { IfOk result (λ types. types ≡ range_types_by (rule_of node.now.op) (role node.now.op) (get_or columns.now (first_input node.now.inputs) []) (get_or columns.now (second_input node.now.inputs) [])) }
{
    match &node.op {
        Op::Filter { .. } => input_types(alloc, columns, &node.inputs),
        Op::Project { .. } => input_types(alloc, columns, &node.inputs),
        Op::Union => input_types(alloc, columns, &node.inputs),
        Op::Normalize { .. } => input_types(alloc, columns, &node.inputs),
        Op::TopN { .. } => input_types(alloc, columns, &node.inputs),
        Op::Materialize { .. } => input_types(alloc, columns, &node.inputs),
        Op::Sink => input_types(alloc, columns, &node.inputs),
        Op::Group { keys, .. } => first_types(alloc, columns, node, *keys),
        Op::BatchGroup { keys, .. } => first_types(alloc, columns, node, *keys),
        Op::LocalGroup { keys, .. } => first_types(alloc, columns, node, *keys),
        Op::Scan { .. } => Ok(ColTys::new(alloc)),
        Op::MultiJoin { .. } => Ok(ColTys::new(alloc)),
        // All others have two inputs.
        _ => joined_types(alloc, columns, &node.inputs),
    }
}

// The types of the columns of a node's first input.
fn input_types(alloc: Global, columns: &List<ColTys>, inputs: &Numbers) -> Result<ColTys, Memory>
    ensures { IfOk result (λ types. types ≡ get_or columns.now (first_input inputs.now) []) }
{
    types_at(alloc, columns, first_of(inputs))
}

// The same as the columns of one row, the first input's in front.
fn joined_types(alloc: Global, columns: &List<ColTys>, inputs: &Numbers) -> Result<ColTys, Memory>
    ensures { IfOk result (λ types. types ≡ get_or columns.now (first_input inputs.now) [] ++ get_or columns.now (second_input inputs.now) []) }
{
    let mut types = types_at(alloc, columns, first_of(inputs))?;
    types.append(types_at(alloc, columns, second_of(inputs))?)?;
    Ok(types)
}

// The types of the columns of a node by its number, none past the last.
#[tactic(auto, using(crate::proofs::Nodes::types_there, crate::proofs::Nodes::types_past))]
pub(crate) fn types_at(alloc: Global, columns: &List<ColTys>, number: u32) -> Result<ColTys, Memory>
    ensures { IfOk result (λ types. types ≡ get_or columns.now number []) }
{
    match columns.get(number as usize) {
        None => Ok(ColTys::new(alloc)),
        Some(types) => types.dup(),
    }
}

// The first so many of these types.
fn first_types(
    alloc: Global,
    columns: &List<ColTys>,
    node: &Node,
    keys: u32,
) -> Result<ColTys, Memory>
    ensures { IfOk result (λ types. types ≡ take keys (get_or columns.now (first_input node.now.inputs) [])) }
{
    let mut types = input_types(alloc, columns, &node.inputs)?;
    types.truncate(keys as usize);
    Ok(types)
}
