ghost use Rattle.std.specs.Prelude.{◌≡◌, [], IfOk, get_or};
ghost use Rattle.phys_plan.specs.Reading.{first_input};
ghost use Rattle.session_open.specs.Modes.{mode_from, mode_in};
ghost use Rattle.session_open.specs.Running.{second_input};

use crate::AnyMode;
use crate::edges::read_at;
use crate::numbers::{first_of, second_of};
use crate::types::types_at;
use ct_value::{ColTys, List, Memory, Numbers};
use phys_plan::Plan;
use std::alloc::Global;

/// An input of a node: the types of its columns, and the mode in which its edge is read.
#[derive(Drop)]
pub(crate) struct Input {
    pub types: ColTys,
    pub mode: AnyMode,
}

// The first input of a node.
pub(crate) fn only_input(
    alloc: Global,
    plan: &Plan,
    columns: &List<ColTys>,
    inputs: &Numbers,
) -> Result<Input, Memory>
    ensures types { IfOk result (λ input. input.types ≡ get_or columns.now (first_input inputs.now) []) }
    ensures mode { IfOk result (λ input. mode_in input.mode ≡ mode_from plan.now (first_input inputs.now)) }
{
    input_at(alloc, plan, columns, first_of(inputs))
}

// The first and the second.
pub(crate) fn both_inputs(
    alloc: Global,
    plan: &Plan,
    columns: &List<ColTys>,
    inputs: &Numbers,
) -> Result<(Input, Input), Memory>
    ensures types { IfOk result (λ sides. (sides.0.types ≡ get_or columns.now (first_input inputs.now) []) × (sides.1.types ≡ get_or columns.now (second_input inputs.now) [])) }
    ensures modes { IfOk result (λ sides. (mode_in sides.0.mode ≡ mode_from plan.now (first_input inputs.now)) × (mode_in sides.1.mode ≡ mode_from plan.now (second_input inputs.now))) }
{
    let first = input_at(alloc, plan, columns, first_of(inputs))?;
    let second = input_at(alloc, plan, columns, second_of(inputs))?;
    Ok((first, second))
}

// The input that is the node of a number; one that isn't there has no columns.
fn input_at(
    alloc: Global,
    plan: &Plan,
    columns: &List<ColTys>,
    number: u32,
) -> Result<Input, Memory>
    ensures types { IfOk result (λ input. input.types ≡ get_or columns.now number []) }
    ensures mode { IfOk result (λ input. mode_in input.mode ≡ mode_from plan.now number) }
{
    let types = types_at(alloc, columns, number)?;
    let mode = read_at(alloc, plan, number)?;
    Ok(Input { types, mode })
}
