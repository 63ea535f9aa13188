//! The columns of the inputs of a node, among those of the nodes before it.
ghost use Rattle.std.specs.Prelude.{◌≡◌, map, option_copied, IfOk};
ghost use Rattle.plan_rules.specs.Columns as c;

use ct_value::{ColTys, List, Memory, Numbers};

/// The columns of nodes in order, none of a node that isn't well-typed or isn't built yet.
pub type NodeColumns = List<Option<ColTys>>;

/// The columns of a node by its number, from 1.
pub fn numbered_columns(done: &NodeColumns, number: u32) -> Option<&ColTys>
    ensures { option_copied result ≡ c.numbered_columns done.now number }
{
    if number == 0 {
        return None;
    }
    match done.get(number as usize - 1) {
        Some(Some(columns)) => Some(columns),
        _ => None,
    }
}

/// The columns of an only input.
pub fn only_input<'a>(done: &'a NodeColumns, inputs: &Numbers) -> Option<&'a ColTys>
    ensures { option_copied result ≡ c.only (map (c.numbered_columns done.now) inputs.now) }
{
    if inputs.len() == 1 {
        numbered_columns(done, inputs.as_slice()[0])
    } else {
        None
    }
}

/// The columns of an input, where it has any.
pub fn same_columns(input: Option<&ColTys>) -> Result<Option<ColTys>, Memory>
    ensures { IfOk result (λ made. made ≡ option_copied input.entry) }
{
    match input {
        None => Ok(None),
        Some(columns) => Ok(Some(columns.dup()?)),
    }
}
