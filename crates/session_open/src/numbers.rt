ghost use Rattle.std.specs.Prelude.{◌≡◌, IfOk, length, option_copied};
ghost use Rattle.phys_plan.specs.Reading.{numbered, first_input};
ghost use Rattle.session_open.specs.Running.{second_input};

use ct_value::{Memory, Numbers};
use phys_plan::{Node, Plan};

// The node of a number.
pub(crate) fn node_at(plan: &Plan, number: u32) -> Option<&Node>
    ensures { option_copied result ≡ numbered plan.now.nodes number }
{
    if number == 0 {
        return None;
    }
    plan.nodes.get(number as usize - 1)
}

// The first of these inputs, or 0.
pub(crate) fn first_of(inputs: &Numbers) -> u32
    ensures { result ≡ first_input inputs.now }
{
    first_in(inputs.as_slice())
}

// The second of these inputs, or 0.
pub(crate) fn second_of(inputs: &Numbers) -> u32
    ensures { result ≡ second_input inputs.now }
{
    match inputs.as_slice().split_first() {
        Some((_, others)) => first_in(others),
        None => 0,
    }
}

fn first_in(inputs: &[u32]) -> u32
    ensures { result ≡ first_input inputs.now }
{
    match inputs.split_first() {
        Some((first, _)) => *first,
        None => 0,
    }
}

// How many inputs there are.
pub(crate) fn count_of(inputs: &Numbers) -> Result<u32, Memory>
    ensures { IfOk result (λ count. count ≡ length inputs.now) }
{
    match u32::try_from(inputs.len()) {
        Ok(count) => Ok(count),
        Err(_) => Err(Memory),
    }
}
