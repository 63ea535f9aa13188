//! Who takes an edge, and whether it takes new rows alone.
ghost use Rattle.std.specs.Prelude.{◌≡◌, option_copied, IfOk};
ghost use Rattle.phys_plan.specs.Reading.{wires};
ghost use Rattle.mode_infer.specs.Updates as u;

use crate::operators::takes;
use ct_catalog::TableDef;
use ct_change::Update;
use ct_value::{Cols, Memory};
use phys_plan::Node;
use std::alloc::Global;

/// Whether the edge of a number may tell new rows alone by a key, if there is one: whether the first of the nodes behind it that has it
/// among its inputs takes it so.
pub(crate) fn is_taken(
    alloc: Global,
    sink: &TableDef,
    key: Option<&Cols>,
    number: u32,
    later: &[Node],
    updates: &[Update],
) -> Result<bool, Memory>
    ensures { IfOk result (λ taken. taken ≡ u.is_taken sink.now (option_copied key.entry) number (wires later.now) updates.now) }
{
    match key {
        None => Ok(false),
        Some(key) => takes_after(alloc, sink, key, number, later, updates),
    }
}

#[tactic(auto, using(crate::proofs::Ends::taken_end))]
fn takes_after(
    alloc: Global,
    sink: &TableDef,
    key: &Cols,
    number: u32,
    later: &[Node],
    updates: &[Update],
) -> Result<bool, Memory>
    ensures { IfOk result (λ taken. taken ≡ u.takes_after sink.now key.now number (wires later.now) updates.now) }
{
    let many = later.len().min(updates.len());
    for i in 0..many {
        let inputs = later[i].inputs.as_slice();
        if is_input(number, inputs) {
            let port = port_of(number, inputs);
            return takes(alloc, sink, &later[i].op, port, &updates[i], key);
        }
    }
    Ok(false)
}

/// Whether a number stands among a node's inputs.
pub fn is_input(number: u32, inputs: &[u32]) -> bool
    ensures { result ≡ u.is_input number inputs.now }
{
    inputs.iter().any(|input| *input == number)
}

/// The port that a node's input of this number feeds: its first place among the inputs, or their number where it isn't there.
pub fn port_of(number: u32, inputs: &[u32]) -> usize
    ensures { result ≡ u.port_of number inputs.now }
{
    for port in 0..inputs.len() {
        if inputs[port] == number {
            return port;
        }
    }
    inputs.len()
}
