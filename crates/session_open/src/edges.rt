ghost use Rattle.std.specs.Prelude.{◌≡◌, [], IfOk, option_copied, unwrap_or};
ghost use Rattle.ct_change.specs.Changelog.{upsert};
ghost use Rattle.plan_rules.specs.Plans.{kinds_in};
ghost use Rattle.phys_plan.specs.Reading.{numbered, first_input};
ghost use Rattle.ct_change.specs.declared.update.Update.TheVariants.{Absent};
ghost use Rattle.emission_rules.specs.Changes.{after_key};
ghost use Rattle.plan_rules.specs.Around.{mode_read, mode_told};
ghost use Rattle.plan_rules.specs.Plans.{update_in};
ghost use Rattle.session_open.specs.Modes.{mode_in};

use crate::AnyMode;
use crate::numbers::first_of;
use ct_change::{KindSet, Update, UpsertBy};
use ct_value::{Cols, Memory, Numbers};
use phys_plan::{Edge, Plan};
use std::alloc::Global;

// The edge of a number.
fn edge_at(plan: &Plan, number: u32) -> Option<&Edge>
    ensures { option_copied result ≡ numbered plan.now.edges number }
{
    if number == 0 {
        return None;
    }
    plan.edges.get(number as usize - 1)
}

// The key by which the edge of the first input is after-only, if it is.
pub(crate) fn after_of(plan: &Plan, inputs: &Numbers) -> Result<Option<Cols>, Memory>
    ensures { IfOk result (λ after. after ≡ after_key (update_in (numbered plan.now.edges (first_input inputs.now)))) }
{
    match edge_at(plan, first_of(inputs)) {
        None => Ok(None),
        Some(edge) => key_of(&edge.update),
    }
}

// The key by which an edge is after-only, if it is.
fn key_of(update: &Update) -> Result<Option<Cols>, Memory>
    ensures { IfOk result (λ key. key ≡ after_key update.now) }
{
    match update {
        Update::Absent => Ok(None),
        Update::After(columns) => Ok(Some(columns.dup()?)),
        Update::Both => Ok(None),
    }
}

// How the edge of the first input tells updates.
pub(crate) fn told_to(plan: &Plan, inputs: &Numbers) -> Result<Update, Memory>
    ensures { IfOk result (λ update. update ≡ update_in (numbered plan.now.edges (first_input inputs.now))) }
{
    match edge_at(plan, first_of(inputs)) {
        None => Ok(Update::Both),
        Some(edge) => same_update(&edge.update),
    }
}

fn same_update(update: &Update) -> Result<Update, Memory>
    ensures { IfOk result (λ copy. copy ≡ update.now) }
{
    match update {
        Update::Absent => Ok(Update::Absent),
        Update::After(columns) => Ok(Update::After(columns.dup()?)),
        Update::Both => Ok(Update::Both),
    }
}

// The key of the sink, none where it has no key.
pub(crate) fn sink_key(alloc: Global, plan: &Plan) -> Result<Cols, Memory>
    ensures { IfOk result (λ key. key ≡ unwrap_or plan.now.sink.key []) }
{
    match &plan.sink.key {
        None => Ok(Cols::new(alloc)),
        Some(key) => key.dup(),
    }
}

// The mode in which the node of a number writes its changes.
pub(crate) fn written_at(alloc: Global, plan: &Plan, number: u32) -> Result<AnyMode, Memory>
    ensures { IfOk result (λ mode. mode_in mode ≡ mode_told (update_in (numbered plan.now.edges number))) }
{
    match edge_at(plan, number) {
        None => Ok(AnyMode::Retract),
        Some(edge) => written_by(alloc, &edge.update),
    }
}

// The mode in which the changes of the edge of a number are read.
pub(crate) fn read_at(alloc: Global, plan: &Plan, number: u32) -> Result<AnyMode, Memory>
    ensures { IfOk result (λ mode. mode_in mode ≡ mode_read (kinds_in (numbered plan.now.edges number)) (update_in (numbered plan.now.edges number))) }
{
    match edge_at(plan, number) {
        None => Ok(AnyMode::Retract),
        Some(edge) => read_by(alloc, edge.kinds, &edge.update),
    }
}

fn written_by(alloc: Global, update: &Update) -> Result<AnyMode, Memory>
    ensures { IfOk result (λ mode. mode_in mode ≡ mode_told update.now) }
{
    match update {
        Update::Absent => Ok(AnyMode::Retract),
        Update::After(columns) => upsert_by(alloc, columns),
        Update::Both => Ok(AnyMode::Retract),
    }
}

fn read_by(alloc: Global, kinds: KindSet, update: &Update) -> Result<AnyMode, Memory>
    ensures { IfOk result (λ mode. mode_in mode ≡ mode_read kinds update.now) }
{
    match update {
        Update::Absent => Ok(read_whole(kinds)),
        Update::After(columns) => upsert_by(alloc, columns),
        Update::Both => Ok(AnyMode::Retract),
    }
}

// Of an edge without updates.
fn read_whole(kinds: KindSet) -> AnyMode
    ensures { mode_in result ≡ mode_read kinds Absent }
{
    if kinds.ub || kinds.ua || kinds.d {
        AnyMode::Retract
    } else {
        AnyMode::Append
    }
}

fn upsert_by(alloc: Global, columns: &Cols) -> Result<AnyMode, Memory>
    ensures { IfOk result (λ mode. mode_in mode ≡ upsert columns.now) }
{
    let key = columns.dup()?;
    Ok(AnyMode::UpsertBy(UpsertBy { alloc, key }))
}
