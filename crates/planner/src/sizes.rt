//! Plans that are refused for their size, whatever is inferred of them.
ghost use Rattle.std.specs.Prelude.{◌≡◌, ◌<◌, false, true, map, IfOk};
ghost use Rattle.std.specs.List.{list_all, list_any};
ghost use Rattle.ct_catalog.specs.declared.settings.Materialize.{Materialize};
ghost use Rattle.ct_value.specs.declared.codes.ScriptCode.TheVariants.{TooManyNodes};
ghost use Rattle.ct_change.specs.Kinds.{has_more_than_inserts};
ghost use Rattle.plan_check.specs.Sound.{inferred_of};
ghost use Rattle.plan_inferred.specs.declared.ways.Way.TheVariants.{Direct};
ghost use Rattle.planner.specs.Planned.{Refused, made};
ghost use Rattle.planner.specs.Refusals as r;

use ct_catalog::ColDef;
use ct_change::{Declared, KindSet};
use ct_value::Memory;
use mode_infer::{Flow, flows};
use phys_plan::{Node, Op, Plan};
use std::alloc::Global;

// The most nodes of a plan.
const MOST_NODES: usize = 128;

/// Whether a plan has more than 128 nodes, and no refusal that comes before that for its size can come: it has no Top-N, its table takes
/// all changes or gets inserts alone, and NULL may stand in each column of the table.
pub(crate) fn is_plainly_large(alloc: Global, laid: &Plan) -> Result<bool, Memory>
    ensures { IfOk result (λ large. large ≡ true → (setting : Materialize) → made laid.now setting ≡ Refused TooManyNodes) }
{
    if laid.nodes.len() <= MOST_NODES
        || any_ranks(laid.nodes.as_slice())
        || !takes_nulls(laid.sink.cols.as_slice())
    {
        return Ok(false);
    }
    takes_all(alloc, laid)
}

// Whether a node ranks rows.
fn any_ranks(nodes: &[Node]) -> bool
    ensures { result ≡ list_any (λ node. r.ranks_rows node.op) nodes.now }
{
    for node in nodes {
        if ranks_rows(&node.op) {
            return true;
        }
    }
    false
}

fn ranks_rows(op: &Op) -> bool
    ensures { result ≡ r.ranks_rows op.now }
{
    matches!(op, Op::TopN { .. })
}

// Whether NULL may stand in each column.
fn takes_nulls(columns: &[ColDef]) -> bool
    ensures { result ≡ list_all (λ column. column.nullable) (map (λ c. c.ty) columns.now) }
{
    for column in columns {
        if !column.ty.nullable {
            return false;
        }
    }
    true
}

// Whether the plan's table takes all changes, or is an append table that gets inserts alone.
fn takes_all(alloc: Global, laid: &Plan) -> Result<bool, Memory>
    ensures { IfOk result (λ takes. takes ≡ true → (setting : Materialize) → (r.changes_rows laid.now.sink.mode (inferred_of laid.now).modes ≡ false) × (r.sink_way (inferred_of laid.now) laid.now setting ≡ Direct)) }
{
    match laid.sink.mode {
        Declared::Retract => Ok(true),
        Declared::Upsert => Ok(false),
        Declared::Append => {
            let flows = flows(alloc, laid.sources.as_slice(), laid.nodes.as_slice())?;
            Ok(!any_has_more(flows.as_slice()))
        }
    }
}

// Whether more than inserts is sent.
fn any_has_more(flows: &[Flow]) -> bool
    ensures { result ≡ list_any (λ flow. has_more_than_inserts flow.sent) flows.now }
{
    for flow in flows {
        if has_more(flow.sent) {
            return true;
        }
    }
    false
}

fn has_more(kinds: KindSet) -> bool
    ensures { result ≡ has_more_than_inserts kinds }
{
    kinds.ub || kinds.ua || kinds.d
}
