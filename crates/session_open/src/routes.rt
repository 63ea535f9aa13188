ghost use Rattle.std.specs.Prelude.{◌≡◌, ◌+◌, ◌<◌, [], ℕ, List as Seq, get_or, length, option_copied, IfOk};
ghost use Rattle.ct_value.specs.declared.ty.ColTy.{ColTy};
ghost use Rattle.plan_rules.specs.Plans.{Doing, network_edge};
ghost use Rattle.phys_plan.specs.Reading.{numbered};
ghost use Rattle.session_channels.specs.Sending.{AllRoute};
ghost use Rattle.session_open.specs.Opening.{IsExchange, IsRouteIn, IsRouteOf, MayOpen, spread_types, types_by};
ghost use Rattle.plan_rules.specs.Columns.{AreColumns};

use crate::numbers::node_at;
use ct_value::{ColTys, List, Memory};
use phys_plan::{Edge, Exchange, Op, Plan};
use session_channels::{KeyRoute, Route};
use std::alloc::Global;

/// The route of each edge of a plan, by the edge's number.
pub(crate) fn routes_of(
    alloc: Global,
    plan: &Plan,
    columns: &List<ColTys>,
) -> Result<Vec<Route>, Memory>
    requires may { MayOpen plan.now columns.now }
    ensures many { IfOk result (λ routes. length routes.items ≡ length plan.now.nodes + 1) }
    ensures routes { IfOk result (λ routes. (of : ℕ → Seq ColTy) (doing : ℕ → Doing) → AreColumns columns.now of → AllRoute plan.now.parallelism routes.items (network_edge of doing plan.now)) }
{
    let mut routes = Vec::new(alloc);
    for edge in 0..plan.nodes.len() + 1 {
        routes.push(route_at(plan, columns, edge)?)?;
    }
    Ok(routes)
}

// The route of an edge.
fn route_at(plan: &Plan, columns: &List<ColTys>, edge: usize) -> Result<Route, Memory>
    requires may { MayOpen plan.now columns.now }
    requires edge { edge < length plan.now.nodes + 1 }
    ensures { IfOk result (λ route. IsRouteIn (spread_types (numbered plan.now.nodes edge) (get_or columns.now edge [])) (numbered plan.now.edges edge) route) }
{
    let types = types_of(plan, columns, edge)?;
    match edge_at(plan, edge) {
        None => Ok(Route::Forward),
        Some(of) => exchanged(&of.exchange, types),
    }
}

// The types by which an edge spreads what its node sends.
fn types_of(plan: &Plan, columns: &List<ColTys>, edge: usize) -> Result<ColTys, Memory>
    requires may { MayOpen plan.now columns.now }
    requires edge { edge < length plan.now.nodes + 1 }
    ensures { IfOk result (λ types. types ≡ spread_types (numbered plan.now.nodes edge) (get_or columns.now edge [])) }
{
    let types = columns.as_slice()[edge].dup()?;
    match node_at(plan, edge as u32) {
        None => Ok(types),
        Some(node) => Ok(types_by(&node.op, types)),
    }
}

// A local group's rows are spread by the types of its key columns.
fn types_by(op: &Op, types: ColTys) -> ColTys
    ensures { result ≡ types_by op.now types }
{
    let mut types = types;
    if let Op::LocalGroup { keys, .. } = op {
        types.truncate(*keys as usize);
    }
    types
}

// The edge of a number.
fn edge_at(plan: &Plan, number: usize) -> Option<&Edge>
    ensures { option_copied result ≡ numbered plan.now.edges number }
{
    if number == 0 {
        return None;
    }
    plan.edges.get(number - 1)
}

// The route of an exchange of rows whose first columns have these types.
fn exchanged(exchange: &Exchange, types: ColTys) -> Result<Route, Memory>
    requires { IsExchange types exchange.now }
    ensures { IfOk result (λ route. IsRouteOf types exchange.now route) }
{
    match exchange {
        Exchange::Forward => Ok(Route::Forward),
        Exchange::Hash(columns) => {
            let columns = columns.dup()?;
            Ok(Route::Hash(KeyRoute { columns, types }))
        }
    }
}
