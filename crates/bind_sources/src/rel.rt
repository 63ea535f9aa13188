//! The Group below a grouped select, and its HAVING.
ghost use Rattle.std.specs.Prelude.{◌≡◌, ◌++◌, ◌+◌, map, option_map, IfOk};
ghost use Rattle.sql_syntax.specs.View.{view};
ghost use Rattle.rel_algebra.specs.Rel as r;
ghost use Rattle.rel_algebra.specs.View.{rel_view};
ghost use Rattle.binding.specs.Queries as q;
ghost use Rattle.bind_names.specs.Calls.{call_view};
ghost use Rattle.bind_nodes.specs.Views.{bound_view, bounds_view};

use crate::calls::Inputs;
use bind_clauses::projected;
use bind_expressions::plus;
use bind_names::CallRefs;
use bind_nodes::{Bound, Bounds};
use ct_value::{Boxed, Memory};
use rel_algebra::{Agg, Aggs, Rel};
use sql_syntax::Tree;
use std::alloc::Global;

// The column at a place, where there is something.
fn place_if(place: u32, tree: Option<&Tree>) -> Option<u32>
    ensures { result ≡ q.place_if place (option_map (λ x. view x.now) tree.entry) }
{
    match tree {
        None => None,
        Some(_) => Some(place),
    }
}

// The place behind it.
fn next(place: u32, tree: Option<&Tree>) -> Result<u32, Memory>
    ensures { IfOk result (λ next. next ≡ q.next place (option_map (λ x. view x.now) tree.entry)) }
{
    match tree {
        None => Ok(place),
        Some(_) => plus(place, 1),
    }
}

// The aggregates of calls, whose arguments stand from one place on and whose FILTER conditions from another.
fn aggs_from(
    alloc: Global,
    first_arg: u32,
    first_filter: u32,
    calls: &CallRefs<'_>,
) -> Result<Aggs, Memory>
    ensures { IfOk result (λ aggs. aggs ≡ q.aggs_from first_arg first_filter (map call_view calls.now)) }
{
    let mut aggs = Aggs::with_capacity(alloc, calls.len())?;
    let mut arg = first_arg;
    let mut filter = first_filter;
    for call in calls.as_slice() {
        aggs.push(Agg {
            call: call.call,
            arg: place_if(arg, call.arg),
            filter: place_if(filter, call.filter),
        })?;
        arg = next(arg, call.arg)?;
        filter = next(filter, call.filter)?;
    }
    Ok(aggs)
}

// The columns of a Group's input: keys, arguments, FILTER conditions.
fn side_by_side(keys: Bounds, inputs: Inputs) -> Result<Bounds, Memory>
    ensures { IfOk result (λ all. bounds_view all ≡ bounds_view keys ++ (bounds_view inputs.args ++ bounds_view inputs.filters)) }
{
    let mut all = keys;
    all.append(inputs.args)?;
    all.append(inputs.filters)?;
    Ok(all)
}

/// The groups of an input with so many columns.
#[tactic(auto, using(rel_algebra::proofs::laws::Views::view_group))]
pub(crate) fn group_rel(
    alloc: Global,
    width: usize,
    keys: Bounds,
    inputs: Inputs,
    calls: &CallRefs<'_>,
    input: Boxed<Rel>,
) -> Result<Boxed<Rel>, Memory>
    ensures { IfOk result (λ rel. rel_view rel ≡ q.group_rel width (bounds_view keys) (bounds_view inputs.args) (bounds_view inputs.filters) (map call_view calls.now) (rel_view input)) }
{
    let count = plus(0, keys.len())?;
    let first_filter = plus(count, inputs.args.len())?;
    let aggs = aggs_from(alloc, count, first_filter, calls)?;
    let input = group_input(alloc, width, keys, inputs, input)?;
    grouped(alloc, count, aggs, input)
}

fn group_input(
    alloc: Global,
    width: usize,
    keys: Bounds,
    inputs: Inputs,
    input: Boxed<Rel>,
) -> Result<Boxed<Rel>, Memory>
    ensures { IfOk result (λ rel. rel_view rel ≡ q.projected width (bounds_view keys ++ (bounds_view inputs.args ++ bounds_view inputs.filters)) (rel_view input)) }
{
    let columns = side_by_side(keys, inputs)?;
    projected(alloc, width, columns, input)
}

#[tactic(auto, using(rel_algebra::proofs::laws::Views::view_group))]
fn grouped(alloc: Global, keys: u32, aggs: Aggs, input: Boxed<Rel>) -> Result<Boxed<Rel>, Memory>
    ensures { IfOk result (λ rel. rel_view rel ≡ r.Group (rel_view input) keys aggs) }
{
    let rel = Rel::Group { input, keys, aggs };
    Boxed::new(alloc, rel)
}

/// The groups that HAVING keeps, where there is one.
#[tactic(auto, using(rel_algebra::proofs::laws::Views::view_filter))]
pub(crate) fn filter_if(
    alloc: Global,
    having: Option<Bound>,
    input: Boxed<Rel>,
) -> Result<Boxed<Rel>, Memory>
    ensures { IfOk result (λ rel. rel_view rel ≡ q.filter_if (option_map bound_view having) (rel_view input)) }
{
    match having {
        None => Ok(input),
        Some(bound) => {
            let rel = Rel::Filter {
                input,
                cond: Boxed::into_inner(bound.expr),
            };
            Boxed::new(alloc, rel)
        }
    }
}
