//! The aggregate calls of a grouped select with their operands.
ghost use Rattle.bind_names.specs.declared.fault.BindFault.TheVariants as f;
ghost use Rattle.std.specs.Prelude.{◌≡◌, ◌++◌, Ok, Err, [], map, option_map, IfOk, OnOk, IsErrOf};
ghost use Rattle.ct_value.specs.declared.codes.ScriptCode.{ScriptCode};
ghost use Rattle.sql_syntax.specs.View.{view};
ghost use Rattle.binding.specs.InGroups as g;
ghost use Rattle.bind_names.specs.Calls as c;
ghost use Rattle.bind_nodes.specs.Views.{bound_view, bounds_view};
ghost use Rattle.bind_sources.specs.Views.{call_view, calls_view};

use bind_expressions::{bind_over, call_column_if};
use bind_names::{BindFault, CallRef, CallRefs};
use bind_nodes::{Bound, Bounds};
use ct_value::{ColTy, List, Memory, ScriptCode};
use query_answer::Scope;
use sql_syntax::Tree;
use std::alloc::Global;

/// An aggregate call with its operands.
#[derive(Drop)]
pub(crate) struct BoundCall {
    pub(crate) arg: Option<Bound>,
    pub(crate) filter: Option<Bound>,
    pub(crate) column: ColTy,
}

pub(crate) type BoundCalls = List<BoundCall>;

/// The arguments of aggregate calls and their FILTER conditions, each in order.
#[derive(Drop)]
pub(crate) struct Inputs {
    pub(crate) args: Bounds,
    pub(crate) filters: Bounds,
}

fn optional_over(
    alloc: Global,
    scope: &Scope,
    tree: Option<&Tree>,
) -> Result<Option<Bound>, BindFault>
    ensures ok { IfOk result (λ o. g.optional_over scope.now (option_map (λ x. view x.now) tree.entry) ≡ Ok (option_map bound_view o)) }
    ensures refused { (code : ScriptCode) → IsErrOf result (f.Refused code) → g.optional_over scope.now (option_map (λ x. view x.now) tree.entry) ≡ Err code }
{
    match tree {
        None => Ok(None),
        Some(tree) => Ok(Some(bind_over(alloc, scope, tree)?)),
    }
}

fn bound_column(bound: &Option<Bound>) -> Option<ColTy>
    ensures { result ≡ g.bound_column (option_map bound_view bound.now) }
{
    match bound {
        None => None,
        Some(bound) => Some(bound.column),
    }
}

// A call with its operands; `global` without GROUP BY.
fn operands_bound(
    alloc: Global,
    scope: &Scope,
    global: bool,
    call: &CallRef<'_>,
) -> Result<BoundCall, BindFault>
    ensures ok { IfOk result (λ x. g.operands_bound scope.now global (c.call_view call.now) ≡ Ok (call_view x)) }
    ensures refused { (code : ScriptCode) → IsErrOf result (f.Refused code) → g.operands_bound scope.now global (c.call_view call.now) ≡ Err code }
{
    let arg = optional_over(alloc, scope, call.arg)?;
    let filter = optional_over(alloc, scope, call.filter)?;
    match call_column_if(global, call.call, bound_column(&arg), &filter) {
        None => Err(BindFault::Refused(ScriptCode::TypeMismatch)),
        Some(column) => Ok(BoundCall {
            arg,
            filter,
            column,
        }),
    }
}

/// Calls with their operands, in order; `global` without GROUP BY.
pub(crate) fn calls_bound(
    alloc: Global,
    scope: &Scope,
    global: bool,
    calls: &CallRefs<'_>,
) -> Result<BoundCalls, BindFault>
    ensures ok { IfOk result (λ xs. g.calls_bound scope.now global (map c.call_view calls.now) ≡ Ok (calls_view xs)) }
    ensures refused { (code : ScriptCode) → IsErrOf result (f.Refused code) → g.calls_bound scope.now global (map c.call_view calls.now) ≡ Err code }
{
    let mut bound = BoundCalls::with_capacity(alloc, calls.len())?;
    for call in calls.as_slice() {
        bound.push(operands_bound(alloc, scope, global, call)?)?;
    }
    Ok(bound)
}

fn push_if(bounds: &mut Bounds, bound: Option<Bound>) -> Result<(), Memory>
    ensures { OnOk result (bounds_view bounds.new ≡ bounds_view bounds.old ++ g.with_bound (option_map bound_view bound) []) }
{
    match bound {
        None => Ok(()),
        Some(bound) => bounds.push(bound),
    }
}

/// The arguments and the FILTER conditions of calls.
pub(crate) fn inputs_of(alloc: Global, calls: BoundCalls) -> Result<Inputs, Memory>
    ensures args { IfOk result (λ x. bounds_view x.args ≡ g.bound_arguments (calls_view calls)) }
    ensures filters { IfOk result (λ x. bounds_view x.filters ≡ g.bound_filters (calls_view calls)) }
{
    let mut args = Bounds::new(alloc);
    let mut filters = Bounds::new(alloc);
    for call in calls.into_vec() {
        push_if(&mut args, call.arg)?;
        push_if(&mut filters, call.filter)?;
    }
    Ok(Inputs { args, filters })
}
