//! The aggregate calls of trees.
ghost use Rattle.std.specs.Prelude.{◌≡◌, ◌++◌, map, option_map, OnOk};
ghost use Rattle.sql_syntax.specs.View.{view, trees_view, args_view, over_view, whens_view};
ghost use Rattle.sql_syntax.specs.Tree.{optional_over, optional_tree, trees as tree_list, tree_whens};
ghost use Rattle.query_answer.specs.Calls.{aggregate_of, agg_call, agg_arg, call_at, call_of, calls, all_calls, when_calls, optional_calls, args_calls};
ghost use Rattle.bind_names.specs.Calls.{call_view};

use crate::functions::function_of;
use ct_value::{Boxed, List, Memory};
use query_answer::Function;
use rel_algebra::AggCall;
use sql_syntax::{Args, Over, Tree, TreeWhens, Trees, parts_of};

/// An aggregate call as it is written, with its argument and its FILTER condition, where it has them.
#[derive(Drop)]
pub struct CallRef<'a> {
    pub call: AggCall,
    pub arg: Option<&'a Tree>,
    pub filter: Option<&'a Tree>,
}

/// Aggregate calls, in the order in which they are written.
pub type CallRefs<'a> = List<CallRef<'a>>;

/// The aggregate that a call without OVER is of.
pub fn aggregate_of(function: Function, over: &Option<Over>) -> Option<AggCall>
    ensures { result ≡ aggregate_of function (optional_over (option_map over_view over.now)) }
{
    match (function, over) {
        (Function::Aggregate(call), None) => Some(call),
        _ => None,
    }
}

/// COUNT is of all rows, of one value or of distinct values.
#[tactic(auto, unfolding(sql_syntax::specs::View::args_view))]
pub fn agg_call(call: AggCall, args: &Args) -> AggCall
    ensures { result ≡ agg_call call (args_view args.now) }
{
    match (call, args) {
        (AggCall::Count, Args::Star) => AggCall::CountAll,
        (AggCall::Count, Args::List { distinct: true, .. }) => AggCall::CountDistinct,
        _ => call,
    }
}

// The argument of a call: the first value.
#[tactic(auto, using(crate::proofs::CallLists::first_of), unfolding(sql_syntax::specs::View::args_view, sql_syntax::specs::View::view))]
fn agg_arg(args: &Args) -> Option<&Tree>
    ensures { option_map (λ x. view x.now) result ≡ agg_arg (args_view args.now) }
{
    match args {
        Args::Empty | Args::Star => None,
        Args::List { values, .. } => values.get(0),
    }
}

// An aggregate call, with its argument and its FILTER condition.
fn call_of<'a>(call: AggCall, args: &'a Args, filter: &'a Option<Boxed<Tree>>) -> CallRef<'a>
    ensures { call_view result ≡ call_of call (args_view args.now) (optional_tree (option_map view filter.now)) }
{
    let filter = match filter {
        Some(filter) => Some(&**filter),
        None => None,
    };
    CallRef {
        call: agg_call(call, args),
        arg: agg_arg(args),
        filter,
    }
}

// The aggregate call that a whole node is.
#[tactic(auto, using(crate::proofs::CallLists::is_aggregate, crate::proofs::CallLists::is_no_aggregate), unfolding(sql_syntax::specs::View::view, sql_syntax::specs::View::args_view, sql_syntax::specs::View::over_view))]
fn call_at(tree: &Tree) -> Option<CallRef<'_>>
    ensures { option_map call_view result ≡ call_at (view tree.now) }
{
    match tree {
        Tree::Call {
            name,
            args,
            filter,
            over,
        } => match aggregate_of(function_of(name), over) {
            Some(call) => Some(call_of(call, args, filter)),
            None => None,
        },
        _ => None,
    }
}

/// Puts the aggregate calls of a tree behind those that were found.
#[tactic(auto, using(crate::proofs::CallLists::is_call, crate::proofs::CallLists::begins, crate::proofs::CallLists::goes_on, crate::proofs::CallLists::ends, sql_syntax::proofs::laws::Walks::first_weighs, sql_syntax::proofs::laws::Walks::others_weigh, sql_syntax::proofs::laws::Walks::parts_weigh))]
pub fn push_calls<'a>(found: &mut CallRefs<'a>, tree: &'a Tree) -> Result<(), Memory>
    ensures { OnOk result (map call_view found.new ≡ map call_view found.old ++ calls (view tree.now)) }
{
    if let Some(call) = call_at(tree) {
        return found.push(call);
    }
    for part in parts_of(tree) {
        push_calls(found, part)?;
    }
    Ok(())
}

/// Puts the aggregate calls of trees behind those that were found.
pub fn push_all<'a>(found: &mut CallRefs<'a>, trees: &'a Trees) -> Result<(), Memory>
    ensures { OnOk result (map call_view found.new ≡ map call_view found.old ++ all_calls (tree_list (trees_view trees.now))) }
{
    for tree in trees.as_slice() {
        push_calls(found, tree)?;
    }
    Ok(())
}

/// Puts the aggregate calls of branches behind those that were found.
pub fn push_whens<'a>(found: &mut CallRefs<'a>, whens: &'a TreeWhens) -> Result<(), Memory>
    ensures { OnOk result (map call_view found.new ≡ map call_view found.old ++ when_calls (tree_whens (whens_view whens.now))) }
{
    for when in whens.as_slice() {
        push_calls(found, &when.cond)?;
        push_calls(found, &when.result)?;
    }
    Ok(())
}

/// Puts the aggregate calls of a condition of FILTER, if there is one, behind those that were found.
pub fn push_optional<'a>(
    found: &mut CallRefs<'a>,
    tree: &'a Option<Boxed<Tree>>,
) -> Result<(), Memory>
    ensures { OnOk result (map call_view found.new ≡ map call_view found.old ++ optional_calls (optional_tree (option_map view tree.now))) }
{
    match tree {
        None => Ok(()),
        Some(tree) => push_calls(found, tree),
    }
}

/// Puts the aggregate calls of arguments behind those that were found.
#[tactic(auto, unfolding(sql_syntax::specs::View::args_view, sql_syntax::specs::View::view))]
pub fn push_args<'a>(found: &mut CallRefs<'a>, args: &'a Args) -> Result<(), Memory>
    ensures { OnOk result (map call_view found.new ≡ map call_view found.old ++ args_calls (args_view args.now)) }
{
    match args {
        Args::Empty | Args::Star => Ok(()),
        Args::List { values, .. } => push_all(found, values),
    }
}
