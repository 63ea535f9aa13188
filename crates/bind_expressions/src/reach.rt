//! What whole nodes are bound to.
ghost use Rattle.bind_names.specs.declared.fault.BindFault.TheVariants as f;
ghost use Rattle.std.specs.Prelude.{◌≡◌, ◌+◌, ℕ, None, Ok, Err, length, option_map, IfOk, IsErrOf};
ghost use Rattle.ct_value.specs.declared.codes.ScriptCode.{ScriptCode};
ghost use Rattle.sql_syntax.specs.Tree as t;
ghost use Rattle.sql_syntax.specs.View.{view, args_view};
ghost use Rattle.binding.specs.Expressions.{found_column, may_change, names_by};
ghost use Rattle.binding.specs.InGroups as g;
ghost use Rattle.bind_names.specs.Lookups.{lookup_of};
ghost use Rattle.bind_nodes.specs.Views.{bound_view, bounds_view};

use crate::{Group, call_column, has_no_keys, plus};
use bind_names::{BindFault, Lookup, function_of, is_changing};
use bind_nodes::{Bound, Bounds, found_column};
use ct_value::{ScriptCode, Text};
use query_answer::Scope;
use rel_algebra::AggCall;
use sql_syntax::{Args, Tree};
use std::alloc::Global;

/// What whole nodes are bound to: the columns in reach, or in a grouped select the columns of a group's row.
#[derive(Clone, Copy)]
pub enum Reach<'a> {
    Rows(Lookup<'a>),
    Groups(&'a Group<'a>),
}

// Whether a name that finds no column may be that of a function whose answer changes.
fn may_change(of: &Option<Text>, name: &Text, quoted: bool) -> bool
    ensures { result ≡ may_change of.now name.now quoted }
{
    match (of, quoted) {
        (None, false) => is_changing(function_of(name)),
        _ => false,
    }
}

/// The column that a name stands for.
pub(crate) fn name_bound(
    alloc: Global,
    look: Lookup<'_>,
    of: &Option<Text>,
    name: &Text,
    quoted: bool,
) -> Result<Bound, BindFault>
    ensures ok { IfOk result (λ x. found_column (may_change of.now name.now quoted) (lookup_of look.entry of.now name.now) ≡ Ok (bound_view x)) }
    ensures refused { (code : ScriptCode) → IsErrOf result (f.Refused code) → found_column (may_change of.now name.now quoted) (lookup_of look.entry of.now name.now) ≡ Err code }
{
    let found = look.find(of, name)?;
    found_column(alloc, may_change(of, name, quoted), found)
}

// What a whole node over the columns in reach is bound to; `None` where its operands decide.
#[tactic(auto, unfolding(sql_syntax::specs::View::view))]
pub(crate) fn named(
    alloc: Global,
    look: Lookup<'_>,
    tree: &Tree,
) -> Result<Option<Bound>, BindFault>
    ensures ok { IfOk result (λ o. (n : ℕ) → names_by (lookup_of look.entry) n (view tree.now) ≡ Ok (option_map bound_view o)) }
    ensures refused { (code : ScriptCode) → IsErrOf result (f.Refused code) → (n : ℕ) → names_by (lookup_of look.entry) n (view tree.now) ≡ Err code }
{
    match tree {
        Tree::Name { of, name, quoted } => { Ok(Some(name_bound(alloc, look, of, name, *quoted)?)) }
        _ => Ok(None),
    }
}

// A name that is no GROUP BY expression: it isn't grouped, if it is a column at all.
pub(crate) fn ungrouped(
    alloc: Global,
    scope: &Scope,
    of: &Option<Text>,
    name: &Text,
    quoted: bool,
) -> Result<Option<Bound>, BindFault>
    ensures ok { IfOk result (λ o. ⊥) }
    ensures refused { (code : ScriptCode) → IsErrOf result (f.Refused code) → g.or_refused scope.now (t.Name of.now name.now quoted) None ≡ Err code }
{
    name_bound(alloc, Lookup::Own(scope), of, name, quoted)?;
    Err(BindFault::Refused(ScriptCode::NotGrouped))
}

// The column of an aggregate call, so many calls being before it.
pub(crate) fn numbered(
    alloc: Global,
    keys: &Bounds,
    number: u32,
    call: AggCall,
    args: &Args,
    operands: &Bounds,
    filter: &Option<Bound>,
) -> Result<Bound, BindFault>
    ensures ok { IfOk result (λ x. g.call_column (g.has_no_keys (bounds_view keys.now)) (length (bounds_view keys.now) + number) call (args_view args.now) (bounds_view operands.now) (option_map bound_view filter.now) ≡ Ok (bound_view x)) }
    ensures refused { (code : ScriptCode) → IsErrOf result (f.Refused code) → g.call_column (g.has_no_keys (bounds_view keys.now)) (length (bounds_view keys.now) + number) call (args_view args.now) (bounds_view operands.now) (option_map bound_view filter.now) ≡ Err code }
{
    let place = plus(number, keys.len())?;
    let global = has_no_keys(keys);
    call_column(alloc, global, place, call, args, operands, filter)
}
