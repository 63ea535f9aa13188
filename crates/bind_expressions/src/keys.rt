//! The columns of GROUP BY expressions.
ghost use Rattle.bind_names.specs.declared.fault.BindFault.TheVariants as f;
ghost use Rattle.std.specs.Prelude.{◌≡◌, ◌+◌, Some, option_map, IfOk, IsErrOf};
ghost use Rattle.ct_value.specs.declared.codes.ScriptCode.{ScriptCode};
ghost use Rattle.sql_syntax.specs.View.{view};
ghost use Rattle.query_answer.specs.Names.{find};
ghost use Rattle.query_answer.specs.Shapes.{Shape, shape, column_shape};
ghost use Rattle.binding.specs.InGroups as g;
ghost use Rattle.bind_shapes.specs.Codes as c;
ghost use Rattle.bind_shapes.specs.Codes.{code};
ghost use Rattle.bind_nodes.specs.Views.{bound_view, bounds_view};
ghost use Rattle.bind_expressions.specs.Keys.{key_in};

use crate::group::Group;
use bind_names::BindFault;
use bind_nodes::{Bound, Bounds, column};
use bind_shapes::{Code, column_code, place, places_of, shape_code};
use ct_value::Memory;
use query_answer::Scope;
use sql_syntax::{Tree, Trees};
use std::alloc::Global;

/// The GROUP BY expressions of a select, of which `keys` are the bound ones.
pub fn group_of<'a>(
    alloc: Global,
    scope: &'a Scope,
    trees: &'a Trees,
    keys: Bounds,
) -> Result<Group<'a>, Memory>
    ensures scope { IfOk result (λ group. group.scope.now ≡ scope.now) }
    ensures trees { IfOk result (λ group. group.trees.now ≡ trees.now) }
    ensures keys { IfOk result (λ group. group.keys ≡ keys) }
{
    let places = places_of(alloc, scope, trees)?;
    Ok(Group {
        scope,
        trees,
        keys,
        places,
    })
}

/// A number and so many more. No more columns or calls fit into memory than a number of 32 bits tells.
pub fn plus(number: u32, count: usize) -> Result<u32, Memory>
    ensures { IfOk result (λ sum. sum ≡ number + count) }
{
    match u32::try_from(count) {
        Ok(count) => number.checked_add(count).ok_or(Memory),
        Err(_) => Err(Memory),
    }
}

/// Whether a select has no GROUP BY expression.
#[tactic(auto, using(crate::proofs::Found::no_keys))]
pub fn has_no_keys(keys: &Bounds) -> bool
    ensures { result ≡ g.has_no_keys (bounds_view keys.now) }
{
    keys.is_empty()
}

// The column of the GROUP BY expression at a place, where there is one.
fn key_at(alloc: Global, keys: &Bounds, place: usize) -> Result<Option<Bound>, BindFault>
    ensures ok { IfOk result (λ o. option_map bound_view o ≡ g.key_column (bounds_view keys.now) (Some place)) }
    ensures refused { (code : ScriptCode) → IsErrOf result (f.Refused code) → ⊥ }
{
    let Some(key) = keys.get(place) else {
        return Ok(None);
    };
    match u32::try_from(place) {
        Ok(place) => Ok(Some(column(alloc, place, key.column)?)),
        Err(_) => Err(BindFault::Memory),
    }
}

// The column of the first GROUP BY expression that has a shape.
#[tactic(auto, using(crate::proofs::Found::told))]
fn key_of_code(alloc: Global, group: &Group<'_>, code: Code) -> Result<Option<Bound>, BindFault>
    ensures ok { IfOk result (λ o. (x : Shape) → code ≡ c.code x → option_map bound_view o ≡ key_in group.now x) }
    ensures refused { (code : ScriptCode) → IsErrOf result (f.Refused code) → ⊥ }
{
    match place(&group.places, code) {
        None => Ok(None),
        Some(place) => key_at(alloc, &group.keys, place),
    }
}

/// The column of the first GROUP BY expression that a tree equals once names are resolved.
#[tactic(auto, using(crate::proofs::Found::none_there))]
pub fn key_of(alloc: Global, group: &Group<'_>, tree: &Tree) -> Result<Option<Bound>, BindFault>
    ensures ok { IfOk result (λ o. option_map bound_view o ≡ key_in group.now (shape (find group.now.scope.now) (view tree.now))) }
    ensures refused { (code : ScriptCode) → IsErrOf result (f.Refused code) → ⊥ }
{
    if group.trees.is_empty() {
        return Ok(None);
    }
    let code = shape_code(alloc, group.scope, tree)?;
    key_of_code(alloc, group, code)
}

/// The column of the first GROUP BY expression that is the column at a place, counted from 0.
pub fn key_of_column(
    alloc: Global,
    group: &Group<'_>,
    place: u32,
) -> Result<Option<Bound>, BindFault>
    ensures ok { IfOk result (λ o. option_map bound_view o ≡ key_in group.now (column_shape place)) }
    ensures refused { (code : ScriptCode) → IsErrOf result (f.Refused code) → ⊥ }
{
    let code = column_code(alloc, place)?;
    let key = key_of_code(alloc, group, code)?;
    Ok(key)
}
