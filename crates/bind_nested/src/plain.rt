//! Conjuncts without a subquery.
ghost use Rattle.bind_names.specs.declared.fault.BindFault.TheVariants as f;
ghost use Rattle.std.specs.Prelude.{◌≡◌, Ok, Err, length, IfOk, IsErrOf};
ghost use Rattle.ct_value.specs.declared.codes.ScriptCode.{ScriptCode};
ghost use Rattle.sql_syntax.specs.View.{view};
ghost use Rattle.binding.specs.Queries as q;
ghost use Rattle.bind_nested.specs.PartViews.{outside_view, part_view};

use crate::part::{Outside, Part};
use bind_expressions::{bind_by, bind_over};
use bind_names::{BindFault, Lookup, looks_outside, pair_of};
use ct_value::Memory;
use query_answer::Scope;
use sql_syntax::Tree;
use std::alloc::Global;

/// A condition on a row in reach; or, where it looks outside, one on a row outside with it.
pub fn plain_part(
    alloc: Global,
    outside: Outside<'_>,
    own: &Scope,
    tree: &Tree,
) -> Result<Part, BindFault>
    ensures ok { IfOk result (λ p. q.plain_part (outside_view outside.entry) own.now (view tree.now) ≡ Ok (part_view p)) }
    ensures refused { (code : ScriptCode) → IsErrOf result (f.Refused code) → q.plain_part (outside_view outside.entry) own.now (view tree.now) ≡ Err code }
{
    match outside {
        Outside::Hidden => own_part(alloc, own, tree),
        Outside::InReach(columns) => within(alloc, columns, own, tree),
    }
}

// The same within a subquery.
#[tactic(auto, using(crate::proofs::Plains::linked, crate::proofs::Plains::not_linked))]
fn within(alloc: Global, outside: &Scope, own: &Scope, tree: &Tree) -> Result<Part, BindFault>
    ensures ok { IfOk result (λ p. q.within_part outside.now own.now (view tree.now) ≡ Ok (part_view p)) }
    ensures refused { (code : ScriptCode) → IsErrOf result (f.Refused code) → q.within_part outside.now own.now (view tree.now) ≡ Err code }
{
    if looks_outside(own, tree) {
        return linked_part(alloc, outside, own, tree);
    }
    own_part(alloc, own, tree)
}

fn own_part(alloc: Global, own: &Scope, tree: &Tree) -> Result<Part, BindFault>
    ensures ok { IfOk result (λ p. q.own_part own.now (view tree.now) ≡ Ok (part_view p)) }
    ensures refused { (code : ScriptCode) → IsErrOf result (f.Refused code) → q.own_part own.now (view tree.now) ≡ Err code }
{
    let condition = bind_over(alloc, own, tree)?;
    Ok(Part::Own(condition))
}

fn linked_part(alloc: Global, outside: &Scope, own: &Scope, tree: &Tree) -> Result<Part, BindFault>
    ensures ok { IfOk result (λ p. q.linked_part outside.now own.now (view tree.now) ≡ Ok (part_view p)) }
    ensures refused { (code : ScriptCode) → IsErrOf result (f.Refused code) → q.linked_part outside.now own.now (view tree.now) ≡ Err code }
{
    let look = Lookup::Linked { outside, own };
    let condition = bind_by(alloc, look, tree)?;
    let width = width_of(outside)?;
    let pair = pair_of(look, width, tree)?;
    Ok(Part::Linked { pair, condition })
}

/// How many columns there are.
pub(crate) fn width_of(scope: &Scope) -> Result<u32, Memory>
    ensures { IfOk result (λ width. width ≡ length scope.now) }
{
    let Ok(width) = u32::try_from(scope.len()) else {
        return Err(Memory);
    };
    Ok(width)
}
