//! The columns that a select list makes, and its Project.
ghost use Rattle.bind_names.specs.declared.fault.BindFault.TheVariants as f;
ghost use Rattle.std.specs.Prelude.{◌≡◌, Ok, Err, None, IfOk, IsErrOf};
ghost use Rattle.ct_value.specs.declared.codes.ScriptCode.{ScriptCode};
ghost use Rattle.ct_expr.specs.View.{expr_view, exprs_view};
ghost use Rattle.rel_algebra.specs.View.{rel_view};
ghost use Rattle.query_answer.specs.Answer.{under};
ghost use Rattle.binding.specs.Queries.{few, headed, is_column, is_in_place, projected};
ghost use Rattle.bind_nodes.specs.Views.{bounds_view};
ghost use Rattle.bind_clauses.specs.Views.{relation_view};
ghost use Rattle.bind_names.specs.Entries.{entries_view};

use crate::relation::Relation;
use bind_names::{BindFault, Entries, dup_name};
use bind_nodes::{Bounds, operands};
use ct_expr::{Expr, Exprs};
use ct_value::{Boxed, ColTy, Memory, ScriptCode, Text};
use query_answer::{Scope, ScopeColumn};
use rel_algebra::Rel;
use std::alloc::Global;

/// The same expressions, of which there are at most 64.
pub fn few(bounds: Bounds) -> Result<Bounds, BindFault>
    ensures ok { IfOk result (λ xs. few (bounds_view bounds) ≡ Ok (bounds_view xs)) }
    ensures refused { (code : ScriptCode) → IsErrOf result (f.Refused code) → few (bounds_view bounds) ≡ Err code }
{
    if bounds.len() > 64 {
        return Err(BindFault::Refused(ScriptCode::TooManyColumns));
    }
    Ok(bounds)
}

#[tactic(auto, unfolding(ct_expr::specs::View::expr_view))]
fn is_column(place: usize, expr: &Expr) -> bool
    ensures { result ≡ is_column place (expr_view expr.now) }
{
    match expr {
        Expr::Column { col, .. } => place == *col as usize,
        _ => false,
    }
}

// Whether each item is the column at its place, and there are as many as the input has columns.
#[tactic(auto, using(crate::proofs::Projects::elsewhere, crate::proofs::Projects::in_place))]
fn is_in_place(width: usize, items: &Exprs) -> bool
    ensures { result ≡ is_in_place 0 width (exprs_view items.now) }
{
    let mut place = 0;
    for item in items.as_slice() {
        if !is_column(place, item) {
            return false;
        }
        place += 1;
    }
    place == width
}

/// A Project of an input with so many columns, which is left out where its items are these columns in place.
#[tactic(auto, using(rel_algebra::proofs::laws::Views::view_project))]
pub fn projected(
    alloc: Global,
    width: usize,
    bounds: Bounds,
    input: Boxed<Rel>,
) -> Result<Boxed<Rel>, Memory>
    ensures { IfOk result (λ rel. rel_view rel ≡ projected width (bounds_view bounds) (rel_view input)) }
{
    let items = operands(alloc, bounds)?;
    if is_in_place(width, &items) {
        return Ok(input);
    }
    Boxed::new(alloc, Rel::Project { input, items })
}

// The columns that entries make, as long as there are entries and expressions.
fn headed(alloc: Global, entries: &Entries<'_>, bounds: &Bounds) -> Result<Scope, Memory>
    ensures { IfOk result (λ scope. scope ≡ headed (entries_view entries.now) (bounds_view bounds.now)) }
{
    let mut scope = Scope::with_capacity(alloc, bounds.len())?;
    let mut place = 0;
    'columns: while place < entries.len() && place < bounds.len() {
        let entry = &entries.as_slice()[place];
        let bound = &bounds.as_slice()[place];
        scope.push(made(&entry.name, bound.column)?)?;
        place += 1;
    }
    Ok(scope)
}

fn made(name: &Option<Text>, ty: ColTy) -> Result<ScopeColumn, Memory>
    ensures { IfOk result (λ c. c ≡ under None name.now ty) }
{
    Ok(ScopeColumn {
        source: None,
        name: dup_name(name)?,
        ty,
    })
}

/// The columns that entries make of an input with so many columns, by a Project where it isn't left out.
pub fn finished(
    alloc: Global,
    width: usize,
    entries: &Entries<'_>,
    bounds: Bounds,
    input: Boxed<Rel>,
) -> Result<Relation, Memory>
    ensures { IfOk result (λ x. relation_view x ≡ record { rel = projected width (bounds_view bounds) (rel_view input); scope = headed (entries_view entries.now) (bounds_view bounds) }) }
{
    let scope = headed(alloc, entries, &bounds)?;
    let rel = projected(alloc, width, bounds, input)?;
    Ok(Relation { rel, scope })
}
