//! DISTINCT and UNION ALL.
ghost use Rattle.bind_names.specs.declared.fault.BindFault.TheVariants as f;
ghost use Rattle.std.specs.Prelude.{◌≡◌, Ok, Err, IfOk, IsErrOf};
ghost use Rattle.ct_value.specs.declared.codes.ScriptCode.{ScriptCode};
ghost use Rattle.binding.specs.Queries as q;
ghost use Rattle.bind_clauses.specs.Unions.{one_united};
ghost use Rattle.bind_clauses.specs.Views.{relation_view};

use crate::relation::Relation;
use bind_names::{BindFault, dup_name};
use ct_value::{Boxed, ColTy, Memory, ScriptCode};
use query_answer::{Scope, ScopeColumn};
use rel_algebra::{Aggs, Rel, SetKind, set_column};
use std::alloc::Global;

/// DISTINCT, which is a Group of all columns.
#[tactic(auto, using(rel_algebra::proofs::laws::Views::view_group))]
pub fn once(alloc: Global, distinct: bool, relation: Relation) -> Result<Relation, Memory>
    ensures { IfOk result (λ x. relation_view x ≡ q.once distinct (relation_view relation)) }
{
    if !distinct {
        return Ok(relation);
    }
    let Ok(keys) = u32::try_from(relation.scope.len()) else {
        return Err(Memory);
    };
    let rel = Rel::Group {
        input: relation.rel,
        keys,
        aggs: Aggs::new(alloc),
    };
    Ok(Relation {
        rel: Boxed::new(alloc, rel)?,
        scope: relation.scope,
    })
}

/// The columns of both terms, whose names are those of the first.
#[tactic(auto, using(crate::proofs::Unites::united_refused, crate::proofs::Unites::united_ends))]
pub(crate) fn united(
    alloc: Global,
    kind: SetKind,
    first: &Scope,
    second: &Scope,
) -> Result<Scope, BindFault>
    ensures ok { IfOk result (λ scope. q.united_by kind first.now second.now ≡ Ok scope) }
    ensures refused { (code : ScriptCode) → IsErrOf result (f.Refused code) → q.united_by kind first.now second.now ≡ Err code }
{
    if first.len() != second.len() {
        return Err(BindFault::Refused(ScriptCode::TypeMismatch));
    }
    let mut scope = Scope::with_capacity(alloc, first.len())?;
    let mut place = 0;
    'columns: while place < first.len() {
        let column = &first.as_slice()[place];
        let other = &second.as_slice()[place];
        scope.push(united_column(kind, column, other.ty)?)?;
        place += 1;
    }
    Ok(scope)
}

// A column of both.
fn united_column(
    kind: SetKind,
    column: &ScopeColumn,
    other: ColTy,
) -> Result<ScopeColumn, BindFault>
    ensures ok { IfOk result (λ c. one_united kind column.now other ≡ Ok c) }
    ensures refused { (code : ScriptCode) → IsErrOf result (f.Refused code) → one_united kind column.now other ≡ Err code }
{
    match set_column(kind, column.ty, other) {
        None => Err(BindFault::Refused(ScriptCode::TypeMismatch)),
        Some(ty) => Ok(ScopeColumn {
            source: dup_name(&column.source)?,
            name: dup_name(&column.name)?,
            ty,
        }),
    }
}
