//! The columns of both sides.
ghost use Rattle.std.specs.Prelude.{◌≡◌, ◌==◌, option_map, IfOk, IsTrue};
ghost use Rattle.std.specs.List.{list_any};
ghost use Rattle.query_answer.specs.Names as q;
ghost use Rattle.rel_algebra.specs.Joins as j;
ghost use Rattle.binding.specs.Queries as b;
ghost use Rattle.bind_sources.specs.Columns as c;

use bind_names::is_called;
use ct_value::{ColTy, Memory, Text};
use query_answer::{Scope, ScopeColumn};
use rel_algebra::JoinKind;
use std::alloc::Global;

fn any_called(source: &Text, scope: &Scope) -> bool
    ensures { result ≡ list_any (λ c. q.is_called source.now c.source) scope.now }
{
    scope
        .as_slice()
        .iter()
        .any(|column| is_called(source, &column.source))
}

fn has_source(scope: &Scope, source: &Option<Text>) -> bool
    ensures { result ≡ b.has_source scope.now source.now }
{
    match source {
        None => false,
        Some(source) => any_called(source, scope),
    }
}

// Whether a name is that one again.
#[tactic(auto, using(crate::proofs::Sources::again))]
fn is_again(last: Option<&Text>, source: &Option<Text>) -> bool
    ensures { IsTrue result → source.now ≡ option_map (λ t. t.now) last.entry }
{
    match last {
        None => source.is_none(),
        Some(last) => is_called(last, source),
    }
}

/// Whether two sources have one name. The columns of a source stand side by side: its name is looked for once.
pub(crate) fn share_source(left: &Scope, right: &Scope) -> bool
    ensures { result ≡ b.share_source left.now right.now }
{
    let mut last = None;
    for column in right.as_slice() {
        if !is_again(last, &column.source) {
            if has_source(left, &column.source) {
                return true;
            }
            last = column.source.as_ref();
        }
    }
    false
}

fn keeps_left(kind: JoinKind) -> bool
    ensures { result ≡ j.keeps_left kind }
{
    match kind {
        JoinKind::Left | JoinKind::Full => true,
        JoinKind::Inner | JoinKind::Right => false,
    }
}

fn keeps_right(kind: JoinKind) -> bool
    ensures { result ≡ j.keeps_right kind }
{
    match kind {
        JoinKind::Right | JoinKind::Full => true,
        JoinKind::Inner | JoinKind::Left => false,
    }
}

// NULL may stand in the columns of a side whose rows may be missing.
fn nullable(may: bool, column: ScopeColumn) -> ScopeColumn
    ensures { result ≡ c.nullable may column }
{
    ScopeColumn {
        source: column.source,
        name: column.name,
        ty: ColTy {
            ty: column.ty.ty,
            nullable: may || column.ty.nullable,
        },
    }
}

// A column behind which, itself counted, so many of the left side are left.
fn column_of(kind: JoinKind, left: usize, column: ScopeColumn) -> ScopeColumn
    ensures { result ≡ c.column_of kind left column }
{
    let may = if left == 0 {
        keeps_left(kind)
    } else {
        keeps_right(kind)
    };
    nullable(may, column)
}

/// The columns of a join: those of both sides, the first so many of which are the left's.
#[tactic(auto, using(crate::proofs::Sources::unchanged))]
pub(crate) fn columns(
    alloc: Global,
    kind: JoinKind,
    width: usize,
    both: Scope,
) -> Result<Scope, Memory>
    ensures { IfOk result (λ scope. scope ≡ c.columns kind width both) }
{
    if !keeps_left(kind) && !keeps_right(kind) {
        return Ok(both);
    }
    changed(alloc, kind, width, both)
}

// Those of a join whose rows may be missing on a side.
fn changed(alloc: Global, kind: JoinKind, width: usize, both: Scope) -> Result<Scope, Memory>
    ensures { IfOk result (λ scope. scope ≡ c.columns kind width both) }
{
    let mut scope = Scope::with_capacity(alloc, both.len())?;
    let mut left = width;
    for column in both.into_vec() {
        scope.push(column_of(kind, left, column))?;
        left = left.saturating_sub(1);
    }
    Ok(scope)
}
