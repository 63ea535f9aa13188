//! FROM, and conditions as one.
ghost use Rattle.bind_names.specs.declared.fault.BindFault.TheVariants as f;
ghost use Rattle.std.specs.Prelude.{◌≡◌, Ok, Err, Some, map, option_map, IfOk, IsErrOf};
ghost use Rattle.ct_value.specs.declared.codes.ScriptCode.{ScriptCode};
ghost use Rattle.ct_expr.specs.View.{expr_view, exprs_view};
ghost use Rattle.query_answer.specs.Answer.{table_scope, renamed_scope, under};
ghost use Rattle.binding.specs.Queries as q;
ghost use Rattle.binding.specs.Queries.{all_of, find_source};
ghost use Rattle.bind_nodes.specs.Views.{bounds_view};
ghost use Rattle.bind_clauses.specs.Conditions.{one_or_all};
ghost use Rattle.bind_clauses.specs.Views.{relation_view};

use crate::relation::Relation;
use bind_names::{BindFault, dup_name, next_number};
use bind_nodes::{Bounds, operands};
use ct_catalog::{ColDef, Sources, TableDef};
use ct_expr::{Expr, Exprs};
use ct_value::{Boxed, Memory, ScriptCode, Text};
use query_answer::{Scope, ScopeColumn};
use rel_algebra::Rel;
use std::alloc::Global;

// A table of this name, with its number.
#[tactic(auto, using(crate::proofs::Finds::here, crate::proofs::Finds::not_here))]
fn find_source<'a>(sources: &'a Sources, name: &Text) -> Result<Option<(u32, &'a TableDef)>, Memory>
    ensures { IfOk result (λ found. option_map (λ p. (p.0, p.1.now)) found ≡ find_source 0 sources.now name.now) }
{
    let mut number = 0;
    for table in sources.as_slice() {
        if name.is(table.name.as_slice()) {
            return Ok(Some((number, table)));
        }
        number = next_number(number)?;
    }
    Ok(None)
}

/// The rows of a table, whose columns are of its alias, or else of its name.
pub fn read(
    alloc: Global,
    sources: &Sources,
    name: &Text,
    alias: &Option<Text>,
) -> Result<Relation, BindFault>
    ensures ok { IfOk result (λ x. q.read alias.now (find_source 0 sources.now name.now) ≡ Ok (relation_view x)) }
    ensures refused { (code : ScriptCode) → IsErrOf result (f.Refused code) → q.read alias.now (find_source 0 sources.now name.now) ≡ Err code }
{
    match find_source(sources, name)? {
        None => Err(BindFault::Refused(ScriptCode::UnknownTable)),
        Some((source, table)) => Ok(scan(alloc, source, alias, table)?),
    }
}

#[tactic(auto, using(rel_algebra::proofs::laws::Views::view_scan))]
fn scan(
    alloc: Global,
    source: u32,
    alias: &Option<Text>,
    table: &TableDef,
) -> Result<Relation, Memory>
    ensures { IfOk result (λ x. q.read alias.now (Some (source, table.now)) ≡ Ok (relation_view x)) }
{
    let scope = table_scope(alloc, alias, table)?;
    let rel = Boxed::new(alloc, Rel::Scan { source })?;
    Ok(Relation { rel, scope })
}

fn table_scope(alloc: Global, alias: &Option<Text>, table: &TableDef) -> Result<Scope, Memory>
    ensures { IfOk result (λ scope. scope ≡ table_scope alias.now table.now) }
{
    match alias {
        Some(alias) => columns_under(alloc, alias, table.cols.as_slice()),
        None => columns_under(alloc, &table.name, table.cols.as_slice()),
    }
}

fn columns_under(alloc: Global, source: &Text, columns: &[ColDef]) -> Result<Scope, Memory>
    ensures { IfOk result (λ scope. scope ≡ map (λ c. under (Some source.now) (Some c.name) c.ty) columns.now) }
{
    let mut scope = Scope::with_capacity(alloc, columns.len())?;
    for column in columns {
        scope.push(column_under(source, column)?)?;
    }
    Ok(scope)
}

fn column_under(source: &Text, column: &ColDef) -> Result<ScopeColumn, Memory>
    ensures { IfOk result (λ c. c ≡ under (Some source.now) (Some column.now.name) column.now.ty) }
{
    let source = source.dup()?;
    let name = column.name.dup()?;
    Ok(ScopeColumn {
        source: Some(source),
        name: Some(name),
        ty: column.ty,
    })
}

/// The rows of a query among the sources, whose columns are of its alias, if it has one.
pub fn renamed(alloc: Global, alias: &Option<Text>, relation: Relation) -> Result<Relation, Memory>
    ensures { IfOk result (λ x. relation_view x ≡ q.renamed alias.now (relation_view relation)) }
{
    let scope = renamed_scope(alloc, alias, &relation.scope)?;
    Ok(Relation {
        rel: relation.rel,
        scope,
    })
}

fn renamed_scope(alloc: Global, alias: &Option<Text>, scope: &Scope) -> Result<Scope, Memory>
    ensures { IfOk result (λ named. named ≡ renamed_scope alias.now scope.now) }
{
    let mut named = Scope::with_capacity(alloc, scope.len())?;
    for column in scope.as_slice() {
        named.push(renamed_column(alias, column)?)?;
    }
    Ok(named)
}

fn renamed_column(alias: &Option<Text>, column: &ScopeColumn) -> Result<ScopeColumn, Memory>
    ensures { IfOk result (λ c. c ≡ under alias.now column.now.name column.now.ty) }
{
    let source = dup_name(alias)?;
    let name = dup_name(&column.name)?;
    Ok(ScopeColumn {
        source,
        name,
        ty: column.ty,
    })
}

/// All conditions together: one is itself, several are their And.
#[tactic(auto, using(crate::proofs::Finds::as_one))]
pub fn all_of(alloc: Global, bounds: Bounds) -> Result<Expr, Memory>
    ensures { IfOk result (λ x. expr_view x ≡ all_of (bounds_view bounds)) }
{
    let exprs = operands(alloc, bounds)?;
    Ok(one_or_all(exprs))
}

#[tactic(auto, using(ct_expr::proofs::laws::Views::view_and, crate::proofs::Finds::only_one, crate::proofs::Finds::not_one))]
fn one_or_all(exprs: Exprs) -> Expr
    ensures { expr_view result ≡ one_or_all (exprs_view exprs) }
{
    let mut exprs = exprs;
    if exprs.len() != 1 {
        return Expr::And(exprs);
    }
    match exprs.pop() {
        Some(expr) => expr,
        None => Expr::And(exprs),
    }
}
