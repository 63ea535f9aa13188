//! An INSERT: its query over the tables other than the sink, and the sink's columns.
ghost use Rattle.bind_names.specs.declared.fault.BindFault.TheVariants as f;
ghost use Rattle.std.specs.Prelude.{◌≡◌, Ok, Err, option_map, IfOk, IsErrOf};
ghost use Rattle.std.specs.List.{find};
ghost use Rattle.ct_value.specs.declared.codes.ScriptCode.{ScriptCode};
ghost use Rattle.sql_syntax.specs.View.{query_view};
ghost use Rattle.binding.specs.Inserts as i;
ghost use Rattle.bind_clauses.specs.Views.{relation_view};
ghost use Rattle.binder.specs.Bound.{names_bound, sink_bound};
ghost use Rattle.binder.specs.Steps.{misfits};
ghost use Rattle.binder.specs.Views.{bound_view};

use crate::bound::{Bound, BoundQuery};
use crate::queries::bind_query;
use crate::sinks::{go_into, scans};
use bind_clauses::Relation;
use bind_names::BindFault;
use ct_catalog::{Sources, TableDef};
use ct_value::{Memory, ScriptCode, Text};
use sql_syntax::Query;
use std::alloc::Global;

/// The names of an INSERT of a query into a table, over the tables of the catalogue; or the first refusal. A rank without a bound is
/// not refused here.
pub fn bind<'a>(
    alloc: Global,
    tables: &Sources,
    name: &Text,
    query: &'a Query,
) -> Result<Bound<'a>, BindFault>
    ensures ok { IfOk result (λ x. names_bound tables.now name.now (query_view query.now) ≡ Ok (bound_view x)) }
    ensures refused { (code : ScriptCode) → IsErrOf result (f.Refused code) → names_bound tables.now name.now (query_view query.now) ≡ Err code }
{
    match find_table(tables, name) {
        None => Err(BindFault::Refused(ScriptCode::UnknownTable)),
        Some(table) => {
            let sink = table.dup()?;
            let sources = sources_for(alloc, tables, name)?;
            into_sink(alloc, sources, query, sink)
        }
    }
}

fn find_table<'a>(tables: &'a Sources, name: &Text) -> Option<&'a TableDef>
    ensures { option_map (λ table. table.now) result ≡ find (i.is_table name.now) tables.now }
{
    tables
        .as_slice()
        .iter()
        .find(|table| name.is(table.name.as_slice()))
}

// The tables that the query may read, again.
fn sources_for(alloc: Global, tables: &Sources, sink: &Text) -> Result<Sources, Memory>
    ensures { IfOk result (λ sources. sources ≡ i.sources_for tables.now sink.now) }
{
    let mut sources = Sources::new(alloc);
    for table in tables.as_slice() {
        if !sink.is(table.name.as_slice()) {
            sources.push(table.dup()?)?;
        }
    }
    Ok(sources)
}

// While the query is bound the sink stands behind the sources, so that a query that reads it is told from one that reads no table.
#[tactic(auto, using(crate::proofs::IntoSinks::has_columns))]
fn into_sink<'a>(
    alloc: Global,
    sources: Sources,
    query: &'a Query,
    sink: TableDef,
) -> Result<Bound<'a>, BindFault>
    ensures ok { IfOk result (λ x. sink_bound sources (query_view query.now) sink ≡ Ok (bound_view x)) }
    ensures refused { (code : ScriptCode) → IsErrOf result (f.Refused code) → sink_bound sources (query_view query.now) sink ≡ Err code }
{
    let mut tables = sources.dup()?;
    tables.push(sink.dup()?)?;
    let relation = bind_query(alloc, true, &tables, query)?;
    if misfits(sources.len(), &relation, &sink) {
        return Err(BindFault::Refused(ScriptCode::SinkShape));
    }
    let query = BoundQuery {
        query,
        tables,
        columns: relation.scope,
    };
    Ok(Bound {
        query,
        sources,
        sink,
    })
}

// Whether the query reads its sink, or has columns that don't go into it.
fn misfits(number: usize, relation: &Relation, sink: &TableDef) -> bool
    ensures { result ≡ misfits number (relation_view relation.now) sink.now }
{
    scans(number, &relation.rel) || !go_into(&relation.scope, sink.cols.as_slice())
}
