//! What an INSERT is bound to while a rank of its query may still lack a bound.
ghost use Rattle.std.specs.Prelude.{◌≡◌, Ok};
ghost use Rattle.sql_syntax.specs.View.{query_view};
ghost use Rattle.binder.specs.Bound.{columns_bound};

use ct_catalog::{Sources, TableDef};
use query_answer::Scope;
use sql_syntax::Query;

/// A query whose names are bound: as it is written, over its sources with the sink behind them, and the columns that it has.
#[derive(Drop)]
pub struct BoundQuery<'a> {
    pub query: &'a Query,
    pub tables: Sources,
    pub columns: Scope,
    pub ghost bound: { columns_bound tables (query_view query.now) ≡ Ok columns },
}

/// An INSERT whose names are bound: its query, the tables that this may read, and its sink.
#[derive(Drop)]
pub struct Bound<'a> {
    pub query: BoundQuery<'a>,
    pub sources: Sources,
    pub sink: TableDef,
}
