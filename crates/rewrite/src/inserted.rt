use bind_clauses::Relation;
use ct_catalog::{Sources, TableDef};

/// What an INSERT is bound to: the algebra of its query over the sources, by their numbers, and its sink.
#[derive(Drop)]
pub struct Inserted {
    pub query: Relation,
    pub sources: Sources,
    pub sink: TableDef,
}
