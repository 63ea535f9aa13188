use ct_catalog::Catalog;
use rewrite::Inserted;
use sql_syntax::Query;

/// An accepted script: the number of its INSERT, its tables and settings, and the INSERT's query with what it is bound to.
#[derive(Drop)]
pub struct Accepted {
    pub statement: u32,
    pub catalog: Catalog,
    pub query: Query,
    pub inserted: Inserted,
}
