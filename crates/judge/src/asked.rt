use ct_catalog::Catalog;
use ct_value::List;
use sql_syntax::Statement;

/// An INSERT of a script, and the number of its statement, the first of all having the number 1.
#[derive(Drop)]
pub struct Insert {
    pub number: u32,
    pub statement: Statement,
}

/// INSERTs, in the order of the script.
pub type Inserts = List<Insert>;

/// What a script asks for: its tables and settings, and its INSERTs.
#[derive(Drop)]
pub struct Asked {
    pub catalog: Catalog,
    pub inserts: Inserts,
}
