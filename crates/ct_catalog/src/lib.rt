//! The catalogue of a script: the tables that CREATE TABLE declares, and the settings.
//!
//! Promised: `Catalog::apply` answers the next catalogue, or the first refusal in the order of the definitions
//! (`specs/Catalogue`), and then leaves the catalogue as it was. It stands on syntax trees alone, and knows no parser.
#![tactic(auto)]

mod catalog;
mod create;
mod numbers;
mod settings;
mod table;
mod types;

pub use catalog::{Catalog, CatalogFault};
pub use settings::{Materialize, Settings};
pub use table::{ColDef, ColDefs, Sources, TableDef};
pub use types::type_of;
