//! The theorem of binding: what an accepted query is bound to has the query's answer, out of range included.
//!
//! It stands on the definitions of `query_answer`, `binding` and `rel_algebra`. Each function stands for a theorem, which is its
//! contract.
#![tactic(auto)]

ghost use Rattle.std.specs.Prelude.{◌≡◌, false, List, IfOk};
ghost use Rattle.ct_catalog.specs.declared.table.TableDef.{TableDef};
ghost use Rattle.ct_change.specs.Changelog.{Rows};
ghost use Rattle.rel_algebra.specs.Answer.{answer};
ghost use Rattle.sql_syntax.specs.Tree.{Query, Text};
ghost use Rattle.query_answer.specs.Answer.{TableRows, answer as query_answer};
ghost use Rattle.binding.specs.Inserts.{insert_bound};
ghost use Rattle.binding.specs.Queries.{query_bound};
ghost use Rattle.query_laws.specs.Statement.{HaveWidths, KeepsAnswer, declared, tables_of};

/// What an accepted query is bound to has the query's answer, out of range included, and the query's columns with their names, over
/// tables whose rows have as many values as their table has columns, whatever they are.
pub fn binding_keeps_the_answer()
    ensures rows { (tables : List TableRows) (query : Query) → HaveWidths (tables_of tables) → IfOk (query_bound false (declared tables) query) (λ bound. answer (tables_of tables) bound.rel ≡ (query_answer tables query).rows) }
    ensures columns { (tables : List TableRows) (query : Query) → HaveWidths (tables_of tables) → IfOk (query_bound false (declared tables) query) (λ bound. bound.scope ≡ (query_answer tables query).scope) }
{}

/// What the query of an accepted INSERT is bound to has, over the sources, the answer that the query has over the sources and the
/// sink, whatever rows are in the sink.
pub fn inserts_keep_the_answer()
    ensures { (tables : List TableDef) (name : Text) (query : Query) (sources : List TableRows) (rows : Rows) → IfOk (insert_bound tables name query) (KeepsAnswer query sources rows) }
{}
