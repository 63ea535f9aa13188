//! An INSERT in two walks: its names are bound, and then its query is rewritten to the algebra.
ghost use Rattle.bind_names.specs.declared.fault.BindFault.TheVariants as f;
ghost use Rattle.std.specs.Prelude.{◌≡◌, Ok, Err, IfOk, IsErrOf};
ghost use Rattle.ct_value.specs.declared.codes.ScriptCode.{ScriptCode};
ghost use Rattle.sql_syntax.specs.View.{query_view};
ghost use Rattle.binding.specs.Inserts.{insert_bound};
ghost use Rattle.binder.specs.Views.{bound_view};
ghost use Rattle.rewrite.specs.Rewritten.{inserted};
ghost use Rattle.rewrite.specs.Views.{inserted_view};

use bind_clauses::Relation;
use bind_names::BindFault;
use binder::{Bound, bind};
use ct_catalog::Sources;
use ct_value::{Boxed, ScriptCode, Text};
use rewrite::{Inserted, RewriteFault, to_rel};
use sql_syntax::Query;
use std::alloc::Global;

/// An INSERT of a query into a table, over the tables of the catalogue; or the first refusal.
pub(crate) fn insert_bound(
    alloc: Global,
    tables: &Sources,
    name: &Text,
    query: &Query,
) -> Result<Inserted, BindFault>
    ensures ok { IfOk result (λ x. insert_bound tables.now name.now (query_view query.now) ≡ Ok (inserted_view x)) }
    ensures refused { (code : ScriptCode) → IsErrOf result (f.Refused code) → insert_bound tables.now name.now (query_view query.now) ≡ Err code }
{
    let bound = bind(alloc, tables, name, query)?;
    inserted(alloc, bound)
}

// With the algebra of its query; a rank without a bound is refused behind all else.
#[tactic(auto, using(crate::proofs::Walks::has_algebra, crate::proofs::Walks::has_none))]
fn inserted(alloc: Global, bound: Bound<'_>) -> Result<Inserted, BindFault>
    ensures ok { IfOk result (λ x. inserted (bound_view bound.entry) ≡ Ok (inserted_view x)) }
    ensures refused { (code : ScriptCode) → IsErrOf result (f.Refused code) → inserted (bound_view bound.entry) ≡ Err code }
{
    let Bound {
        query,
        sources,
        sink,
    } = bound;
    match to_rel(alloc, &query) {
        Ok(rel) => {
            let rel = Boxed::new(alloc, rel)?;
            let scope = query.columns;
            Ok(Inserted {
                query: Relation { rel, scope },
                sources,
                sink,
            })
        }
        Err(RewriteFault::Unbounded) => Err(BindFault::Refused(ScriptCode::RankUnbounded)),
        Err(RewriteFault::Memory) => Err(BindFault::Memory),
    }
}
