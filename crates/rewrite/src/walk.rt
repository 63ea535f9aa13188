//! The walk in which each rank needs its bound.
ghost use Rattle.std.specs.Prelude.{◌≡◌, Ok, Err, IfOk, IsErrOf};
ghost use Rattle.ct_value.specs.declared.codes.ScriptCode.TheVariants.{RankUnbounded};
ghost use Rattle.rel_algebra.specs.View.{rel_view};
ghost use Rattle.binder.specs.Views.{bound_query_view};
ghost use Rattle.rewrite.specs.Rewritten.{rewritten};
ghost use Rattle.rewrite.specs.declared.fault.RewriteFault.TheVariants as f;

use crate::fault::RewriteFault;
use bind_names::BindFault;
use binder::{BoundQuery, bind_query};
use ct_value::Boxed;
use rel_algebra::Rel;
use std::alloc::Global;

/// The algebra of a bound query; refused exactly where a rank of it has no bound.
#[tactic(auto, using(crate::proofs::Again::has_rel))]
pub fn to_rel(alloc: Global, query: &BoundQuery<'_>) -> Result<Rel, RewriteFault>
    ensures ok { IfOk result (λ rel. rewritten (bound_query_view query.now) ≡ Ok (rel_view rel)) }
    ensures unbounded { IsErrOf result f.Unbounded → rewritten (bound_query_view query.now) ≡ Err RankUnbounded }
{
    match bind_query(alloc, false, &query.tables, query.query) {
        Ok(relation) => Ok(Boxed::into_inner(relation.rel)),
        Err(BindFault::Refused(_)) => Err(RewriteFault::Unbounded),
        Err(BindFault::Memory) => Err(RewriteFault::Memory),
    }
}
