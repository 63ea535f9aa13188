//! What a sink takes.
ghost use Rattle.std.specs.Prelude.{◌≡◌, map};
ghost use Rattle.rel_algebra.specs.Rel.{rels as rel_list};
ghost use Rattle.rel_algebra.specs.View.{rel_view, rels_view};
ghost use Rattle.query_answer.specs.Answer.{types};
ghost use Rattle.binding.specs.Inserts as i;
ghost use Rattle.rel_algebra.specs.GoesInto as g;

use ct_catalog::ColDef;
use ct_expr::same_ty;
use ct_value::{ColTy, Ty};
use query_answer::Scope;
use rel_algebra::{Rel, Rels};

// Whether a table is read, by its number.
#[cycle(scans)]
#[tactic(auto, unfolding(rel_algebra::specs::View::rel_view))]
pub(crate) fn scans(table: usize, rel: &Rel) -> bool
    ensures { result ≡ i.scans table (rel_view rel.now) }
{
    match rel {
        Rel::Scan { source } => table == *source as usize,
        Rel::Filter { input, .. } | Rel::Project { input, .. } => scans(table, input),
        Rel::Group { input, .. } | Rel::Rank { input, .. } => scans(table, input),
        Rel::Union { inputs } => any_scans(table, inputs),
        Rel::Join { left, right, .. } => scans(table, left) || scans(table, right),
        Rel::Semi { left, right, .. } => scans(table, left) || scans(table, right),
        Rel::SetOp { left, right, .. } => scans(table, left) || scans(table, right),
    }
}

#[cycle(scans)]
fn any_scans(table: usize, inputs: &Rels) -> bool
    ensures { result ≡ i.any_scans table (rel_list (rels_view inputs.now)) }
{
    for input in inputs.as_slice() {
        if scans(table, input) {
            return true;
        }
    }
    false
}

// INT goes into BIGINT, and a decimal into one of the same scale and no smaller precision.
fn widens(ty: Ty, sink: Ty) -> bool
    ensures { result ≡ g.widens ty sink }
{
    match (ty, sink) {
        (Ty::Int, Ty::BigInt) => true,
        (Ty::Decimal { p, s }, Ty::Decimal { p: q, s: u }) => p <= q && s == u,
        _ => false,
    }
}

fn goes_into(column: ColTy, sink: ColTy) -> bool
    ensures { result ≡ g.goes_into column sink }
{
    same_ty(column.ty, sink.ty) || widens(column.ty, sink.ty)
}

// Whether the columns are as many as the sink's, and each goes into its own.
#[tactic(auto, using(crate::proofs::Columns::other_length, crate::proofs::Columns::stops, crate::proofs::Columns::goes_on, crate::proofs::Columns::ends))]
pub(crate) fn go_into(scope: &Scope, sink: &[ColDef]) -> bool
    ensures { result ≡ g.go_into (types scope.now) (map (λ c. c.ty) sink.now) }
{
    if scope.len() != sink.len() {
        return false;
    }
    let mut place = 0;
    'columns: while place < sink.len() {
        if !goes_into(scope.as_slice()[place].ty, sink[place].ty) {
            return false;
        }
        place += 1;
    }
    true
}
