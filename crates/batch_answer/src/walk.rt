//! The walk over a tree.
ghost use Rattle.std.specs.Prelude.{◌≡◌, List as Seq, length, false, Some, IfOk, IsErrOf};
ghost use Rattle.ct_value.specs.declared.ty.ColTy.{ColTy as Column};
ghost use Rattle.rel_algebra.specs.Answer.{answer, wide};
ghost use Rattle.rel_algebra.specs.Rel as r;
ghost use Rattle.rel_algebra.specs.View.{rel_view, rels_view};
ghost use Rattle.batch_answer.specs.Parts.{IsFew, IsAnswered, IsLost};
ghost use Rattle.batch_answer.specs.Tables.{IsTypedOver, IsOut, tables_of};

use crate::columns::more_columns;
use crate::nodes::{
    Part, filter_part, group_part, join_part, project_part, rank_part, scan_part, semi_part,
    set_part,
};
use crate::tables::bag_of;
use crate::{Bags, Tally, TypeLists, union_rows};
use ct_change::Bag;
use ct_expr::EvalFault;
use ct_value::ColTys;
use rel_algebra::{Rel, Rels};
use std::alloc::Global;

/// The batch answer of a tree over tables: each bag holds a table's rows, and each list of types beside it is of the table's
/// columns. The tree is well-typed over these. `Out` comes exactly where something that is evaluated is out of range, or the answer of the tree or of
/// one of its parts has 2^64 copies of a row or more.
pub fn answer_of(
    alloc: Global,
    rel: &Rel,
    tables: &Bags,
    types: &TypeLists,
) -> Result<Bag, EvalFault>
    requires tables { length types.now ≡ length tables.now }
    requires typed { IsTypedOver types.now (rel_view rel.now) }
    ensures value { IfOk result (λ rows. answer (tables_of types.now tables.now) (rel_view rel.now) ≡ Some rows) }
    ensures narrow { IfOk result (λ _. wide (tables_of types.now tables.now) (rel_view rel.now) ≡ false) }
    ensures out { IsErrOf result EvalFault.Out → IsOut (tables_of types.now tables.now) (rel_view rel.now) }
{
    let part = part_of(alloc, rel, tables, types)?;
    Ok(bag_of(alloc, part.rows)?)
}

// The columns and rows of a tree, where it is well-typed.
#[cycle(part_of)]
#[tactic(auto, unfolding(rel_algebra::specs::View::rel_view))]
fn part_of(alloc: Global, rel: &Rel, tables: &Bags, types: &TypeLists) -> Result<Part, EvalFault>
    ensures value { IfOk result (λ part. IsAnswered (tables_of types.now tables.now) (rel_view rel.now) part.columns part.rows) }
    ensures out { IsErrOf result EvalFault.Out → IsLost (tables_of types.now tables.now) (rel_view rel.now) }
{
    match rel {
        Rel::Scan { source } => scan_part(alloc, *source, tables, types),
        Rel::Filter { input, cond } => {
            let part = part_of(alloc, input, tables, types)?;
            filter_part(alloc, cond, part)
        }
        Rel::Project { input, items } => {
            let part = part_of(alloc, input, tables, types)?;
            project_part(alloc, items, part)
        }
        Rel::Union { inputs } => union_part(alloc, inputs, tables, types),
        Rel::Group { input, keys, aggs } => {
            let part = part_of(alloc, input, tables, types)?;
            group_part(alloc, *keys, aggs, part)
        }
        Rel::Join {
            left,
            right,
            kind,
            on,
            rest,
        } => {
            let left = part_of(alloc, left, tables, types)?;
            let right = part_of(alloc, right, tables, types)?;
            join_part(alloc, *kind, on, rest, left, right)
        }
        Rel::Semi {
            left,
            right,
            anti,
            on,
            rest,
        } => {
            let left = part_of(alloc, left, tables, types)?;
            let right = part_of(alloc, right, tables, types)?;
            semi_part(alloc, *anti, on, rest, left, right)
        }
        Rel::SetOp {
            left,
            right,
            except,
            all,
            columns,
        } => {
            let left = part_of(alloc, left, tables, types)?;
            let right = part_of(alloc, right, tables, types)?;
            set_part(alloc, *except, *all, *columns, left, right)
        }
        Rel::Rank {
            input,
            partition,
            order,
            bound,
            ranked,
        } => {
            let part = part_of(alloc, input, tables, types)?;
            rank_part(alloc, partition, order, *bound, *ranked, part)
        }
    }
}

// The rows of all inputs.
#[cycle(part_of)]
fn union_part(
    alloc: Global,
    inputs: &Rels,
    tables: &Bags,
    types: &TypeLists,
) -> Result<Part, EvalFault>
    ensures value { IfOk result (λ part. IsAnswered (tables_of types.now tables.now) (r.Union (r.rels (rels_view inputs.now))) part.columns part.rows) }
    ensures out { IsErrOf result EvalFault.Out → IsLost (tables_of types.now tables.now) (r.Union (r.rels (rels_view inputs.now))) }
{
    let mut columns: Option<ColTys> = None;
    let mut rows = Tally::new(alloc);
    for input in inputs.as_slice() {
        let part = part_of(alloc, input, tables, types)?;
        rows = union_rows(rows, part.rows)?;
        let common = more_columns(columns, part.columns)?;
        columns = Some(common);
    }
    Ok(whole_part(alloc, columns, rows))
}

// The part of all inputs, which has no columns where there is none.
fn whole_part(alloc: Global, columns: Option<ColTys>, rows: Tally) -> Part
    ensures columns { (found : Seq Column) → columns ≡ Some found → result.columns ≡ found }
    ensures rows { result.rows ≡ rows }
    ensures few { IsFew result.rows }
{
    match columns {
        None => Part::new(ColTys::new(alloc), rows),
        Some(columns) => Part::new(columns, rows),
    }
}
