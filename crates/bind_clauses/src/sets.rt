//! Terms of a query put together: runs of UNION ALL, INTERSECT and EXCEPT.
ghost use Rattle.bind_names.specs.declared.fault.BindFault.TheVariants as f;
ghost use Rattle.std.specs.Prelude.{◌≡◌, ◌∷◌, ◌++◌, [], length, Ok, Err, IfOk, IsErrOf};
ghost use Rattle.ct_value.specs.declared.codes.ScriptCode.{ScriptCode};
ghost use Rattle.rel_algebra.specs.Rel.{rels as rel_list};
ghost use Rattle.rel_algebra.specs.Rel as r;
ghost use Rattle.rel_algebra.specs.View.{rel_view, rels_view};
ghost use Rattle.binding.specs.Queries as q;
ghost use Rattle.bind_clauses.specs.Sets.{excepted};
ghost use Rattle.bind_clauses.specs.Views.{relation_view, run_view};

use crate::relation::Relation;
use crate::selects::united;
use bind_names::BindFault;
use ct_value::{Boxed, Memory};
use query_answer::Scope;
use rel_algebra::{Rel, Rels, SetKind, set_kind};
use sql_syntax::SetWord;
use std::alloc::Global;

/// A run of UNION ALL: what stands before its first word, the terms behind, and the columns that are common to all.
#[derive(Drop)]
pub struct Run {
    pub first: Boxed<Rel>,
    pub others: Rels,
    pub scope: Scope,
}

/// A run of one term, or of all that stands before it.
pub fn begun(alloc: Global, relation: Relation) -> Run
    ensures { run_view result ≡ q.begun (relation_view relation) }
{
    Run {
        first: relation.rel,
        others: Rels::new(alloc),
        scope: relation.scope,
    }
}

// The inputs of a Union.
fn all_inputs(alloc: Global, first: Boxed<Rel>, others: Rels) -> Result<Rels, Memory>
    ensures { IfOk result (λ inputs. inputs ≡ first ∷ others) }
{
    let mut inputs = Rels::new(alloc);
    inputs.push(Boxed::into_inner(first))?;
    inputs.append(others)?;
    Ok(inputs)
}

// Two inputs or more as one Union.
#[tactic(auto, using(crate::proofs::Runs::single, crate::proofs::Runs::several))]
fn union_of(alloc: Global, first: Boxed<Rel>, others: Rels) -> Result<Boxed<Rel>, Memory>
    ensures { IfOk result (λ x. rel_view x ≡ q.union_of (rel_view first) (rel_list (rels_view others))) }
{
    if others.is_empty() {
        return Ok(first);
    }
    let inputs = all_inputs(alloc, first, others)?;
    Boxed::new(alloc, Rel::Union { inputs })
}

/// The algebra of a run, which is one Union where it has two inputs or more.
pub fn closed(alloc: Global, run: Run) -> Result<Relation, Memory>
    ensures { IfOk result (λ x. relation_view x ≡ q.closed (run_view run)) }
{
    Ok(Relation {
        rel: union_of(alloc, run.first, run.others)?,
        scope: run.scope,
    })
}

// One more input behind others.
#[tactic(auto, using(crate::proofs::Runs::pushed))]
fn with_input(others: Rels, input: Boxed<Rel>) -> Result<Rels, Memory>
    ensures { IfOk result (λ all. rels_view all ≡ rels_view others ++ rel_view input ∷ []) }
{
    let mut all = others;
    all.push(Boxed::into_inner(input))?;
    Ok(all)
}

// One more term of a run.
fn with_term(alloc: Global, run: Run, term: Relation) -> Result<Run, BindFault>
    ensures ok { IfOk result (λ next. q.with_term (run_view run) (relation_view term) ≡ Ok (run_view next)) }
    ensures refused { (code : ScriptCode) → IsErrOf result (f.Refused code) → q.with_term (run_view run) (relation_view term) ≡ Err code }
{
    let scope = united(alloc, SetKind::Union, &run.scope, &term.scope)?;
    Ok(Run {
        first: run.first,
        others: with_input(run.others, term.rel)?,
        scope,
    })
}

// How many columns are in reach.
fn width(scope: &Scope) -> Result<u32, Memory>
    ensures { IfOk result (λ columns. columns ≡ length scope.now) }
{
    match u32::try_from(scope.len()) {
        Ok(columns) => Ok(columns),
        Err(_) => Err(Memory),
    }
}

// The node of a set operation.
#[tactic(auto, using(rel_algebra::proofs::laws::Views::view_set_op))]
fn set_node(
    alloc: Global,
    except: bool,
    all: bool,
    columns: u32,
    left: Boxed<Rel>,
    right: Boxed<Rel>,
) -> Result<Boxed<Rel>, Memory>
    ensures { IfOk result (λ x. rel_view x ≡ r.SetOp (rel_view left) (rel_view right) except all columns) }
{
    let rel = Rel::SetOp {
        left,
        right,
        except,
        all,
        columns,
    };
    Boxed::new(alloc, rel)
}

/// EXCEPT, or else INTERSECT, with `all` or without, of two terms; refused where they have no common columns.
#[tactic(auto, using(crate::proofs::Runs::operated_refused))]
pub fn operated(
    alloc: Global,
    except: bool,
    all: bool,
    left: Relation,
    right: Relation,
) -> Result<Relation, BindFault>
    ensures ok { IfOk result (λ x. q.operated except all (relation_view left) (relation_view right) ≡ Ok (relation_view x)) }
    ensures refused { (code : ScriptCode) → IsErrOf result (f.Refused code) → q.operated except all (relation_view left) (relation_view right) ≡ Err code }
{
    let scope = united(alloc, set_kind(except), &left.scope, &right.scope)?;
    let columns = width(&left.scope)?;
    let rel = set_node(alloc, except, all, columns, left.rel, right.rel)?;
    Ok(Relation { rel, scope })
}

// EXCEPT of all that stands before it.
fn excepted(alloc: Global, all: bool, run: Run, term: Relation) -> Result<Run, BindFault>
    ensures ok { IfOk result (λ next. excepted all (run_view run) (relation_view term) ≡ Ok (run_view next)) }
    ensures refused { (code : ScriptCode) → IsErrOf result (f.Refused code) → excepted all (run_view run) (relation_view term) ≡ Err code }
{
    let left = closed(alloc, run)?;
    let relation = operated(alloc, true, all, left, term)?;
    Ok(begun(alloc, relation))
}

/// What a word and the term behind it make of a run.
pub fn by_word(alloc: Global, word: SetWord, run: Run, term: Relation) -> Result<Run, BindFault>
    ensures ok { IfOk result (λ next. q.by_word word (run_view run) (relation_view term) ≡ Ok (run_view next)) }
    ensures refused { (code : ScriptCode) → IsErrOf result (f.Refused code) → q.by_word word (run_view run) (relation_view term) ≡ Err code }
{
    match word {
        SetWord::UnionAll => with_term(alloc, run, term),
        SetWord::Except => excepted(alloc, false, run, term),
        SetWord::ExceptAll => excepted(alloc, true, run, term),
    }
}
