//! CAST and CASE, where `None` among results stands for the literal NULL.
ghost use Rattle.bind_names.specs.declared.fault.BindFault.TheVariants as f;
ghost use Rattle.std.specs.Prelude.{◌≡◌, Ok, Err, Some, map, option_map, IfOk, IsErrOf};
ghost use Rattle.ct_value.specs.declared.codes.ScriptCode.{ScriptCode};
ghost use Rattle.ct_expr.specs.Types.{all_truths, begun, case_col, gather_some};
ghost use Rattle.ct_expr.specs.View.{expr_view, whens_view};
ghost use Rattle.query_answer.specs.Table.{with_otherwise};
ghost use Rattle.binding.specs.Nodes as n;
ghost use Rattle.binding.specs.Nodes.{known_columns, results_of};
ghost use Rattle.bind_nodes.specs.Cases.{choice_column, with_known};
ghost use Rattle.bind_nodes.specs.Views.{bound_view, branches_view, choices_view};

use crate::bound::{Bound, typed};
use crate::nodes::literal;
use crate::size::Size;
use bind_names::BindFault;
use ct_expr::{Expr, When, Whens, case_col, cast_col, logic_col};
use ct_value::{Boxed, ColTy, List, ScriptCode, Ty, Value};
use std::alloc::Global;

/// A branch of CASE. No result is the literal NULL.
#[derive(Drop)]
pub struct Branch {
    pub cond: Bound,
    pub result: Option<Bound>,
}

/// The branches of a CASE, in order.
pub type Branches = List<Branch>;

/// CAST to a type, where its name means one.
#[tactic(auto, using(ct_expr::proofs::laws::Views::view_cast))]
pub fn cast_to(alloc: Global, ty: Option<Ty>, value: Option<Bound>) -> Result<Bound, BindFault>
    ensures ok { IfOk result (λ x. n.cast_to ty (option_map bound_view value) ≡ Ok (bound_view x)) }
    ensures refused { (code : ScriptCode) → IsErrOf result (f.Refused code) → n.cast_to ty (option_map bound_view value) ≡ Err code }
{
    match (ty, value) {
        (None, _) => Err(BindFault::Refused(ScriptCode::Unsupported)),
        (Some(ty), None) => literal(alloc, Value::Null, ty),
        (Some(ty), Some(value)) => {
            let column = cast_col(ty, value.column);
            let expr = Expr::Cast {
                value: value.expr,
                ty,
            };
            typed(alloc, column, value.size, expr)
        }
    }
}

// A branch whose result is no literal NULL any more.
#[derive(Drop)]
struct Choice {
    cond: Bound,
    result: Bound,
}

type Choices = List<Choice>;

/// CASE. `otherwise` is the result of its ELSE, where it has one. A literal NULL is of the type of the other results.
pub fn case(
    alloc: Global,
    branches: Branches,
    otherwise: Option<Option<Bound>>,
) -> Result<Bound, BindFault>
    ensures ok { IfOk result (λ x. n.case (branches_view branches) (option_map (option_map bound_view) otherwise) ≡ Ok (bound_view x)) }
    ensures refused { (code : ScriptCode) → IsErrOf result (f.Refused code) → n.case (branches_view branches) (option_map (option_map bound_view) otherwise) ≡ Err code }
{
    let common = common_column(&branches, &otherwise);
    let choices = with_nulls(alloc, common, branches)?;
    let otherwise = otherwise_with_null(alloc, common, otherwise)?;
    whole_case(alloc, choices, otherwise)
}

// The common column of the results that are no literal NULL.
fn common_column(branches: &Branches, otherwise: &Option<Option<Bound>>) -> Option<ColTy>
    ensures { result ≡ gather_some case_col (known_columns (results_of (branches_view branches.now) (option_map (option_map bound_view) otherwise.now))) }
{
    let mut all = None;
    for branch in branches.as_slice() {
        all = with_known(all, &branch.result)?;
    }
    match otherwise {
        None => all,
        Some(result) => with_known(all, result)?,
    }
}

// The common column with one result more; `None` where there is none.
fn with_known(all: Option<ColTy>, outcome: &Option<Bound>) -> Option<Option<ColTy>>
    ensures { result ≡ with_known all (option_map bound_view outcome.now) }
{
    match (all, outcome) {
        (all, None) => Some(all),
        (None, Some(outcome)) => Some(Some(outcome.column)),
        (Some(all), Some(outcome)) => Some(Some(case_col(all, outcome.column)?)),
    }
}

// A result, of which a literal NULL is of the common type.
fn or_null(alloc: Global, common: Option<ColTy>, outcome: Option<Bound>) -> Result<Bound, BindFault>
    ensures ok { IfOk result (λ x. n.or_null_of common (option_map bound_view outcome) ≡ Ok (bound_view x)) }
    ensures refused { (code : ScriptCode) → IsErrOf result (f.Refused code) → n.or_null_of common (option_map bound_view outcome) ≡ Err code }
{
    match (outcome, common) {
        (Some(outcome), _) => Ok(outcome),
        (None, Some(column)) => literal(alloc, Value::Null, column.ty),
        (None, None) => Err(BindFault::Refused(ScriptCode::TypeMismatch)),
    }
}

fn with_nulls(
    alloc: Global,
    common: Option<ColTy>,
    branches: Branches,
) -> Result<Choices, BindFault>
    ensures ok { IfOk result (λ xs. n.with_nulls common (branches_view branches) ≡ Ok (choices_view xs)) }
    ensures refused { (code : ScriptCode) → IsErrOf result (f.Refused code) → n.with_nulls common (branches_view branches) ≡ Err code }
{
    let mut choices = Choices::with_capacity(alloc, branches.len())?;
    for branch in branches.into_vec() {
        let outcome = or_null(alloc, common, branch.result)?;
        choices.push(Choice {
            cond: branch.cond,
            result: outcome,
        })?;
    }
    Ok(choices)
}

fn otherwise_with_null(
    alloc: Global,
    common: Option<ColTy>,
    otherwise: Option<Option<Bound>>,
) -> Result<Option<Bound>, BindFault>
    ensures ok { IfOk result (λ x. n.otherwise_with_null common (option_map (option_map bound_view) otherwise) ≡ Ok (option_map bound_view x)) }
    ensures refused { (code : ScriptCode) → IsErrOf result (f.Refused code) → n.otherwise_with_null common (option_map (option_map bound_view) otherwise) ≡ Err code }
{
    match otherwise {
        None => Ok(None),
        Some(outcome) => Ok(Some(or_null(alloc, common, outcome)?)),
    }
}

#[tactic(auto, using(ct_expr::proofs::laws::Views::view_case))]
fn whole_case(alloc: Global, choices: Choices, otherwise: Option<Bound>) -> Result<Bound, BindFault>
    ensures ok { IfOk result (λ x. n.choice (choices_view choices) (option_map bound_view otherwise) ≡ Ok (bound_view x)) }
    ensures refused { (code : ScriptCode) → IsErrOf result (f.Refused code) → n.choice (choices_view choices) (option_map bound_view otherwise) ≡ Err code }
{
    let column = choice_column(&choices, &otherwise);
    let size = size_of(&choices, &otherwise);
    let whens = whens_of(alloc, choices)?;
    let otherwise = expr_of(otherwise);
    typed(alloc, column, size, Expr::Case { whens, otherwise })
}

// The size of conditions and results side by side.
fn size_of(choices: &Choices, otherwise: &Option<Bound>) -> Size {
    let mut all = match otherwise {
        None => Size::none(),
        Some(bound) => bound.size,
    };
    for choice in choices.as_slice() {
        all = all.with(choice.cond.size).with(choice.result.size);
    }
    all
}

fn expr_of(bound: Option<Bound>) -> Option<Boxed<Expr>>
    ensures { option_map expr_view result ≡ option_map (λ x. x.expr) (option_map bound_view bound) }
{
    match bound {
        None => None,
        Some(bound) => Some(bound.expr),
    }
}

fn choice_column(choices: &Choices, otherwise: &Option<Bound>) -> Option<ColTy>
    ensures { result ≡ choice_column (choices_view choices.now) (option_map bound_view otherwise.now) }
{
    all_conditions(choices)?;
    with_otherwise(results_column(choices), otherwise)
}

// The column of the conditions together: there is one or more, and each is BOOLEAN.
#[tactic(auto, using(crate::proofs::Folds::conditions_out))]
fn all_conditions(choices: &Choices) -> Option<ColTy>
    ensures { result ≡ all_truths (map (λ b. Some b.0.column) (choices_view choices.now)) }
{
    if choices.is_empty() {
        return None;
    }
    let mut all = ColTy {
        ty: Ty::Bool,
        nullable: false,
    };
    for choice in choices.as_slice() {
        all = logic_col(all, choice.cond.column)?;
    }
    Some(all)
}

// The common column of the results.
#[tactic(auto, using(crate::proofs::Folds::results_out))]
fn results_column(choices: &Choices) -> Option<ColTy>
    ensures { result ≡ gather_some case_col (map (λ b. Some b.1.column) (choices_view choices.now)) }
{
    let mut all = None;
    for choice in choices.as_slice() {
        all = Some(with_result(all, choice.result.column)?);
    }
    all
}

fn with_result(all: Option<ColTy>, column: ColTy) -> Option<ColTy>
    ensures { result ≡ begun case_col all (Some column) }
{
    match all {
        None => Some(column),
        Some(all) => case_col(all, column),
    }
}

// The column of the results with that of the ELSE; without one NULL may come.
fn with_otherwise(results: Option<ColTy>, otherwise: &Option<Bound>) -> Option<ColTy>
    ensures { result ≡ with_otherwise (option_map (λ x. Some x.column) (option_map bound_view otherwise.now)) results }
{
    match otherwise {
        None => Some(ColTy {
            ty: results?.ty,
            nullable: true,
        }),
        Some(bound) => case_col(results?, bound.column),
    }
}

fn whens_of(alloc: Global, choices: Choices) -> Result<Whens, BindFault>
    ensures ok { IfOk result (λ whens. whens_view whens ≡ map (λ b. (b.0.expr, b.1.expr)) (choices_view choices)) }
    ensures refused { (code : ScriptCode) → IsErrOf result (f.Refused code) → ⊥ }
{
    let mut whens = Whens::with_capacity(alloc, choices.len())?;
    for choice in choices.into_vec() {
        whens.push(When {
            cond: Boxed::into_inner(choice.cond.expr),
            result: Boxed::into_inner(choice.result.expr),
        })?;
    }
    Ok(whens)
}
