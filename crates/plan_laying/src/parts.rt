//! Parts of nodes and edges.
ghost use Rattle.std.specs.Prelude.{◌≡◌, ℕ, List as Seq, [], ◌∷◌, option_map, unwrap_or, IfOk, OnOk};
ghost use Rattle.ct_change.specs.Changelog.{retract, upsert, kinds_of};
ghost use Rattle.ct_expr.specs.View.{expr_view};
ghost use Rattle.mode_infer.specs.Kinds.{asked, by_columns};
ghost use Rattle.phys_plan.specs.Reading.{no_keys};
ghost use Rattle.plan_laying.specs.Topped.{send_last};

use ct_catalog::TableDef;
use ct_change::KindSet;
use ct_expr::Expr;
use ct_value::{Cols, List, Memory, Numbers};
use mode_infer::asked;
use phys_plan::{Edge, Edges, Exchange, KeyInfo, Op};
use std::alloc::Global;

pub(crate) fn no_keys(alloc: Global) -> KeyInfo
    ensures { result ≡ no_keys }
{
    KeyInfo {
        unique: List::new(alloc),
        local: List::new(alloc),
        fixing: List::new(alloc),
    }
}

pub(crate) fn all_kinds() -> KindSet
    ensures { result ≡ kinds_of retract }
{
    KindSet {
        i: true,
        ub: true,
        ua: true,
        d: true,
    }
}

pub(crate) fn upsert_kinds() -> KindSet
    ensures { (key : Seq ℕ) → result ≡ kinds_of (upsert key) }
{
    KindSet {
        i: true,
        ub: false,
        ua: true,
        d: true,
    }
}

// The columns of a table's key, or none.
pub(crate) fn key_of(alloc: Global, table: &TableDef) -> Result<Cols, Memory>
    ensures { IfOk result (λ key. key ≡ unwrap_or table.now.key []) }
{
    match &table.key {
        Some(key) => key.dup(),
        None => Ok(Cols::new(alloc)),
    }
}

pub(crate) fn two_numbers(alloc: Global, first: u32, second: u32) -> Result<Numbers, Memory>
    ensures { IfOk result (λ numbers. numbers ≡ first ∷ (second ∷ [])) }
{
    let mut numbers = Numbers::new(alloc);
    numbers.push(first)?;
    numbers.push(second)?;
    Ok(numbers)
}

// An equal condition, if there is one.
pub(crate) fn dup_rest(rest: &Option<Expr>) -> Result<Option<Expr>, Memory>
    ensures { IfOk result (λ copy. option_map expr_view copy ≡ option_map expr_view rest.now) }
{
    match rest {
        None => Ok(None),
        Some(expr) => Ok(Some(expr.dup()?)),
    }
}

// The exchange by which an operator asks for the rows of a port.
pub(crate) fn exchange_of(alloc: Global, op: &Op, port: usize) -> Result<Exchange, Memory>
    ensures { IfOk result (λ exchange. exchange ≡ by_columns (asked op.now port)) }
{
    match asked(alloc, op, port)? {
        None => Ok(Exchange::Forward),
        Some(cols) => Ok(Exchange::Hash(cols)),
    }
}

// The last of some edges goes by this exchange.
#[tactic(auto, using(crate::proofs::laws::LastEdges::hashed_none))]
pub(crate) fn send_last(edges: &mut Edges, exchange: Exchange) -> Result<(), Memory>
    ensures { OnOk result (edges.new ≡ send_last exchange edges.old) }
{
    let Some(edge) = edges.pop() else {
        return Ok(());
    };
    edges.push(Edge {
        exchange,
        kinds: edge.kinds,
        update: edge.update,
    })?;
    Ok(())
}
