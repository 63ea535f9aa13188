ghost use Rattle.std.specs.Prelude.{◌≡◌, ◌≤◌, Ok, length, IfOk, IfErr};
ghost use Rattle.judge.specs.Judgement.{asked_view};
ghost use Rattle.sql_syntax.specs.View.{query_view, statement_view};
ghost use Rattle.job_judgement.specs.Halts.{IsHalt};
ghost use Rattle.job_judgement.specs.Judgement.{accepted_of, bound_insert, bound_query, judgement};
ghost use Rattle.job_judgement.specs.Views.{accepted_view};

use crate::Accepted;
use crate::inserts::insert_bound;
use bind_names::BindFault;
use ct_catalog::Catalog;
use ct_value::{Bytes, ScriptCode, Text};
use job_ending::Halt;
use judge::{Asked, JudgeFault, judge};
use sql_syntax::{Query, Statement};
use std::alloc::Global;

/// What a script is judged to be: its text and its catalogue first, then the two walks over its query. A text has at most 262,144 bytes.
pub fn judged(alloc: Global, text: &Bytes) -> Result<Accepted, Halt>
    requires { length text.now ≤ 262144 }
    ensures ok { IfOk result (λ script. judgement text.now ≡ Ok (accepted_view script)) }
    ensures halts { IfErr result (λ halt. IsHalt halt (judgement text.now)) }
{
    match judge(alloc, text) {
        Ok(asked) => accepted_of(alloc, asked),
        Err(JudgeFault::Refused { code, statement }) => Err(Halt::Script { code, statement }),
        Err(JudgeFault::Memory) => Err(Halt::Memory),
    }
}

// The step behind the text and the catalogue.
fn accepted_of(alloc: Global, asked: Asked) -> Result<Accepted, Halt>
    ensures ok { IfOk result (λ script. accepted_of (asked_view asked) ≡ Ok (accepted_view script)) }
    ensures halts { IfErr result (λ halt. IsHalt halt (accepted_of (asked_view asked))) }
{
    let Asked { catalog, inserts } = asked;
    match inserts.into_vec().into_iter().next() {
        Some(insert) => bound_insert(alloc, catalog, insert.number, insert.statement),
        None => Err(refused(ScriptCode::NotOneInsert, 1)),
    }
}

// An INSERT over the tables of the catalogue.
fn bound_insert(
    alloc: Global,
    catalog: Catalog,
    number: u32,
    statement: Statement,
) -> Result<Accepted, Halt>
    ensures ok { IfOk result (λ script. bound_insert catalog number (statement_view statement) ≡ Ok (accepted_view script)) }
    ensures halts { IfErr result (λ halt. IsHalt halt (bound_insert catalog number (statement_view statement))) }
{
    match statement {
        Statement::Insert { table, query } => bound_query(alloc, catalog, number, table, query),
        Statement::Create { .. } | Statement::Set { .. } => {
            Err(refused(ScriptCode::NotOneInsert, number))
        }
    }
}

// A query over the tables of the catalogue, into a table.
fn bound_query(
    alloc: Global,
    catalog: Catalog,
    number: u32,
    table: Text,
    query: Query,
) -> Result<Accepted, Halt>
    ensures ok { IfOk result (λ script. bound_query catalog number table (query_view query) ≡ Ok (accepted_view script)) }
    ensures halts { IfErr result (λ halt. IsHalt halt (bound_query catalog number table (query_view query))) }
{
    match insert_bound(alloc, catalog.tables(), &table, &query) {
        Ok(inserted) => Ok(Accepted {
            statement: number,
            catalog,
            query,
            inserted,
        }),
        Err(BindFault::Refused(code)) => Err(refused(code, number)),
        Err(BindFault::Memory) => Err(Halt::Memory),
    }
}

fn refused(code: ScriptCode, statement: u32) -> Halt
    ensures { result ≡ Halt.Script code statement }
{
    Halt::Script { code, statement }
}
