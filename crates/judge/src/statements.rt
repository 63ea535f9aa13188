ghost use Rattle.std.specs.Prelude.{◌≡◌, ◌≤◌, ◌+◌, ◌∷◌, [], map, length, Ok, Err, OnOk, IfOk, IfErr};
ghost use Rattle.sql_syntax.specs.Tree.{Query as QueryTree, Text as Word};
ghost use Rattle.sql_syntax.specs.Tree as tree;
ghost use Rattle.sql_syntax.specs.View.{statement_view};
ghost use Rattle.ct_catalog.specs.Catalogue.{Catalogue, empty, applied, IsDeclaration};
ghost use Rattle.judge.specs.Judgement.{Asked as Asking, Judged, IsRefused, asked_by, asked_from, asked_of, asked_view, declared_then};
ghost use Rattle.judge.specs.Statements.{EndsWithInsert};

use crate::asked::{Asked, Insert, Inserts};
use ct_catalog::{Catalog, CatalogFault};
use ct_value::{Bytes, Memory, ScriptCode};
use sql_parse::{ParseFault, parse_script};
use sql_syntax::{Statement, Statements};
use std::alloc::Global;

/// Why a script is not run.
#[derive(Clone, Copy, Debug)]
pub enum JudgeFault {
    /// The first reason to refuse it, at its statement, the first of all having the number 1.
    Refused { code: ScriptCode, statement: u32 },
    Memory,
}

impl From<Memory> for JudgeFault {
    ghost use Rattle.std.specs.Prelude.{◌≡◌};
    ghost use Rattle.judge.specs.declared.statements.JudgeFault.TheVariants as fault;

    ghost from_gives = { λ _ e. e ≡ fault.Memory };

    fn from(_: Memory) -> Self {
        JudgeFault::Memory
    }
}

/// What a script asks for, or the first reason of its text and of its tables and settings to refuse it. A text has at most
/// 262,144 bytes.
#[tactic(auto, using(crate::proofs::laws::Theorems::text_refusal_is_judged))]
pub fn judge(alloc: Global, text: &Bytes) -> Result<Asked, JudgeFault>
    requires { length text.now ≤ 262144 }
    ensures ok { IfOk result (λ asked. asked_of text.now ≡ Ok (asked_view asked)) }
    ensures refused { IfErr result (λ fault. IsRefused fault (asked_of text.now)) }
{
    match parse_script(alloc, text) {
        Ok(script) => asked_by(alloc, script.statements),
        Err(ParseFault::Refused { code, statement }) => {
            Err(JudgeFault::Refused { code, statement })
        }
        Err(ParseFault::Memory) => Err(JudgeFault::Memory),
    }
}

// What statements ask for, of which the last is the INSERT.
fn asked_by(alloc: Global, mut statements: Statements) -> Result<Asked, JudgeFault>
    requires { length statements ≤ 262145 }
    ensures ok { IfOk result (λ asked. asked_from empty 1 (map statement_view statements) ≡ Ok (asked_view asked)) }
    ensures refused { IfErr result (λ fault. IsRefused fault (asked_from empty 1 (map statement_view statements))) }
{
    let (catalog, number) = declared(alloc, statements.as_slice())?;
    let mut inserts = Inserts::with_capacity(alloc, 1)?;
    match statements.pop() {
        Some(statement) => inserts.push(Insert { number, statement })?,
        None => unreachable!(),
    }
    Ok(Asked { catalog, inserts })
}

// The catalogue of the statements before the INSERT, and its number.
fn declared(alloc: Global, statements: &[Statement]) -> Result<(Catalog, u32), JudgeFault>
    requires { length statements.now ≤ 262145 }
    ensures ok { IfOk result (λ read. EndsWithInsert statements.now read.0 read.1) }
    ensures refused { IfErr result (λ fault. IsRefused fault (asked_from empty 1 (map statement_view statements.now))) }
{
    let mut catalog = Catalog::empty(alloc);
    let mut number = 1;
    let mut rest = statements;
    'statements: while let Some((statement, others)) = rest.split_first() {
        if let Statement::Insert { .. } = statement {
            stand_alone(number, others)?;
            return Ok((catalog, number));
        }
        declare(&mut catalog, number, statement)?;
        number += 1;
        rest = others;
    }
    Err(JudgeFault::Refused {
        code: ScriptCode::NotOneInsert,
        statement: number,
    })
}

// No statement may stand behind an INSERT.
fn stand_alone(number: u32, others: &[Statement]) -> Result<(), JudgeFault>
    requires { number ≤ 262146 }
    ensures ok { OnOk result (others.now ≡ []) }
    ensures refused { (c : Catalogue) (table : Word) (query : QueryTree) → IfErr result (λ fault. IsRefused fault (asked_from c number (tree.Insert table query ∷ map statement_view others.now))) }
{
    if others.is_empty() {
        return Ok(());
    }
    Err(JudgeFault::Refused {
        code: ScriptCode::NotOneInsert,
        statement: number + 1,
    })
}

// A CREATE TABLE or a SET, which goes to the catalogue.
fn declare(catalog: &mut Catalog, number: u32, statement: &Statement) -> Result<(), JudgeFault>
    requires { IsDeclaration (statement_view statement.now) }
    ensures ok { OnOk result (applied catalog.old (statement_view statement.now) ≡ Ok catalog.new) }
    ensures refused { (others : Catalogue → Judged Asking) → IfErr result (λ fault. IsRefused fault (declared_then others number (applied catalog.old (statement_view statement.now)))) }
{
    match catalog.apply(statement) {
        Ok(()) => Ok(()),
        Err(CatalogFault::Refused(code)) => Err(JudgeFault::Refused {
            code,
            statement: number,
        }),
        Err(CatalogFault::Memory) => Err(JudgeFault::Memory),
    }
}
