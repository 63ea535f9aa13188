//! Reads scripts: the first text refusal, or the statements.
ghost use Rattle.std.specs.Prelude.{◌≡◌, ℕ, ◌<◌, ◌≤◌, ◌+◌, Some, None, [], length, option_map, IfSome, IfOk, IfErr, IsErrOf};
ghost use Rattle.ct_value.specs.declared.codes.ScriptCode.{ScriptCode as Code};
ghost use Rattle.sql_syntax.specs.Tree.{Script as ScriptTree};
ghost use Rattle.sql_tokens.specs.Statements.{first_statement};
ghost use Rattle.sql_syntax.specs.View.{script_view, statement_view, statements_view};
ghost use Rattle.sql_grammar.specs.Reads.{readers, insert_at, stated_at, statement_at, whole, parse};
ghost use Rattle.sql_grammar.specs.ReadsScripts.{Answer, and_others, answered, read_ended, read_from, read_last, read_text};
ghost use Rattle.sql_grammar.specs.Scripts.{IsScript, TextRefusal};
ghost use Rattle.sql_reading.specs.Gives.{Gives};
ghost use Rattle.sql_parse.specs.Faults.{IsRefusal, IfRefused};

use crate::depth::query;
use ct_value::{Bytes, Memory, ScriptCode};
use sql_grammar::StatementWord;
use sql_reading::{Read, Stop, create, keyword, name, set, statement_word};
use sql_syntax::{Script, Statement, Statements};
use sql_tokens::{Keyword, Token, is_too_deep, split_statement, tokens_of};
use std::alloc::Global;

/// Why a text is no script.
#[derive(Clone, Copy, Debug)]
pub enum ParseFault {
    /// The first statement that is refused, the first of all having the number 1.
    Refused { code: ScriptCode, statement: u32 },
    Memory,
}

impl From<Memory> for ParseFault {
    ghost use Rattle.sql_parse.specs.declared.script.ParseFault.TheVariants as fault;

    ghost from_gives = { λ _ e. e ≡ fault.Memory };

    fn from(_: Memory) -> Self {
        ParseFault::Memory
    }
}

#[tactic(auto, unfolding(sql_grammar::specs::Reads::insert_at))]
fn insert(alloc: Global, depth: usize, tokens: &[Token]) -> Read<'_, Statement>
    ensures { Gives statement_view result (insert_at (readers depth) tokens.now) }
{
    let rest = keyword(tokens, Keyword::Into)?;
    let (table, rest) = name(rest)?;
    let (query, rest) = query(alloc, depth, rest)?;
    Ok((Statement::Insert { table, query }, rest))
}

#[tactic(auto, unfolding(sql_grammar::specs::Reads::stated_at))]
fn stated(alloc: Global, depth: usize, word: StatementWord, tokens: &[Token]) -> Read<'_, Statement>
    ensures { Gives statement_view result (stated_at (readers depth) word tokens.now) }
{
    match word {
        StatementWord::Create => create(alloc, tokens),
        StatementWord::Set => set(tokens),
        StatementWord::Insert => insert(alloc, depth, tokens),
    }
}

#[tactic(auto, unfolding(sql_grammar::specs::Reads::statement_at))]
fn begun_statement(alloc: Global, depth: usize, tokens: &[Token]) -> Read<'_, Statement>
    ensures { Gives statement_view result (statement_at (readers depth) tokens.now) }
{
    let (word, rest) = statement_word(tokens)?;
    stated(alloc, depth, word, rest)
}

// The statement, behind which nothing may follow.
fn finished(statement: Statement, rest: &[Token]) -> Result<Statement, Stop>
    ensures ok { IfOk result (λ x. whole (Some (statement_view statement, rest.now)) ≡ Some (statement_view x)) }
    ensures refused { IsErrOf result Stop.Refused → whole (Some (statement_view statement, rest.now)) ≡ None }
{
    match rest {
        [] => Ok(statement),
        _ => Err(Stop::Refused),
    }
}

fn whole_statement(alloc: Global, depth: usize, tokens: &[Token]) -> Result<Statement, Stop>
    ensures ok { IfOk result (λ x. whole (statement_at (readers depth) tokens.now) ≡ Some (statement_view x)) }
    ensures refused { IsErrOf result Stop.Refused → whole (statement_at (readers depth) tokens.now) ≡ None }
{
    let (statement, rest) = begun_statement(alloc, depth, tokens)?;
    finished(statement, rest)
}

#[tactic(auto, using(sql_grammar::proofs::laws::Depths::parse_whole))]
fn parsed(alloc: Global, tokens: &[Token]) -> Result<Statement, Stop>
    ensures ok { IfOk result (λ x. parse tokens.now ≡ Some (statement_view x)) }
    ensures refused { IsErrOf result Stop.Refused → parse tokens.now ≡ None }
{
    whole_statement(alloc, tokens.len() + 1, tokens)
}

#[tactic(auto, unfolding(sql_grammar::specs::ReadsScripts::read_ended))]
fn statement(alloc: Global, number: u32, tokens: &[Token]) -> Result<Statement, ParseFault>
    ensures ok { (others : Answer) → IfOk result (λ x. read_ended number tokens.now others ≡ and_others (statement_view x) others) }
    ensures refused { (others : Answer) → IfErr result (λ fault. IsRefusal fault (read_ended number tokens.now others)) }
{
    if is_too_deep(tokens) {
        return Err(ParseFault::Refused {
            code: ScriptCode::TooDeep,
            statement: number,
        });
    }
    match parsed(alloc, tokens) {
        Ok(statement) => Ok(statement),
        Err(Stop::Refused) => Err(ParseFault::Refused {
            code: ScriptCode::Syntax,
            statement: number,
        }),
        Err(Stop::Memory) => Err(ParseFault::Memory),
    }
}

#[tactic(auto, unfolding(sql_grammar::specs::ReadsScripts::read_last))]
fn last(number: u32, tokens: &[Token], is_whole: bool) -> Result<(), ParseFault>
    ensures ok { IfOk result (λ u. read_last is_whole number tokens.now ≡ answered []) }
    ensures refused { IfErr result (λ fault. IsRefusal fault (read_last is_whole number tokens.now)) }
{
    if !is_whole {
        return Err(ParseFault::Refused {
            code: ScriptCode::BadToken,
            statement: number,
        });
    }
    if tokens.is_empty() {
        return Ok(());
    }
    let code = if is_too_deep(tokens) {
        ScriptCode::TooDeep
    } else {
        ScriptCode::Syntax
    };
    Err(ParseFault::Refused {
        code,
        statement: number,
    })
}

// The tokens before the next `;`, and those behind it.
#[tactic(auto, using(crate::proofs::Scripts::first_shorter))]
fn next_statement(tokens: &[Token]) -> Option<(&[Token], &[Token])>
    ensures cut { option_map (λ r. (r.0.now, r.1.now)) result ≡ first_statement tokens.now }
    ensures shorter { IfSome result (λ r. length r.1.now < length tokens.now) }
{
    match split_statement(tokens) {
        Some((piece, after)) => Some((piece, after)),
        None => None,
    }
}

fn script_statements(
    alloc: Global,
    tokens: &[Token],
    is_whole: bool,
) -> Result<Statements, ParseFault>
    requires { length tokens.now ≤ 262145 }
    ensures ok { IfOk result (λ list. read_from is_whole 1 tokens.now ≡ answered (statements_view list)) }
    ensures refused { IfErr result (λ fault. IsRefusal fault (read_from is_whole 1 tokens.now)) }
    ensures few { IfOk result (λ list. length (statements_view list) ≤ length tokens.now) }
{
    let mut list = Statements::new(alloc);
    let mut rest = tokens;
    let mut number = 1;
    'statements: while let Some((piece, after)) = next_statement(rest) {
        let item = statement(alloc, number, piece)?;
        list.push(item)?;
        number += 1;
        rest = after;
    }
    last(number, rest, is_whole)?;
    Ok(list)
}

#[tactic(auto, using(crate::proofs::Scripts::few_tokens), unfolding(sql_grammar::specs::ReadsScripts::read_text))]
fn read_text(alloc: Global, text: &[u8]) -> Result<Script, ParseFault>
    requires { length text.now ≤ 262144 }
    ensures ok { IfOk result (λ script. read_text text.now ≡ answered (statements_view script.statements)) }
    ensures refused { IfErr result (λ fault. IsRefusal fault (read_text text.now)) }
    ensures few { IfOk result (λ script. length (statements_view script.statements) ≤ length text.now + 1) }
{
    let tokens = tokens_of(alloc, text)?;
    let statements = script_statements(alloc, tokens.as_slice(), tokens.is_whole())?;
    Ok(Script { statements })
}

/// The script that a text is, or its first text refusal: statement by statement a bad place, then more than 32 parentheses
/// and CASEs open at once, then no tree or no `;` behind it. A text has at most 262,144 bytes.
pub fn parse_script(alloc: Global, text: &Bytes) -> Result<Script, ParseFault>
    requires { length text.now ≤ 262144 }
    ensures ok { IfOk result (λ script. IsScript text.now (script_view script)) }
    ensures refused { IfErr result (λ fault. IfRefused fault (λ code number. TextRefusal text.now code number)) }
    ensures spelled { (x : ScriptTree) → IsScript text.now x → IfOk result (λ script. script_view script ≡ x) × IfErr result (λ fault. fault ≡ ParseFault.Memory) }
    ensures first { (code : Code) (number : ℕ) → TextRefusal text.now code number → IfOk result (λ script. ⊥) × IfErr result (λ fault. IfRefused fault (λ c n. (c ≡ code) × (n ≡ number))) }
    ensures few { IfOk result (λ script. length (statements_view script.statements) ≤ length text.now + 1) }
{
    read_text(alloc, text.as_slice())
}
