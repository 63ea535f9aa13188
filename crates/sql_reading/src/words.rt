//! Single words at the head of tokens.
ghost use Rattle.std.specs.Prelude.{◌≡◌, Some, None, Ok, option_map, IfOk, IsErrOf};
ghost use Rattle.sql_tokens.specs.declared.token.Token.TheVariants as t;
ghost use Rattle.sql_grammar.specs.Words.{only, name_word, text_word, number_word, sign_word, sum_word, product_word, direction_word, join_word, set_word};
ghost use Rattle.sql_grammar.specs.Reading.{word_at, flag, nothing, optional};
ghost use Rattle.sql_grammar.specs.Reads.{name_at, primary_word, rest_word, negatable_word, statement_word};
ghost use Rattle.sql_reading.specs.Gives.{Answers, Passes};

use ct_value::{CompareOp, Memory, Text};
use sql_grammar::{NegatableWord, PrimaryWord, RestWord, StatementWord};
use sql_syntax::{JoinWord, ProductWord, SumWord};
use sql_tokens::{Keyword, Symbol, Token};
use std::alloc::AllocFailed;

/// Why nothing was read.
#[derive(Clone, Copy, Debug)]
pub enum Stop {
    /// The tokens aren't what has to stand there.
    Refused,
    /// There was no memory for what was read.
    Memory,
}

impl From<Memory> for Stop {
    ghost use Rattle.sql_reading.specs.declared.words.Stop.TheVariants as stop;

    ghost from_gives = { λ _ e. e ≡ stop.Memory };

    fn from(_: Memory) -> Self {
        Stop::Memory
    }
}

impl<T: Drop> From<AllocFailed<T>> for Stop {
    ghost use Rattle.sql_reading.specs.declared.words.Stop.TheVariants as stop;

    ghost from_gives = { λ _ e. e ≡ stop.Memory };

    fn from(_: AllocFailed<T>) -> Self {
        Stop::Memory
    }
}

/// What was read at the head of tokens and the tokens behind it, or why nothing was read.
pub type Read<'t, T> = Result<(T, &'t [Token]), Stop>;

/// What was read first, beside what is read behind it. `Stop::Refused` comes only from there.
pub fn beside<T: Drop, R>(first: T, behind: Result<R, Stop>) -> Result<(T, R), Stop>
    ensures first { IfOk result (λ both. both.0 ≡ first) }
    ensures behind { IfOk result (λ both. behind ≡ Ok both.1) }
    ensures refused { IsErrOf result Stop.Refused → IsErrOf behind Stop.Refused }
{
    let behind = behind?;
    Ok((first, behind))
}

/// What follows a keyword, if it stands there.
pub fn after_keyword(tokens: &[Token], wanted: Keyword) -> Option<&[Token]>
    ensures { option_map (λ rest. (tt, rest.now)) result ≡ word_at (only (t.Keyword wanted)) tokens.now }
{
    if let [Token::Keyword(found), rest @ ..] = tokens {
        if *found == wanted {
            return Some(rest);
        }
    }
    None
}

/// What follows a symbol, if it stands there.
pub fn after_symbol(tokens: &[Token], wanted: Symbol) -> Option<&[Token]>
    ensures { option_map (λ rest. (tt, rest.now)) result ≡ word_at (only (t.Symbol wanted)) tokens.now }
{
    if let [Token::Symbol(found), rest @ ..] = tokens {
        if *found == wanted {
            return Some(rest);
        }
    }
    None
}

/// What follows a keyword, which has to stand there.
pub fn keyword(tokens: &[Token], wanted: Keyword) -> Result<&[Token], Stop>
    ensures { Passes result (word_at (only (t.Keyword wanted)) tokens.now) }
{
    match after_keyword(tokens, wanted) {
        Some(rest) => Ok(rest),
        None => Err(Stop::Refused),
    }
}

/// What follows a symbol, which has to stand there.
pub fn symbol(tokens: &[Token], wanted: Symbol) -> Result<&[Token], Stop>
    ensures { Passes result (word_at (only (t.Symbol wanted)) tokens.now) }
{
    match after_symbol(tokens, wanted) {
        Some(rest) => Ok(rest),
        None => Err(Stop::Refused),
    }
}

/// Whether a keyword stands there, and what follows it.
pub fn flagged(tokens: &[Token], wanted: Keyword) -> (bool, &[Token])
    ensures { flag (t.Keyword wanted) nothing tokens.now ≡ Some (result.0, result.1.now) }
{
    match after_keyword(tokens, wanted) {
        Some(rest) => (true, rest),
        None => (false, tokens),
    }
}

/// A name, whether it stood in backticks, and what follows it, if a name stands there.
pub fn name_word(tokens: &[Token]) -> Result<Option<(Text, bool, &[Token])>, Memory>
    ensures { IfOk result (λ found. option_map (λ x. ((x.0, x.1), x.2.now)) found ≡ word_at name_word tokens.now) }
{
    match tokens {
        [Token::Name { text, quoted }, rest @ ..] => Ok(Some((text.dup()?, *quoted, rest))),
        _ => Ok(None),
    }
}

/// A name, which has to stand there.
#[tactic(auto, unfolding(sql_grammar::specs::Reads::name_at))]
pub fn name(tokens: &[Token]) -> Read<'_, Text>
    ensures { Answers result (name_at tokens.now) }
{
    match tokens {
        [Token::Name { text, .. }, rest @ ..] => Ok((text.dup()?, rest)),
        _ => Err(Stop::Refused),
    }
}

/// A text, which has to stand there.
pub fn text(tokens: &[Token]) -> Read<'_, Text>
    ensures { Answers result (word_at text_word tokens.now) }
{
    match tokens {
        [Token::Str(text), rest @ ..] => Ok((text.dup()?, rest)),
        _ => Err(Stop::Refused),
    }
}

/// A number, which has to stand there.
pub fn number(tokens: &[Token]) -> Read<'_, Text>
    ensures { Answers result (word_at number_word tokens.now) }
{
    match tokens {
        [Token::Number(text), rest @ ..] => Ok((text.dup()?, rest)),
        _ => Err(Stop::Refused),
    }
}

/// A sign, if it stands there, and what follows it; true is the minus sign.
pub fn sign_word(tokens: &[Token]) -> (Option<bool>, &[Token])
    ensures { optional sign_word tokens.now ≡ Some (result.0, result.1.now) }
{
    match tokens {
        [Token::Symbol(Symbol::Plus), rest @ ..] => (Some(false), rest),
        [Token::Symbol(Symbol::Minus), rest @ ..] => (Some(true), rest),
        _ => (None, tokens),
    }
}

/// The direction of a sort item, if it stands there, and what follows it; true is DESC.
pub fn direction_word(tokens: &[Token]) -> (Option<bool>, &[Token])
    ensures { optional direction_word tokens.now ≡ Some (result.0, result.1.now) }
{
    match tokens {
        [Token::Keyword(Keyword::Asc), rest @ ..] => (Some(false), rest),
        [Token::Keyword(Keyword::Desc), rest @ ..] => (Some(true), rest),
        _ => (None, tokens),
    }
}

/// A word of a sum and what follows it, if it stands there.
pub fn sum_word(tokens: &[Token]) -> Option<(SumWord, &[Token])>
    ensures { option_map (λ x. (x.0, x.1.now)) result ≡ word_at sum_word tokens.now }
{
    match tokens {
        [Token::Symbol(Symbol::Plus), rest @ ..] => Some((SumWord::Plus, rest)),
        [Token::Symbol(Symbol::Minus), rest @ ..] => Some((SumWord::Minus, rest)),
        [Token::Symbol(Symbol::Concat), rest @ ..] => Some((SumWord::Concat, rest)),
        _ => None,
    }
}

/// A word of a product and what follows it, if it stands there.
pub fn product_word(tokens: &[Token]) -> Option<(ProductWord, &[Token])>
    ensures { option_map (λ x. (x.0, x.1.now)) result ≡ word_at product_word tokens.now }
{
    match tokens {
        [Token::Symbol(Symbol::Times), rest @ ..] => Some((ProductWord::Times, rest)),
        [Token::Symbol(Symbol::Divide), rest @ ..] => Some((ProductWord::Divide, rest)),
        [Token::Symbol(Symbol::Modulo), rest @ ..] => Some((ProductWord::Modulo, rest)),
        _ => None,
    }
}

/// The first word of a join, `None` being JOIN alone, and what follows it, if it stands there.
pub fn join_word(tokens: &[Token]) -> Option<(Option<JoinWord>, &[Token])>
    ensures { option_map (λ x. (x.0, x.1.now)) result ≡ word_at join_word tokens.now }
{
    match tokens {
        [first, rest @ ..] => Some((join_of(first)?, rest)),
        [] => None,
    }
}

// What the token says as the first word of a join.
fn join_of(token: &Token) -> Option<Option<JoinWord>>
    ensures { result ≡ join_word token.now }
{
    match token {
        Token::Keyword(Keyword::Join) => Some(None),
        Token::Keyword(Keyword::Inner) => Some(Some(JoinWord::Inner)),
        Token::Keyword(Keyword::Left) => Some(Some(JoinWord::Left)),
        Token::Keyword(Keyword::Right) => Some(Some(JoinWord::Right)),
        Token::Keyword(Keyword::Full) => Some(Some(JoinWord::Full)),
        _ => None,
    }
}

/// The first word between two terms of a query, UNION or EXCEPT, the latter being true, and what follows it, if it stands there.
pub fn set_word(tokens: &[Token]) -> Option<(bool, &[Token])>
    ensures { option_map (λ x. (x.0, x.1.now)) result ≡ word_at set_word tokens.now }
{
    match tokens {
        [first, rest @ ..] => Some((set_of(first)?, rest)),
        [] => None,
    }
}

// What the token says as the first word between two terms.
fn set_of(token: &Token) -> Option<bool>
    ensures { result ≡ set_word token.now }
{
    match token {
        Token::Keyword(Keyword::Union) => Some(false),
        Token::Keyword(Keyword::Except) => Some(true),
        _ => None,
    }
}

/// The first token of a primary, which has to stand there.
pub fn primary_word(tokens: &[Token]) -> Read<'_, PrimaryWord>
    ensures { Answers result (word_at primary_word tokens.now) }
{
    match tokens {
        [first, rest @ ..] => Ok((primary_of(first)?, rest)),
        [] => Err(Stop::Refused),
    }
}

// What the token says as the first of a primary.
fn primary_of(token: &Token) -> Result<PrimaryWord, Stop>
    ensures ok { IfOk result (λ word. primary_word token.now ≡ Some word) }
    ensures refused { IsErrOf result Stop.Refused → primary_word token.now ≡ None }
{
    match token {
        Token::Number(text) => Ok(PrimaryWord::Number(text.dup()?)),
        Token::Str(text) => Ok(PrimaryWord::Str(text.dup()?)),
        Token::Name { text, quoted } => Ok(PrimaryWord::Name(text.dup()?, *quoted)),
        Token::Keyword(Keyword::True) => Ok(PrimaryWord::Truth(true)),
        Token::Keyword(Keyword::False) => Ok(PrimaryWord::Truth(false)),
        Token::Keyword(Keyword::Null) => Ok(PrimaryWord::Null),
        Token::Keyword(Keyword::Cast) => Ok(PrimaryWord::Cast),
        Token::Keyword(Keyword::Case) => Ok(PrimaryWord::Case),
        Token::Symbol(Symbol::Open) => Ok(PrimaryWord::Bracket),
        _ => Err(Stop::Refused),
    }
}

/// The word of a test before which NOT may stand; it has to stand there.
pub fn negatable_word(tokens: &[Token]) -> Read<'_, NegatableWord>
    ensures { Answers result (word_at negatable_word tokens.now) }
{
    match tokens {
        [Token::Keyword(Keyword::Between), rest @ ..] => Ok((NegatableWord::Between, rest)),
        [Token::Keyword(Keyword::In), rest @ ..] => Ok((NegatableWord::In, rest)),
        [Token::Keyword(Keyword::Like), rest @ ..] => Ok((NegatableWord::Like, rest)),
        _ => Err(Stop::Refused),
    }
}

/// The first token of the rest of a test and what follows it, if it stands there.
pub fn rest_word(tokens: &[Token]) -> Option<(RestWord, &[Token])>
    ensures { option_map (λ x. (x.0, x.1.now)) result ≡ word_at rest_word tokens.now }
{
    match tokens {
        [first, rest @ ..] => Some((rest_of(first)?, rest)),
        [] => None,
    }
}

// What the token says as the first of the rest of a test.
fn rest_of(token: &Token) -> Option<RestWord>
    ensures { result ≡ rest_word token.now }
{
    match token {
        Token::Symbol(Symbol::Equal) => Some(RestWord::Compare(CompareOp::Eq)),
        Token::Symbol(Symbol::NotEqual) => Some(RestWord::Compare(CompareOp::Ne)),
        Token::Symbol(Symbol::Less) => Some(RestWord::Compare(CompareOp::Lt)),
        Token::Symbol(Symbol::LessEqual) => Some(RestWord::Compare(CompareOp::Le)),
        Token::Symbol(Symbol::Greater) => Some(RestWord::Compare(CompareOp::Gt)),
        Token::Symbol(Symbol::GreaterEqual) => Some(RestWord::Compare(CompareOp::Ge)),
        Token::Keyword(Keyword::Is) => Some(RestWord::Is),
        Token::Keyword(Keyword::Not) => Some(RestWord::Not),
        Token::Keyword(Keyword::Between) => Some(RestWord::Negatable(NegatableWord::Between)),
        Token::Keyword(Keyword::In) => Some(RestWord::Negatable(NegatableWord::In)),
        Token::Keyword(Keyword::Like) => Some(RestWord::Negatable(NegatableWord::Like)),
        _ => None,
    }
}

/// The first token of a statement, which has to stand there.
pub fn statement_word(tokens: &[Token]) -> Read<'_, StatementWord>
    ensures { Answers result (word_at statement_word tokens.now) }
{
    match tokens {
        [Token::Keyword(Keyword::Create), rest @ ..] => Ok((StatementWord::Create, rest)),
        [Token::Keyword(Keyword::Set), rest @ ..] => Ok((StatementWord::Set, rest)),
        [Token::Keyword(Keyword::Insert), rest @ ..] => Ok((StatementWord::Insert, rest)),
        _ => Err(Stop::Refused),
    }
}
