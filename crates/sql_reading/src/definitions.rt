//! Reads what CREATE TABLE lists, and settings.
ghost use Rattle.std.specs.Prelude.{ℕ, List};
ghost use Rattle.sql_syntax.specs.View.{statement_view};
ghost use Rattle.sql_syntax.specs.declared.statement.Element.{Element as Seen_element};
ghost use Rattle.sql_syntax.specs.declared.statement.TextPair.{TextPair as Seen_pair};
ghost use Rattle.sql_grammar.specs.Reads.{name_at, not_null_at, key_flag_at, column_def_at, names_at, key_at, element_at, elements_at, pair_at, pairs_at, options_at, create_at, set_at};
ghost use Rattle.sql_reading.specs.Gives.{Answers, Gives};

use crate::{Read, Rule, after_keyword, keyword, listed, name, symbol, text, type_name};
use ct_value::Text;
use sql_syntax::{Element, Elements, Statement, TextPair, TextPairs, Texts};
use sql_tokens::{Keyword, Symbol, Token};
use std::alloc::Global;

#[tactic(auto, unfolding(sql_grammar::specs::Reads::not_null_at))]
fn not_null(tokens: &[Token]) -> Read<'_, bool>
    ensures { Answers result (not_null_at tokens.now) }
{
    match after_keyword(tokens, Keyword::Not) {
        Some(rest) => {
            let rest = keyword(rest, Keyword::Null)?;
            Ok((true, rest))
        }
        None => Ok((false, tokens)),
    }
}

#[tactic(auto, unfolding(sql_grammar::specs::Reads::key_flag_at))]
fn key_flag(tokens: &[Token]) -> Read<'_, bool>
    ensures { Answers result (key_flag_at tokens.now) }
{
    match after_keyword(tokens, Keyword::Primary) {
        Some(rest) => {
            let rest = keyword(rest, Keyword::Key)?;
            let rest = keyword(rest, Keyword::Not)?;
            let rest = keyword(rest, Keyword::Enforced)?;
            Ok((true, rest))
        }
        None => Ok((false, tokens)),
    }
}

#[tactic(auto, unfolding(sql_grammar::specs::Reads::column_def_at))]
fn column_def(alloc: Global, tokens: &[Token]) -> Read<'_, Element>
    ensures { Answers result (column_def_at tokens.now) }
{
    let (name, rest) = name(tokens)?;
    let (ty, rest) = type_name(alloc, rest)?;
    let (not_null, rest) = not_null(rest)?;
    let (key, rest) = key_flag(rest)?;
    Ok((
        Element::Column {
            name,
            ty,
            not_null,
            key,
        },
        rest,
    ))
}

// A name.
#[derive(Drop)]
struct NameRule {}

impl<'t> Rule<'t> for NameRule {
    type Item = Text;

    ghost Seen = { List ℕ };

    ghost seen = { λ x. x };

    ghost reads = { λ r. name_at };

    ghost sound = { λ r. Unit {0} };

    fn read(&self, _alloc: Global, tokens: &'t [Token]) -> Read<'t, Text> {
        name(tokens)
    }
}

#[tactic(auto, unfolding(sql_grammar::specs::Reads::names_at))]
fn names(alloc: Global, tokens: &[Token]) -> Read<'_, Texts>
    ensures { Answers result (names_at tokens.now) }
{
    listed(alloc, &NameRule {}, tokens)
}

#[tactic(auto, unfolding(sql_grammar::specs::Reads::key_at))]
fn key(alloc: Global, tokens: &[Token]) -> Read<'_, Element>
    ensures { Answers result (key_at tokens.now) }
{
    let rest = keyword(tokens, Keyword::Key)?;
    let rest = symbol(rest, Symbol::Open)?;
    let (names, rest) = names(alloc, rest)?;
    let rest = symbol(rest, Symbol::Close)?;
    let rest = keyword(rest, Keyword::Not)?;
    let rest = keyword(rest, Keyword::Enforced)?;
    Ok((Element::Key { names }, rest))
}

#[tactic(auto, unfolding(sql_grammar::specs::Reads::element_at))]
fn element(alloc: Global, tokens: &[Token]) -> Read<'_, Element>
    ensures { Answers result (element_at tokens.now) }
{
    match after_keyword(tokens, Keyword::Primary) {
        Some(rest) => key(alloc, rest),
        None => column_def(alloc, tokens),
    }
}

// An element.
#[derive(Drop)]
struct ElementRule {}

impl<'t> Rule<'t> for ElementRule {
    type Item = Element;

    ghost Seen = { Seen_element };

    ghost seen = { λ x. x };

    ghost reads = { λ r. element_at };

    ghost sound = { λ r. Unit {0} };

    fn read(&self, alloc: Global, tokens: &'t [Token]) -> Read<'t, Element> {
        element(alloc, tokens)
    }
}

#[tactic(auto, unfolding(sql_grammar::specs::Reads::elements_at))]
fn elements(alloc: Global, tokens: &[Token]) -> Read<'_, Elements>
    ensures { Answers result (elements_at tokens.now) }
{
    listed(alloc, &ElementRule {}, tokens)
}

#[tactic(auto, unfolding(sql_grammar::specs::Reads::pair_at))]
fn pair(tokens: &[Token]) -> Read<'_, TextPair>
    ensures { Answers result (pair_at tokens.now) }
{
    let (left, rest) = text(tokens)?;
    let rest = symbol(rest, Symbol::Equal)?;
    let (right, rest) = text(rest)?;
    Ok((TextPair { left, right }, rest))
}

// A pair.
#[derive(Drop)]
struct PairRule {}

impl<'t> Rule<'t> for PairRule {
    type Item = TextPair;

    ghost Seen = { Seen_pair };

    ghost seen = { λ x. x };

    ghost reads = { λ r. pair_at };

    ghost sound = { λ r. Unit {0} };

    fn read(&self, _alloc: Global, tokens: &'t [Token]) -> Read<'t, TextPair> {
        pair(tokens)
    }
}

#[tactic(auto, unfolding(sql_grammar::specs::Reads::pairs_at))]
fn pairs(alloc: Global, tokens: &[Token]) -> Read<'_, TextPairs>
    ensures { Answers result (pairs_at tokens.now) }
{
    listed(alloc, &PairRule {}, tokens)
}

#[tactic(auto, unfolding(sql_grammar::specs::Reads::options_at))]
fn options(alloc: Global, tokens: &[Token]) -> Read<'_, TextPairs>
    ensures { Answers result (options_at tokens.now) }
{
    match after_keyword(tokens, Keyword::With) {
        Some(rest) => {
            let rest = symbol(rest, Symbol::Open)?;
            let (pairs, rest) = pairs(alloc, rest)?;
            let rest = symbol(rest, Symbol::Close)?;
            Ok((pairs, rest))
        }
        None => Ok((TextPairs::new(alloc), tokens)),
    }
}

/// What follows CREATE.
#[tactic(auto, unfolding(sql_grammar::specs::Reads::create_at))]
pub fn create(alloc: Global, tokens: &[Token]) -> Read<'_, Statement>
    ensures { Gives statement_view result (create_at tokens.now) }
{
    let rest = keyword(tokens, Keyword::Table)?;
    let (name, rest) = name(rest)?;
    let rest = symbol(rest, Symbol::Open)?;
    let (elements, rest) = elements(alloc, rest)?;
    let rest = symbol(rest, Symbol::Close)?;
    let (options, rest) = options(alloc, rest)?;
    Ok((
        Statement::Create {
            name,
            elements,
            options,
        },
        rest,
    ))
}

/// What follows SET.
#[tactic(auto, unfolding(sql_grammar::specs::Reads::set_at))]
pub fn set(tokens: &[Token]) -> Read<'_, Statement>
    ensures { Gives statement_view result (set_at tokens.now) }
{
    let (pair, rest) = pair(tokens)?;
    let TextPair { left, right } = pair;
    Ok((
        Statement::Set {
            key: left,
            value: right,
        },
        rest,
    ))
}
