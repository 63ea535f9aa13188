//! Names of types.
ghost use Rattle.std.specs.Prelude.{◌≡◌, IfOk};
ghost use Rattle.sql_grammar.specs.Words.{number_word, only, COMMA};
ghost use Rattle.sql_grammar.specs.Reading.{word_at, maybe};
ghost use Rattle.sql_grammar.specs.Reads.{one_or_two, sizes_at, numbers_at, type_at};
ghost use Rattle.sql_reading.specs.Gives.{Answers};

use crate::{Read, after_symbol, name, number, symbol};
use ct_value::{Memory, Text};
use sql_syntax::{Texts, TypeName};
use sql_tokens::{Symbol, Token};
use std::alloc::Global;

fn second_number(tokens: &[Token]) -> Read<'_, Option<Text>>
    ensures { Answers result (maybe (only COMMA) (λ w. word_at number_word) tokens.now) }
{
    match after_symbol(tokens, Symbol::Comma) {
        Some(rest) => {
            let (second, rest) = number(rest)?;
            Ok((Some(second), rest))
        }
        None => Ok((None, tokens)),
    }
}

fn one_or_two(alloc: Global, first: Text, second: Option<Text>) -> Result<Texts, Memory>
    ensures { IfOk result (λ list. list ≡ one_or_two first second) }
{
    let mut list = Texts::new(alloc);
    list.push(first)?;
    if let Some(second) = second {
        list.push(second)?;
    }
    Ok(list)
}

#[tactic(auto, unfolding(sql_grammar::specs::Reads::sizes_at))]
fn sizes(alloc: Global, tokens: &[Token]) -> Read<'_, Texts>
    ensures { Answers result (sizes_at tokens.now) }
{
    let (first, rest) = number(tokens)?;
    let (second, rest) = second_number(rest)?;
    let rest = symbol(rest, Symbol::Close)?;
    let list = one_or_two(alloc, first, second)?;
    Ok((list, rest))
}

#[tactic(auto, unfolding(sql_grammar::specs::Reads::numbers_at))]
fn numbers(alloc: Global, tokens: &[Token]) -> Read<'_, Texts>
    ensures { Answers result (numbers_at tokens.now) }
{
    match after_symbol(tokens, Symbol::Open) {
        Some(rest) => sizes(alloc, rest),
        None => Ok((Texts::new(alloc), tokens)),
    }
}

/// The name of a type, with the numbers behind it.
#[tactic(auto, unfolding(sql_grammar::specs::Reads::type_at))]
pub fn type_name(alloc: Global, tokens: &[Token]) -> Read<'_, TypeName>
    ensures { Answers result (type_at tokens.now) }
{
    let (name, rest) = name(tokens)?;
    let (numbers, rest) = numbers(alloc, rest)?;
    Ok((TypeName { name, numbers }, rest))
}
