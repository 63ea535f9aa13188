//! Selects: their items, sources, joins and clauses.
ghost use Rattle.std.specs.Prelude.{◌≡◌, None, option_map, IfOk};
ghost use Rattle.sql_syntax.specs.Tree as t;
ghost use Rattle.sql_syntax.specs.View.{view, item_view, source_view, items_view, join_view, joins_view, query_view, select_view, trees_view};
ghost use Rattle.sql_grammar.specs.Words.{AS, ON, join_word, only};
ghost use Rattle.sql_grammar.specs.Reading.{after, bracketed, word_at};
ghost use Rattle.sql_grammar.specs.Reads.{alias_at, chosen_at, filters_at, from_at, group_at, having_at, item_at, items_at, joined_at, joins_at, on_at, outer_at, select_at, selected_at, source_at, star_of_at, table_at, where_at};
ghost use Rattle.sql_reading.specs.Gives.{Answers, Gives, Parts};

use ct_value::{Boxed, Memory, Text};
use sql_reading::{
    Again, Nested, Read, Rule, Stop, after_keyword, after_symbol, beside, flagged, join_word,
    keyword, listed, name, name_word, repeat, symbol, trees,
};
use sql_syntax::{Item, Items, JoinItem, JoinItems, JoinWord, Query, Select, Source, Tree, Trees};
use sql_tokens::{Keyword, Symbol, Token};
use std::alloc::Global;

#[tactic(auto, unfolding(sql_grammar::specs::Reads::alias_at))]
fn bare_alias(tokens: &[Token]) -> Read<'_, Option<Text>>
    requires { word_at (only AS) tokens.now ≡ None }
    ensures { Answers result (alias_at tokens.now) }
{
    match name_word(tokens)? {
        Some((text, _, rest)) => Ok((Some(text), rest)),
        None => Ok((None, tokens)),
    }
}

// A name with AS or without it, if it stands there.
#[tactic(auto, unfolding(sql_grammar::specs::Reads::alias_at))]
fn alias(tokens: &[Token]) -> Read<'_, Option<Text>>
    ensures { Answers result (alias_at tokens.now) }
{
    match after_keyword(tokens, Keyword::As) {
        Some(rest) => {
            let (text, rest) = name(rest)?;
            Ok((Some(text), rest))
        }
        None => bare_alias(tokens),
    }
}

// The name before a point and a star, if they stand there.
#[tactic(auto, unfolding(sql_grammar::specs::Reads::star_of_at))]
fn star_of(tokens: &[Token]) -> Result<Option<(Text, &[Token])>, Memory>
    ensures { IfOk result (λ found. option_map (λ x. (x.0, x.1.now)) found ≡ star_of_at tokens.now) }
{
    match tokens {
        [
            Token::Name { text, .. },
            Token::Symbol(Symbol::Dot),
            Token::Symbol(Symbol::Times),
            rest @ ..,
        ] => { Ok(Some((text.dup()?, rest))) }
        _ => Ok(None),
    }
}

// What follows the name of a table.
#[tactic(auto, using(sql_syntax::proofs::laws::Views::source_table), unfolding(sql_grammar::specs::Reads::table_at))]
fn table(name: Text, tokens: &[Token]) -> Read<'_, Source>
    ensures { Gives source_view result (table_at name tokens.now) }
{
    let (alias, rest) = alias(tokens)?;
    Ok((Source::Table { name, alias }, rest))
}

#[tactic(auto, using(sql_syntax::proofs::laws::Views::item_all, sql_syntax::proofs::laws::Views::item_all_of, sql_syntax::proofs::laws::Views::item_one), unfolding(sql_grammar::specs::Reads::item_at, sql_grammar::specs::Reads::value_item_at))]
fn select_item<'t, N: Nested<'t>>(alloc: Global, nested: &N, tokens: &'t [Token]) -> Read<'t, Item>
    requires { N.sound nested.now }
    ensures { Gives item_view result (item_at (N.readers nested.now) tokens.now) }
{
    if let Some(rest) = after_symbol(tokens, Symbol::Times) {
        return Ok((Item::All, rest));
    }
    if let Some((of, rest)) = star_of(tokens)? {
        return Ok((Item::AllOf(of), rest));
    }
    let (value, rest) = nested.expr(alloc, tokens)?;
    let (value, (name, rest)) = beside(value, alias(rest))?;
    Ok((Item::One { value, name }, rest))
}

// A select item.
#[derive(Drop)]
struct ItemRule<'n, N> {
    nested: &'n N,
}

impl<'t, N: Nested<'t>> Rule<'t> for ItemRule<'_, N> {
    type Item = Item;

    ghost Seen = { t.Item };

    ghost seen = { item_view };

    ghost reads = { λ r. item_at (N.readers r.nested.now) };

    ghost sound = { λ r. N.sound r.nested.now };

    fn read(&self, alloc: Global, tokens: &'t [Token]) -> Read<'t, Item> {
        select_item(alloc, self.nested, tokens)
    }
}

#[tactic(auto, unfolding(sql_grammar::specs::Reads::items_at))]
fn select_items<'t, N: Nested<'t>>(
    alloc: Global,
    nested: &N,
    tokens: &'t [Token],
) -> Read<'t, Items>
    requires { N.sound nested.now }
    ensures { Gives items_view result (items_at (N.readers nested.now) tokens.now) }
{
    listed(alloc, &ItemRule { nested }, tokens)
}

fn bracketed_query<'t, N: Nested<'t>>(
    alloc: Global,
    nested: &N,
    tokens: &'t [Token],
) -> Read<'t, Boxed<Query>>
    requires { N.sound nested.now }
    ensures { Gives query_view result (bracketed (N.readers nested.now).query tokens.now) }
{
    let rest = symbol(tokens, Symbol::Open)?;
    let (query, rest) = nested.query(alloc, rest)?;
    let query = Boxed::new(alloc, query)?;
    let rest = symbol(rest, Symbol::Close)?;
    Ok((query, rest))
}

#[tactic(auto, using(sql_syntax::proofs::laws::Views::source_sub), unfolding(sql_grammar::specs::Reads::source_at, sql_grammar::specs::Reads::from_query_at))]
fn source_item<'t, N: Nested<'t>>(
    alloc: Global,
    nested: &N,
    tokens: &'t [Token],
) -> Read<'t, Source>
    requires { N.sound nested.now }
    ensures { Gives source_view result (source_at (N.readers nested.now) tokens.now) }
{
    match name_word(tokens)? {
        Some((name, _, rest)) => table(name, rest),
        None => {
            let (query, rest) = bracketed_query(alloc, nested, tokens)?;
            let (alias, rest) = alias(rest)?;
            Ok((Source::Sub { query, alias }, rest))
        }
    }
}

fn on_value<'t, N: Nested<'t>>(alloc: Global, nested: &N, tokens: &'t [Token]) -> Read<'t, Tree>
    requires { N.sound nested.now }
    ensures { Gives view result (after ON (N.readers nested.now).expr tokens.now) }
{
    let rest = keyword(tokens, Keyword::On)?;
    nested.expr(alloc, rest)
}

#[tactic(auto, using(sql_syntax::proofs::laws::Views::join_item), unfolding(sql_grammar::specs::Reads::on_at))]
fn on_part<'t, N: Nested<'t>>(
    alloc: Global,
    nested: &N,
    kind: JoinWord,
    tokens: &'t [Token],
) -> Read<'t, JoinItem>
    requires { N.sound nested.now }
    ensures { Gives join_view result (on_at (N.readers nested.now) kind tokens.now) }
{
    let (source, rest) = source_item(alloc, nested, tokens)?;
    let (source, (on, rest)) = beside(source, on_value(alloc, nested, rest))?;
    Ok((JoinItem { kind, source, on }, rest))
}

#[tactic(auto, unfolding(sql_grammar::specs::Reads::outer_at))]
fn outer<'t, N: Nested<'t>>(
    alloc: Global,
    nested: &N,
    kind: JoinWord,
    tokens: &'t [Token],
) -> Read<'t, JoinItem>
    requires { N.sound nested.now }
    ensures { Gives join_view result (outer_at (N.readers nested.now) kind tokens.now) }
{
    let (_, rest) = flagged(tokens, Keyword::Outer);
    let rest = keyword(rest, Keyword::Join)?;
    on_part(alloc, nested, kind, rest)
}

#[tactic(auto, unfolding(sql_grammar::specs::Reads::joined_at))]
fn joined<'t, N: Nested<'t>>(
    alloc: Global,
    nested: &N,
    word: Option<JoinWord>,
    tokens: &'t [Token],
) -> Read<'t, JoinItem>
    requires { N.sound nested.now }
    ensures { Gives join_view result (joined_at (N.readers nested.now) word tokens.now) }
{
    match word {
        None => on_part(alloc, nested, JoinWord::Inner, tokens),
        Some(JoinWord::Inner) => {
            let rest = keyword(tokens, Keyword::Join)?;
            on_part(alloc, nested, JoinWord::Inner, rest)
        }
        Some(JoinWord::Left) => outer(alloc, nested, JoinWord::Left, tokens),
        Some(JoinWord::Right) => outer(alloc, nested, JoinWord::Right, tokens),
        Some(JoinWord::Full) => outer(alloc, nested, JoinWord::Full, tokens),
    }
}

// The first word of a join, and the join.
#[derive(Drop)]
struct Joins<'n, N> {
    nested: &'n N,
}

impl<'t, N: Nested<'t>> Again<'t> for Joins<'_, N> {
    type Word = Option<JoinWord>;

    type Item = JoinItem;

    ghost Seen = { t.JoinItem };

    ghost seen = { join_view };

    ghost word_of = { λ r. join_word };

    ghost item_of = { λ r w. joined_at (N.readers r.nested.now) w };

    ghost sound = { λ r. N.sound r.nested.now };

    fn word(&self, tokens: &'t [Token]) -> Option<(Option<JoinWord>, &'t [Token])> {
        join_word(tokens)
    }

    fn item(
        &self,
        alloc: Global,
        word: Option<JoinWord>,
        tokens: &'t [Token],
    ) -> Read<'t, JoinItem> {
        joined(alloc, self.nested, word, tokens)
    }
}

#[tactic(auto, using(sql_grammar::proofs::laws::Steps::behind_nothing), unfolding(sql_grammar::specs::Reads::joins_at))]
fn join_items<'t, N: Nested<'t>>(
    alloc: Global,
    nested: &N,
    tokens: &'t [Token],
) -> Read<'t, JoinItems>
    requires { N.sound nested.now }
    ensures { Gives joins_view result (joins_at (N.readers nested.now) tokens.now) }
{
    repeat(alloc, &Joins { nested }, JoinItems::new(alloc), tokens)
}

#[tactic(auto, unfolding(sql_grammar::specs::Reads::chosen_at))]
fn chosen<'t, N: Nested<'t>>(
    alloc: Global,
    nested: &N,
    tokens: &'t [Token],
) -> Result<(bool, Items, &'t [Token]), Stop>
    requires { N.sound nested.now }
    ensures { Parts (λ x. ((x.0, items_view x.1), x.2.now)) result (chosen_at (N.readers nested.now) tokens.now) }
{
    let (distinct, rest) = flagged(tokens, Keyword::Distinct);
    let (items, rest) = select_items(alloc, nested, rest)?;
    Ok((distinct, items, rest))
}

#[tactic(auto, unfolding(sql_grammar::specs::Reads::from_at))]
fn from_part<'t, N: Nested<'t>>(
    alloc: Global,
    nested: &N,
    tokens: &'t [Token],
) -> Result<(Source, JoinItems, &'t [Token]), Stop>
    requires { N.sound nested.now }
    ensures { Parts (λ x. ((source_view x.0, joins_view x.1), x.2.now)) result (from_at (N.readers nested.now) tokens.now) }
{
    let rest = keyword(tokens, Keyword::From)?;
    let (source, rest) = source_item(alloc, nested, rest)?;
    let (source, (joins, rest)) = beside(source, join_items(alloc, nested, rest))?;
    Ok((source, joins, rest))
}

#[tactic(auto, unfolding(sql_grammar::specs::Reads::where_at))]
fn where_part<'t, N: Nested<'t>>(
    alloc: Global,
    nested: &N,
    tokens: &'t [Token],
) -> Read<'t, Option<Tree>>
    requires { N.sound nested.now }
    ensures { Gives (option_map view) result (where_at (N.readers nested.now) tokens.now) }
{
    match after_keyword(tokens, Keyword::Where) {
        Some(rest) => {
            let (cond, rest) = nested.expr(alloc, rest)?;
            Ok((Some(cond), rest))
        }
        None => Ok((None, tokens)),
    }
}

#[tactic(auto, unfolding(sql_grammar::specs::Reads::group_at))]
fn group_part<'t, N: Nested<'t>>(alloc: Global, nested: &N, tokens: &'t [Token]) -> Read<'t, Trees>
    requires { N.sound nested.now }
    ensures { Gives trees_view result (group_at (N.readers nested.now) tokens.now) }
{
    match after_keyword(tokens, Keyword::Group) {
        Some(rest) => {
            let rest = keyword(rest, Keyword::By)?;
            trees(alloc, nested, rest)
        }
        None => Ok((Trees::new(alloc), tokens)),
    }
}

#[tactic(auto, unfolding(sql_grammar::specs::Reads::having_at))]
fn having_part<'t, N: Nested<'t>>(
    alloc: Global,
    nested: &N,
    tokens: &'t [Token],
) -> Read<'t, Option<Tree>>
    requires { N.sound nested.now }
    ensures { Gives (option_map view) result (having_at (N.readers nested.now) tokens.now) }
{
    match after_keyword(tokens, Keyword::Having) {
        Some(rest) => {
            let (cond, rest) = nested.expr(alloc, rest)?;
            Ok((Some(cond), rest))
        }
        None => Ok((None, tokens)),
    }
}

#[tactic(auto, unfolding(sql_grammar::specs::Reads::filters_at))]
fn filters<'t, N: Nested<'t>>(
    alloc: Global,
    nested: &N,
    tokens: &'t [Token],
) -> Result<(Option<Tree>, Trees, Option<Tree>, &'t [Token]), Stop>
    requires { N.sound nested.now }
    ensures { Parts (λ x. ((option_map view x.0, trees_view x.1, option_map view x.2), x.3.now)) result (filters_at (N.readers nested.now) tokens.now) }
{
    let (cond, rest) = where_part(alloc, nested, tokens)?;
    let (groups, rest) = group_part(alloc, nested, rest)?;
    let (having, rest) = having_part(alloc, nested, rest)?;
    Ok((cond, groups, having, rest))
}

#[tactic(auto, using(sql_syntax::proofs::laws::Views::select_made), unfolding(sql_grammar::specs::Reads::selected_at))]
fn selected<'t, N: Nested<'t>>(alloc: Global, nested: &N, tokens: &'t [Token]) -> Read<'t, Select>
    requires { N.sound nested.now }
    ensures { Gives select_view result (selected_at (N.readers nested.now) tokens.now) }
{
    let (distinct, items, rest) = chosen(alloc, nested, tokens)?;
    let (from, joins, rest) = from_part(alloc, nested, rest)?;
    let (cond, groups, having, rest) = filters(alloc, nested, rest)?;
    Ok((
        Select {
            distinct,
            items,
            from,
            joins,
            cond,
            groups,
            having,
        },
        rest,
    ))
}

/// Reads a select, and answers it with what follows it.
#[tactic(auto, unfolding(sql_grammar::specs::Reads::select_at))]
pub fn select_part<'t, N: Nested<'t>>(
    alloc: Global,
    nested: &N,
    tokens: &'t [Token],
) -> Read<'t, Select>
    requires { N.sound nested.now }
    ensures { Gives select_view result (select_at (N.readers nested.now) tokens.now) }
{
    let rest = keyword(tokens, Keyword::Select)?;
    selected(alloc, nested, rest)
}
