//! Queries: selects with INTERSECT, UNION ALL and EXCEPT between them, and the order and the limit behind them.
ghost use Rattle.std.specs.Prelude.{◌≡◌};
ghost use Rattle.sql_syntax.specs.Tree as t;
ghost use Rattle.sql_syntax.specs.View.{query_view, select_tail_view, select_tails_view, sorts_view, term_tail_view, term_tails_view, term_view};
ghost use Rattle.sql_grammar.specs.Words.{INTERSECT, only, set_word};
ghost use Rattle.sql_grammar.specs.Nodes.{except_word};
ghost use Rattle.sql_grammar.specs.Reads.{beside_at, ending_at, except_at, intersect_at, intersects_at, limit_at, order_at, query_at, term_at, term_tails_at, terms_at, union_at};
ghost use Rattle.sql_reading.specs.Gives.{Answers, Gives, Parts};

use ct_value::Text;
use sql_reading::{
    Again, Nested, Read, Stop, after_keyword, beside, flagged, keyword, number, order_by, repeat,
    set_word,
};
use sql_selects::select_part;
use sql_syntax::{Query, SelectTail, SelectTails, SetWord, SortList, Term, TermTail, TermTails};
use sql_tokens::{Keyword, Token};
use std::alloc::Global;

#[tactic(auto, using(sql_syntax::proofs::laws::Views::select_tail_made), unfolding(sql_grammar::specs::Reads::intersect_at))]
fn intersect_part<'t, N: Nested<'t>>(
    alloc: Global,
    nested: &N,
    tokens: &'t [Token],
) -> Read<'t, SelectTail>
    requires { N.sound nested.now }
    ensures { Gives select_tail_view result (intersect_at (N.readers nested.now) tokens.now) }
{
    let (all, rest) = flagged(tokens, Keyword::All);
    let (select, rest) = select_part(alloc, nested, rest)?;
    Ok((SelectTail { all, select }, rest))
}

// INTERSECT, and the select behind it.
#[derive(Drop)]
struct Intersects<'n, N> {
    nested: &'n N,
}

impl<'t, N: Nested<'t>> Again<'t> for Intersects<'_, N> {
    type Word = ();

    type Item = SelectTail;

    ghost Seen = { t.SelectTail };

    ghost seen = { select_tail_view };

    ghost word_of = { λ r. only INTERSECT };

    ghost item_of = { λ r w. intersect_at (N.readers r.nested.now) };

    ghost sound = { λ r. N.sound r.nested.now };

    fn word(&self, tokens: &'t [Token]) -> Option<((), &'t [Token])> {
        let rest = after_keyword(tokens, Keyword::Intersect)?;
        Some(((), rest))
    }

    fn item(&self, alloc: Global, _word: (), tokens: &'t [Token]) -> Read<'t, SelectTail> {
        intersect_part(alloc, self.nested, tokens)
    }
}

#[tactic(auto, using(sql_grammar::proofs::laws::Steps::behind_nothing), unfolding(sql_grammar::specs::Reads::intersects_at))]
fn select_tails<'t, N: Nested<'t>>(
    alloc: Global,
    nested: &N,
    tokens: &'t [Token],
) -> Read<'t, SelectTails>
    requires { N.sound nested.now }
    ensures { Gives select_tails_view result (intersects_at (N.readers nested.now) tokens.now) }
{
    repeat(
        alloc,
        &Intersects { nested },
        SelectTails::new(alloc),
        tokens,
    )
}

#[tactic(auto, using(sql_syntax::proofs::laws::Views::term_made), unfolding(sql_grammar::specs::Reads::term_at))]
fn term<'t, N: Nested<'t>>(alloc: Global, nested: &N, tokens: &'t [Token]) -> Read<'t, Term>
    requires { N.sound nested.now }
    ensures { Gives term_view result (term_at (N.readers nested.now) tokens.now) }
{
    let (first, behind) = select_part(alloc, nested, tokens)?;
    let (first, (rest, behind)) = beside(first, select_tails(alloc, nested, behind))?;
    Ok((Term { first, rest }, behind))
}

#[tactic(auto, using(sql_syntax::proofs::laws::Views::term_tail_made), unfolding(sql_grammar::specs::Reads::union_at))]
fn union_part<'t, N: Nested<'t>>(
    alloc: Global,
    nested: &N,
    tokens: &'t [Token],
) -> Read<'t, TermTail>
    requires { N.sound nested.now }
    ensures { Gives term_tail_view result (union_at (N.readers nested.now) tokens.now) }
{
    let rest = keyword(tokens, Keyword::All)?;
    let (term, behind) = term(alloc, nested, rest)?;
    let word = SetWord::UnionAll;
    Ok((TermTail { word, term }, behind))
}

// EXCEPT, with ALL beside it or without.
fn except_word(all: bool) -> SetWord
    ensures { result ≡ except_word all }
{
    match all {
        true => SetWord::ExceptAll,
        false => SetWord::Except,
    }
}

#[tactic(auto, using(sql_syntax::proofs::laws::Views::term_tail_made), unfolding(sql_grammar::specs::Reads::except_at))]
fn except_part<'t, N: Nested<'t>>(
    alloc: Global,
    nested: &N,
    tokens: &'t [Token],
) -> Read<'t, TermTail>
    requires { N.sound nested.now }
    ensures { Gives term_tail_view result (except_at (N.readers nested.now) tokens.now) }
{
    let (all, rest) = flagged(tokens, Keyword::All);
    let (term, rest) = term(alloc, nested, rest)?;
    let word = except_word(all);
    Ok((TermTail { word, term }, rest))
}

#[tactic(auto, unfolding(sql_grammar::specs::Reads::beside_at))]
fn term_tail<'t, N: Nested<'t>>(
    alloc: Global,
    nested: &N,
    except: bool,
    tokens: &'t [Token],
) -> Read<'t, TermTail>
    requires { N.sound nested.now }
    ensures { Gives term_tail_view result (beside_at (N.readers nested.now) except tokens.now) }
{
    match except {
        true => except_part(alloc, nested, tokens),
        false => union_part(alloc, nested, tokens),
    }
}

// The first word between two terms, and the term behind it.
#[derive(Drop)]
struct SetTails<'n, N> {
    nested: &'n N,
}

impl<'t, N: Nested<'t>> Again<'t> for SetTails<'_, N> {
    type Word = bool;

    type Item = TermTail;

    ghost Seen = { t.TermTail };

    ghost seen = { term_tail_view };

    ghost word_of = { λ r. set_word };

    ghost item_of = { λ r w. beside_at (N.readers r.nested.now) w };

    ghost sound = { λ r. N.sound r.nested.now };

    fn word(&self, tokens: &'t [Token]) -> Option<(bool, &'t [Token])> {
        set_word(tokens)
    }

    fn item(&self, alloc: Global, word: bool, tokens: &'t [Token]) -> Read<'t, TermTail> {
        term_tail(alloc, self.nested, word, tokens)
    }
}

#[tactic(auto, using(sql_grammar::proofs::laws::Steps::behind_nothing), unfolding(sql_grammar::specs::Reads::term_tails_at))]
fn term_tails<'t, N: Nested<'t>>(
    alloc: Global,
    nested: &N,
    tokens: &'t [Token],
) -> Read<'t, TermTails>
    requires { N.sound nested.now }
    ensures { Gives term_tails_view result (term_tails_at (N.readers nested.now) tokens.now) }
{
    repeat(alloc, &SetTails { nested }, TermTails::new(alloc), tokens)
}

#[tactic(auto, unfolding(sql_grammar::specs::Reads::terms_at))]
fn terms<'t, N: Nested<'t>>(
    alloc: Global,
    nested: &N,
    tokens: &'t [Token],
) -> Result<(Term, TermTails, &'t [Token]), Stop>
    requires { N.sound nested.now }
    ensures { Parts (λ x. ((term_view x.0, term_tails_view x.1), x.2.now)) result (terms_at (N.readers nested.now) tokens.now) }
{
    let (first, behind) = term(alloc, nested, tokens)?;
    let (first, (rest, behind)) = beside(first, term_tails(alloc, nested, behind))?;
    Ok((first, rest, behind))
}

#[tactic(auto, unfolding(sql_grammar::specs::Reads::order_at))]
fn order_part<'t, N: Nested<'t>>(
    alloc: Global,
    nested: &N,
    tokens: &'t [Token],
) -> Read<'t, SortList>
    requires { N.sound nested.now }
    ensures { Gives sorts_view result (order_at (N.readers nested.now) tokens.now) }
{
    match after_keyword(tokens, Keyword::Order) {
        Some(rest) => { order_by(alloc, nested, rest) }
        None => Ok((SortList::new(alloc), tokens)),
    }
}

// LIMIT and its number, if they stand there.
#[tactic(auto, unfolding(sql_grammar::specs::Reads::limit_at))]
fn limit(tokens: &[Token]) -> Read<'_, Option<Text>>
    ensures { Answers result (limit_at tokens.now) }
{
    match after_keyword(tokens, Keyword::Limit) {
        Some(rest) => {
            let (limit, rest) = number(rest)?;
            Ok((Some(limit), rest))
        }
        None => Ok((None, tokens)),
    }
}

#[tactic(auto, unfolding(sql_grammar::specs::Reads::ending_at))]
fn ending<'t, N: Nested<'t>>(
    alloc: Global,
    nested: &N,
    tokens: &'t [Token],
) -> Result<(SortList, Option<Text>, &'t [Token]), Stop>
    requires { N.sound nested.now }
    ensures { Parts (λ x. ((sorts_view x.0, x.1), x.2.now)) result (ending_at (N.readers nested.now) tokens.now) }
{
    let (order, rest) = order_part(alloc, nested, tokens)?;
    let (limit, rest) = limit(rest)?;
    Ok((order, limit, rest))
}

/// Reads a query, and answers it with what follows it.
///
/// `nested` reads the expressions and queries within it.
#[tactic(auto, using(sql_syntax::proofs::laws::Views::query_made), unfolding(sql_grammar::specs::Reads::query_at))]
pub fn query<'t, N: Nested<'t>>(alloc: Global, nested: &N, tokens: &'t [Token]) -> Read<'t, Query>
    requires { N.sound nested.now }
    ensures { Gives query_view result (query_at (N.readers nested.now) tokens.now) }
{
    let (first, rest, behind) = terms(alloc, nested, tokens)?;
    let (first, (order, limit, behind)) = beside(first, ending(alloc, nested, behind))?;
    Ok((
        Query {
            first,
            rest,
            order,
            limit,
        },
        behind,
    ))
}
