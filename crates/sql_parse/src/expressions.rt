//! Tests, and the chains of AND and OR: whole expressions.
ghost use Rattle.sql_syntax.specs.Tree as t;
ghost use Rattle.sql_syntax.specs.View.{view};
ghost use Rattle.sql_grammar.specs.Words.{SELECT, only};
ghost use Rattle.sql_grammar.specs.Reading.{word_at};
ghost use Rattle.sql_grammar.specs.Reads.{between_at, conj_at, exists_at, expr_at, in_at, is_null_at, neg_at, negatable_at, sum_at, sum_test_at, test_at, tested_at, query_or_list};
ghost use Rattle.sql_reading.specs.Gives.{Gives};

use crate::chain_nodes::{and_node, not_node, or_node};
use crate::{boxed_query, sum};
use ct_value::Boxed;
use sql_grammar::{NegatableWord, RestWord};
use sql_reading::{
    Nested, Read, Rule, after_keyword, flagged, keyword, led, negatable_word, rest_word, symbol,
    trees,
};
use sql_syntax::Tree;
use sql_tokens::{Keyword, Symbol, Token};
use std::alloc::Global;

// Reads a sum, and puts it on the heap.
fn boxed_sum<'t, N: Nested<'t>>(
    alloc: Global,
    nested: &N,
    tokens: &'t [Token],
) -> Read<'t, Boxed<Tree>>
    requires { N.sound nested.now }
    ensures { Gives view result (sum_at (N.readers nested.now) tokens.now) }
{
    let (value, rest) = sum(alloc, nested, tokens)?;
    let value = Boxed::new(alloc, value)?;
    Ok((value, rest))
}

#[tactic(auto, using(sql_syntax::proofs::laws::Views::tree_between), unfolding(sql_grammar::specs::Reads::between_at))]
fn between<'t, N: Nested<'t>>(
    alloc: Global,
    nested: &N,
    value: Boxed<Tree>,
    negated: bool,
    tokens: &'t [Token],
) -> Read<'t, Tree>
    requires { N.sound nested.now }
    ensures { Gives view result (between_at (N.readers nested.now) (view value) negated tokens.now) }
{
    let (low, rest) = boxed_sum(alloc, nested, tokens)?;
    let rest = keyword(rest, Keyword::And)?;
    let (high, rest) = boxed_sum(alloc, nested, rest)?;
    Ok((
        Tree::Between {
            value,
            low,
            high,
            negated,
        },
        rest,
    ))
}

#[tactic(auto, using(sql_syntax::proofs::laws::Views::tree_in_list, sql_syntax::proofs::laws::Views::tree_in_query), unfolding(sql_grammar::specs::Reads::in_list_at, sql_grammar::specs::Reads::in_query_at))]
fn query_or_list<'t, N: Nested<'t>>(
    alloc: Global,
    nested: &N,
    value: Boxed<Tree>,
    negated: bool,
    tokens: &'t [Token],
) -> Read<'t, Tree>
    requires { N.sound nested.now }
    ensures { Gives view result (query_or_list (N.readers nested.now) (view value) negated tokens.now (word_at (only SELECT) tokens.now)) }
{
    match after_keyword(tokens, Keyword::Select) {
        Some(_) => {
            let (query, rest) = boxed_query(alloc, nested, tokens)?;
            let rest = symbol(rest, Symbol::Close)?;
            Ok((
                Tree::InQuery {
                    value,
                    query,
                    negated,
                },
                rest,
            ))
        }
        None => {
            let (items, rest) = trees(alloc, nested, tokens)?;
            let rest = symbol(rest, Symbol::Close)?;
            Ok((
                Tree::InList {
                    value,
                    items,
                    negated,
                },
                rest,
            ))
        }
    }
}

#[tactic(auto, unfolding(sql_grammar::specs::Reads::in_at))]
fn in_test<'t, N: Nested<'t>>(
    alloc: Global,
    nested: &N,
    value: Boxed<Tree>,
    negated: bool,
    tokens: &'t [Token],
) -> Read<'t, Tree>
    requires { N.sound nested.now }
    ensures { Gives view result (in_at (N.readers nested.now) (view value) negated tokens.now) }
{
    let rest = symbol(tokens, Symbol::Open)?;
    query_or_list(alloc, nested, value, negated, rest)
}

#[tactic(auto, using(sql_syntax::proofs::laws::Views::tree_like), unfolding(sql_grammar::specs::Reads::negatable_at, sql_grammar::specs::Reads::like_at))]
fn negatable<'t, N: Nested<'t>>(
    alloc: Global,
    nested: &N,
    value: Boxed<Tree>,
    negated: bool,
    word: NegatableWord,
    tokens: &'t [Token],
) -> Read<'t, Tree>
    requires { N.sound nested.now }
    ensures { Gives view result (negatable_at (N.readers nested.now) (view value) negated word tokens.now) }
{
    match word {
        NegatableWord::Between => between(alloc, nested, value, negated, tokens),
        NegatableWord::In => in_test(alloc, nested, value, negated, tokens),
        NegatableWord::Like => {
            let (pattern, rest) = boxed_sum(alloc, nested, tokens)?;
            Ok((
                Tree::Like {
                    value,
                    pattern,
                    negated,
                },
                rest,
            ))
        }
    }
}

// What follows the sum and IS.
#[tactic(auto, using(sql_syntax::proofs::laws::Views::tree_is_null), unfolding(sql_grammar::specs::Reads::is_null_at))]
fn is_null<'t>(value: Boxed<Tree>, tokens: &'t [Token]) -> Read<'t, Tree>
    ensures { Gives view result (is_null_at (view value) tokens.now) }
{
    let (negated, rest) = flagged(tokens, Keyword::Not);
    let rest = keyword(rest, Keyword::Null)?;
    Ok((Tree::IsNull { value, negated }, rest))
}

#[tactic(auto, using(sql_syntax::proofs::laws::Views::tree_compare), unfolding(sql_grammar::specs::Reads::tested_at, sql_grammar::specs::Reads::compare_at))]
fn tested<'t, N: Nested<'t>>(
    alloc: Global,
    nested: &N,
    value: Boxed<Tree>,
    word: RestWord,
    tokens: &'t [Token],
) -> Read<'t, Tree>
    requires { N.sound nested.now }
    ensures { Gives view result (tested_at (N.readers nested.now) (view value) word tokens.now) }
{
    match word {
        RestWord::Compare(op) => {
            let (right, rest) = boxed_sum(alloc, nested, tokens)?;
            Ok((
                Tree::Compare {
                    op,
                    left: value,
                    right,
                },
                rest,
            ))
        }
        RestWord::Is => is_null(value, tokens),
        RestWord::Not => {
            let (word, rest) = negatable_word(tokens)?;
            negatable(alloc, nested, value, true, word, rest)
        }
        RestWord::Negatable(word) => negatable(alloc, nested, value, false, word, tokens),
    }
}

#[tactic(auto, using(sql_syntax::proofs::laws::Views::tree_exists), unfolding(sql_grammar::specs::Reads::exists_at))]
fn exists<'t, N: Nested<'t>>(alloc: Global, nested: &N, tokens: &'t [Token]) -> Read<'t, Tree>
    requires { N.sound nested.now }
    ensures { Gives view result (exists_at (N.readers nested.now) tokens.now) }
{
    let rest = symbol(tokens, Symbol::Open)?;
    let (query, rest) = boxed_query(alloc, nested, rest)?;
    let rest = symbol(rest, Symbol::Close)?;
    Ok((Tree::Exists(query), rest))
}

#[tactic(auto, unfolding(sql_grammar::specs::Reads::sum_test_at, sql_grammar::specs::Reads::rest_at))]
fn sum_test<'t, N: Nested<'t>>(alloc: Global, nested: &N, tokens: &'t [Token]) -> Read<'t, Tree>
    requires { N.sound nested.now }
    ensures { Gives view result (sum_test_at (N.readers nested.now) tokens.now) }
{
    let (value, rest) = sum(alloc, nested, tokens)?;
    match rest_word(rest) {
        Some((word, after)) => {
            let value = Boxed::new(alloc, value)?;
            tested(alloc, nested, value, word, after)
        }
        None => Ok((value, rest)),
    }
}

#[tactic(auto, unfolding(sql_grammar::specs::Reads::test_at))]
fn test<'t, N: Nested<'t>>(alloc: Global, nested: &N, tokens: &'t [Token]) -> Read<'t, Tree>
    requires { N.sound nested.now }
    ensures { Gives view result (test_at (N.readers nested.now) tokens.now) }
{
    match after_keyword(tokens, Keyword::Exists) {
        Some(rest) => exists(alloc, nested, rest),
        None => sum_test(alloc, nested, tokens),
    }
}

#[tactic(auto, unfolding(sql_grammar::specs::Reads::neg_at))]
fn neg<'t, N: Nested<'t>>(alloc: Global, nested: &N, tokens: &'t [Token]) -> Read<'t, Tree>
    requires { N.sound nested.now }
    ensures { Gives view result (neg_at (N.readers nested.now) tokens.now) }
{
    let (negated, rest) = flagged(tokens, Keyword::Not);
    let (value, rest) = test(alloc, nested, rest)?;
    let node = not_node(alloc, negated, value)?;
    Ok((node, rest))
}

// An operand of AND.
#[derive(Drop)]
struct NegRule<'n, N> {
    nested: &'n N,
}

impl<'t, N: Nested<'t>> Rule<'t> for NegRule<'_, N> {
    type Item = Tree;

    ghost Seen = { t.Tree };

    ghost seen = { view };

    ghost reads = { λ r. neg_at (N.readers r.nested.now) };

    ghost sound = { λ r. N.sound r.nested.now };

    fn read(&self, alloc: Global, tokens: &'t [Token]) -> Read<'t, Tree> {
        neg(alloc, self.nested, tokens)
    }
}

#[tactic(auto, using(sql_grammar::proofs::laws::Steps::conj_series, sql_grammar::proofs::laws::Steps::series_is))]
fn conj<'t, N: Nested<'t>>(alloc: Global, nested: &N, tokens: &'t [Token]) -> Read<'t, Tree>
    requires { N.sound nested.now }
    ensures { Gives view result (conj_at (N.readers nested.now) tokens.now) }
{
    let (first, rest) = neg(alloc, nested, tokens)?;
    let (list, rest) = led(alloc, Keyword::And, &NegRule { nested }, first, rest)?;
    Ok((and_node(list), rest))
}

// An operand of OR.
#[derive(Drop)]
struct ConjRule<'n, N> {
    nested: &'n N,
}

impl<'t, N: Nested<'t>> Rule<'t> for ConjRule<'_, N> {
    type Item = Tree;

    ghost Seen = { t.Tree };

    ghost seen = { view };

    ghost reads = { λ r. conj_at (N.readers r.nested.now) };

    ghost sound = { λ r. N.sound r.nested.now };

    fn read(&self, alloc: Global, tokens: &'t [Token]) -> Read<'t, Tree> {
        conj(alloc, self.nested, tokens)
    }
}

/// Reads an expression, and answers it with what follows it.
///
/// `nested` reads what stands within its brackets.
#[tactic(auto, using(sql_grammar::proofs::laws::Steps::expr_series, sql_grammar::proofs::laws::Steps::series_is))]
pub fn expression<'t, N: Nested<'t>>(
    alloc: Global,
    nested: &N,
    tokens: &'t [Token],
) -> Read<'t, Tree>
    requires { N.sound nested.now }
    ensures { Gives view result (expr_at (N.readers nested.now) tokens.now) }
{
    let (first, rest) = conj(alloc, nested, tokens)?;
    let (list, rest) = led(alloc, Keyword::Or, &ConjRule { nested }, first, rest)?;
    Ok((or_node(list), rest))
}
