//! Operands: primaries, signs, products and sums.
ghost use Rattle.std.specs.Prelude.{option_map};
ghost use Rattle.sql_syntax.specs.Tree as t;
ghost use Rattle.sql_syntax.specs.View.{view, args_view, over_view, query_view, product_view, product_tails_view, sum_view, sum_tails_view, when_view, whens_view, trees_view};
ghost use Rattle.sql_grammar.specs.Words.{THEN, WHEN, product_word, sum_word};
ghost use Rattle.sql_grammar.specs.Reading.{after, repeated};
ghost use Rattle.sql_grammar.specs.Reads.{args_at, call_at, case_at, cast_at, column_at, else_at, filter_at, kept_at, named_at, opened_at, over_at, partition_at, primary_at, product_at, product_tail_at, sign_at, sum_at, sum_tail_at, when_at, whens_at, window_at};
ghost use Rattle.sql_reading.specs.Gives.{Gives};

use crate::operand_nodes::{product_node, sign_node, sum_node};
use ct_value::{Boxed, Text};
use sql_grammar::PrimaryWord;
use sql_reading::{
    Again, Nested, Read, Rule, Stop, after_keyword, after_symbol, beside, flagged, keyword, led,
    name_word, order_by, primary_word, product_word, repeat, sign_word, sum_word, symbol, trees,
    type_name,
};
use sql_syntax::{
    Args, Over, ProductTail, ProductTails, ProductWord, Query, SumTail, SumTails, SumWord, Tree,
    TreeWhen, TreeWhens, Trees,
};
use sql_tokens::{Keyword, Symbol, Token};
use std::alloc::Global;

// Reads an expression, and puts it on the heap.
fn boxed_expression<'t, N: Nested<'t>>(
    alloc: Global,
    nested: &N,
    tokens: &'t [Token],
) -> Read<'t, Boxed<Tree>>
    requires { N.sound nested.now }
    ensures { Gives view result ((N.readers nested.now).expr tokens.now) }
{
    let (value, rest) = nested.expr(alloc, tokens)?;
    let value = Boxed::new(alloc, value)?;
    Ok((value, rest))
}

/// Reads a query, and puts it on the heap.
pub fn boxed_query<'t, N: Nested<'t>>(
    alloc: Global,
    nested: &N,
    tokens: &'t [Token],
) -> Read<'t, Boxed<Query>>
    requires { N.sound nested.now }
    ensures { Gives query_view result ((N.readers nested.now).query tokens.now) }
{
    let (query, rest) = nested.query(alloc, tokens)?;
    let query = Boxed::new(alloc, query)?;
    Ok((query, rest))
}

#[tactic(auto, using(sql_syntax::proofs::laws::Views::args_empty, sql_syntax::proofs::laws::Views::args_star, sql_syntax::proofs::laws::Views::args_list), unfolding(sql_grammar::specs::Reads::args_at))]
fn args<'t, N: Nested<'t>>(alloc: Global, nested: &N, tokens: &'t [Token]) -> Read<'t, Args>
    requires { N.sound nested.now }
    ensures { Gives args_view result (args_at (N.readers nested.now) tokens.now) }
{
    if let Some(rest) = after_symbol(tokens, Symbol::Times) {
        return Ok((Args::Star, rest));
    }
    if after_symbol(tokens, Symbol::Close).is_some() {
        return Ok((Args::Empty, tokens));
    }
    let (distinct, rest) = flagged(tokens, Keyword::Distinct);
    let (values, rest) = trees(alloc, nested, rest)?;
    Ok((Args::List { distinct, values }, rest))
}

#[tactic(auto, unfolding(sql_grammar::specs::Reads::kept_at))]
fn kept<'t, N: Nested<'t>>(alloc: Global, nested: &N, tokens: &'t [Token]) -> Read<'t, Boxed<Tree>>
    requires { N.sound nested.now }
    ensures { Gives view result (kept_at (N.readers nested.now) tokens.now) }
{
    let rest = symbol(tokens, Symbol::Open)?;
    let rest = keyword(rest, Keyword::Where)?;
    let (cond, rest) = boxed_expression(alloc, nested, rest)?;
    let rest = symbol(rest, Symbol::Close)?;
    Ok((cond, rest))
}

#[tactic(auto, unfolding(sql_grammar::specs::Reads::filter_at))]
fn filter<'t, N: Nested<'t>>(
    alloc: Global,
    nested: &N,
    tokens: &'t [Token],
) -> Read<'t, Option<Boxed<Tree>>>
    requires { N.sound nested.now }
    ensures { Gives (option_map view) result (filter_at (N.readers nested.now) tokens.now) }
{
    match after_keyword(tokens, Keyword::Filter) {
        Some(rest) => {
            let (cond, rest) = kept(alloc, nested, rest)?;
            Ok((Some(cond), rest))
        }
        None => Ok((None, tokens)),
    }
}

#[tactic(auto, unfolding(sql_grammar::specs::Reads::partition_at))]
fn partition<'t, N: Nested<'t>>(alloc: Global, nested: &N, tokens: &'t [Token]) -> Read<'t, Trees>
    requires { N.sound nested.now }
    ensures { Gives trees_view result (partition_at (N.readers nested.now) tokens.now) }
{
    match after_keyword(tokens, Keyword::Partition) {
        Some(rest) => {
            let rest = keyword(rest, Keyword::By)?;
            trees(alloc, nested, rest)
        }
        None => Ok((Trees::new(alloc), tokens)),
    }
}

#[tactic(auto, using(sql_syntax::proofs::laws::Views::over_made), unfolding(sql_grammar::specs::Reads::window_at))]
fn window<'t, N: Nested<'t>>(alloc: Global, nested: &N, tokens: &'t [Token]) -> Read<'t, Over>
    requires { N.sound nested.now }
    ensures { Gives over_view result (window_at (N.readers nested.now) tokens.now) }
{
    let (partition, rest) = partition(alloc, nested, tokens)?;
    let rest = keyword(rest, Keyword::Order)?;
    let (order, rest) = order_by(alloc, nested, rest)?;
    Ok((Over { partition, order }, rest))
}

#[tactic(auto, unfolding(sql_grammar::specs::Reads::over_at))]
fn over_part<'t, N: Nested<'t>>(
    alloc: Global,
    nested: &N,
    tokens: &'t [Token],
) -> Read<'t, Option<Over>>
    requires { N.sound nested.now }
    ensures { Gives (option_map over_view) result (over_at (N.readers nested.now) tokens.now) }
{
    match after_keyword(tokens, Keyword::Over) {
        Some(rest) => {
            let rest = symbol(rest, Symbol::Open)?;
            let (over, rest) = window(alloc, nested, rest)?;
            let rest = symbol(rest, Symbol::Close)?;
            Ok((Some(over), rest))
        }
        None => Ok((None, tokens)),
    }
}

#[tactic(auto, using(sql_syntax::proofs::laws::Views::tree_call), unfolding(sql_grammar::specs::Reads::call_at))]
fn call<'t, N: Nested<'t>>(
    alloc: Global,
    nested: &N,
    name: Text,
    tokens: &'t [Token],
) -> Read<'t, Tree>
    requires { N.sound nested.now }
    ensures { Gives view result (call_at (N.readers nested.now) name tokens.now) }
{
    let (args, rest) = args(alloc, nested, tokens)?;
    let rest = symbol(rest, Symbol::Close)?;
    let (filter, rest) = filter(alloc, nested, rest)?;
    let (over, rest) = over_part(alloc, nested, rest)?;
    Ok((
        Tree::Call {
            name,
            args,
            filter,
            over,
        },
        rest,
    ))
}

// The column behind a name and its point.
#[tactic(auto, using(sql_syntax::proofs::laws::Views::tree_name), unfolding(sql_grammar::specs::Reads::column_at))]
fn column(of: Text, tokens: &[Token]) -> Read<'_, Tree>
    ensures { Gives view result (column_at of tokens.now) }
{
    match name_word(tokens)? {
        Some((name, quoted, rest)) => Ok((
            Tree::Name {
                of: Some(of),
                name,
                quoted,
            },
            rest,
        )),
        None => Err(Stop::Refused),
    }
}

#[tactic(auto, using(sql_syntax::proofs::laws::Views::tree_name), unfolding(sql_grammar::specs::Reads::named_at))]
fn named<'t, N: Nested<'t>>(
    alloc: Global,
    nested: &N,
    name: Text,
    quoted: bool,
    tokens: &'t [Token],
) -> Read<'t, Tree>
    requires { N.sound nested.now }
    ensures { Gives view result (named_at (N.readers nested.now) name quoted tokens.now) }
{
    if let Some(rest) = after_symbol(tokens, Symbol::Dot) {
        return column(name, rest);
    }
    match after_symbol(tokens, Symbol::Open) {
        Some(rest) => call(alloc, nested, name, rest),
        None => Ok((
            Tree::Name {
                of: None,
                name,
                quoted,
            },
            tokens,
        )),
    }
}

#[tactic(auto, using(sql_syntax::proofs::laws::Views::tree_cast), unfolding(sql_grammar::specs::Reads::cast_at, sql_grammar::specs::Reads::cast_inner_at))]
fn cast<'t, N: Nested<'t>>(alloc: Global, nested: &N, tokens: &'t [Token]) -> Read<'t, Tree>
    requires { N.sound nested.now }
    ensures { Gives view result (cast_at (N.readers nested.now) tokens.now) }
{
    let rest = symbol(tokens, Symbol::Open)?;
    let (value, rest) = boxed_expression(alloc, nested, rest)?;
    let rest = keyword(rest, Keyword::As)?;
    let (ty, rest) = type_name(alloc, rest)?;
    let rest = symbol(rest, Symbol::Close)?;
    Ok((Tree::Cast { value, ty }, rest))
}

#[tactic(auto, using(sql_syntax::proofs::laws::Views::tree_sub, sql_syntax::proofs::laws::Views::tree_paren), unfolding(sql_grammar::specs::Reads::opened_at, sql_grammar::specs::Reads::sub_at, sql_grammar::specs::Reads::paren_at))]
fn opened<'t, N: Nested<'t>>(alloc: Global, nested: &N, tokens: &'t [Token]) -> Read<'t, Tree>
    requires { N.sound nested.now }
    ensures { Gives view result (opened_at (N.readers nested.now) tokens.now) }
{
    match after_keyword(tokens, Keyword::Select) {
        Some(_) => {
            let (query, rest) = boxed_query(alloc, nested, tokens)?;
            let rest = symbol(rest, Symbol::Close)?;
            Ok((Tree::Sub(query), rest))
        }
        None => {
            let (value, rest) = boxed_expression(alloc, nested, tokens)?;
            let rest = symbol(rest, Symbol::Close)?;
            Ok((Tree::Paren(value), rest))
        }
    }
}

// A result behind THEN.
fn then_result<'t, N: Nested<'t>>(alloc: Global, nested: &N, tokens: &'t [Token]) -> Read<'t, Tree>
    requires { N.sound nested.now }
    ensures { Gives view result (after THEN (N.readers nested.now).expr tokens.now) }
{
    let rest = keyword(tokens, Keyword::Then)?;
    nested.expr(alloc, rest)
}

#[tactic(auto, using(sql_syntax::proofs::laws::Views::tree_when), unfolding(sql_grammar::specs::Reads::when_at))]
fn branch<'t, N: Nested<'t>>(alloc: Global, nested: &N, tokens: &'t [Token]) -> Read<'t, TreeWhen>
    requires { N.sound nested.now }
    ensures { Gives when_view result (when_at (N.readers nested.now) tokens.now) }
{
    let (cond, rest) = nested.expr(alloc, tokens)?;
    let (cond, (result, rest)) = beside(cond, then_result(alloc, nested, rest))?;
    Ok((TreeWhen { cond, result }, rest))
}

fn first_branch<'t, N: Nested<'t>>(
    alloc: Global,
    nested: &N,
    tokens: &'t [Token],
) -> Read<'t, TreeWhen>
    requires { N.sound nested.now }
    ensures { Gives when_view result (after WHEN (when_at (N.readers nested.now)) tokens.now) }
{
    let rest = keyword(tokens, Keyword::When)?;
    branch(alloc, nested, rest)
}

// A branch.
#[derive(Drop)]
struct BranchRule<'n, N> {
    nested: &'n N,
}

impl<'t, N: Nested<'t>> Rule<'t> for BranchRule<'_, N> {
    type Item = TreeWhen;

    ghost Seen = { t.TreeWhen };

    ghost seen = { when_view };

    ghost reads = { λ r. when_at (N.readers r.nested.now) };

    ghost sound = { λ r. N.sound r.nested.now };

    fn read(&self, alloc: Global, tokens: &'t [Token]) -> Read<'t, TreeWhen> {
        branch(alloc, self.nested, tokens)
    }
}

#[tactic(auto, using(sql_grammar::proofs::laws::Steps::series_is), unfolding(sql_grammar::specs::Reads::whens_at))]
fn branches<'t, N: Nested<'t>>(
    alloc: Global,
    nested: &N,
    tokens: &'t [Token],
) -> Read<'t, TreeWhens>
    requires { N.sound nested.now }
    ensures { Gives whens_view result (whens_at (N.readers nested.now) tokens.now) }
{
    let (first, behind) = first_branch(alloc, nested, tokens)?;
    led(alloc, Keyword::When, &BranchRule { nested }, first, behind)
}

#[tactic(auto, unfolding(sql_grammar::specs::Reads::else_at))]
fn otherwise<'t, N: Nested<'t>>(
    alloc: Global,
    nested: &N,
    tokens: &'t [Token],
) -> Read<'t, Option<Boxed<Tree>>>
    requires { N.sound nested.now }
    ensures { Gives (option_map view) result (else_at (N.readers nested.now) tokens.now) }
{
    match after_keyword(tokens, Keyword::Else) {
        Some(rest) => {
            let (value, rest) = boxed_expression(alloc, nested, rest)?;
            Ok((Some(value), rest))
        }
        None => Ok((None, tokens)),
    }
}

#[tactic(auto, using(sql_syntax::proofs::laws::Views::tree_case), unfolding(sql_grammar::specs::Reads::case_at))]
fn case<'t, N: Nested<'t>>(alloc: Global, nested: &N, tokens: &'t [Token]) -> Read<'t, Tree>
    requires { N.sound nested.now }
    ensures { Gives view result (case_at (N.readers nested.now) tokens.now) }
{
    let (whens, rest) = branches(alloc, nested, tokens)?;
    let (otherwise, rest) = otherwise(alloc, nested, rest)?;
    let rest = keyword(rest, Keyword::End)?;
    Ok((Tree::Case { whens, otherwise }, rest))
}

#[tactic(auto, using(sql_syntax::proofs::laws::Views::tree_number, sql_syntax::proofs::laws::Views::tree_str, sql_syntax::proofs::laws::Views::tree_bool, sql_syntax::proofs::laws::Views::tree_null), unfolding(sql_grammar::specs::Reads::primary_at, sql_grammar::specs::Reads::begun_at))]
fn primary<'t, N: Nested<'t>>(alloc: Global, nested: &N, tokens: &'t [Token]) -> Read<'t, Tree>
    requires { N.sound nested.now }
    ensures { Gives view result (primary_at (N.readers nested.now) tokens.now) }
{
    let (word, rest) = primary_word(tokens)?;
    match word {
        PrimaryWord::Number(text) => Ok((Tree::Number(text), rest)),
        PrimaryWord::Str(text) => Ok((Tree::Str(text), rest)),
        PrimaryWord::Truth(truth) => Ok((Tree::Bool(truth), rest)),
        PrimaryWord::Null => Ok((Tree::Null, rest)),
        PrimaryWord::Name(name, quoted) => named(alloc, nested, name, quoted, rest),
        PrimaryWord::Cast => cast(alloc, nested, rest),
        PrimaryWord::Bracket => opened(alloc, nested, rest),
        PrimaryWord::Case => case(alloc, nested, rest),
    }
}

#[tactic(auto, unfolding(sql_grammar::specs::Reads::sign_at))]
fn sign<'t, N: Nested<'t>>(alloc: Global, nested: &N, tokens: &'t [Token]) -> Read<'t, Tree>
    requires { N.sound nested.now }
    ensures { Gives view result (sign_at (N.readers nested.now) tokens.now) }
{
    let (minus, rest) = sign_word(tokens);
    let (value, rest) = primary(alloc, nested, rest)?;
    let node = sign_node(alloc, minus, value)?;
    Ok((node, rest))
}

#[tactic(auto, using(sql_syntax::proofs::laws::Views::product_tail), unfolding(sql_grammar::specs::Reads::product_tail_at))]
fn product_tail<'t, N: Nested<'t>>(
    alloc: Global,
    nested: &N,
    word: ProductWord,
    tokens: &'t [Token],
) -> Read<'t, ProductTail>
    requires { N.sound nested.now }
    ensures { Gives product_view result (product_tail_at (N.readers nested.now) word tokens.now) }
{
    let (value, rest) = sign(alloc, nested, tokens)?;
    Ok((ProductTail { word, value }, rest))
}

// A word of a product and a factor.
#[derive(Drop)]
struct Factors<'n, N> {
    nested: &'n N,
}

impl<'t, N: Nested<'t>> Again<'t> for Factors<'_, N> {
    type Word = ProductWord;

    type Item = ProductTail;

    ghost Seen = { t.ProductTail };

    ghost seen = { product_view };

    ghost word_of = { λ r. product_word };

    ghost item_of = { λ r w. product_tail_at (N.readers r.nested.now) w };

    ghost sound = { λ r. N.sound r.nested.now };

    fn word(&self, tokens: &'t [Token]) -> Option<(ProductWord, &'t [Token])> {
        product_word(tokens)
    }

    fn item(&self, alloc: Global, word: ProductWord, tokens: &'t [Token]) -> Read<'t, ProductTail> {
        product_tail(alloc, self.nested, word, tokens)
    }
}

#[tactic(auto, using(sql_grammar::proofs::laws::Steps::behind_nothing))]
fn product_tails<'t, N: Nested<'t>>(
    alloc: Global,
    nested: &N,
    tokens: &'t [Token],
) -> Read<'t, ProductTails>
    requires { N.sound nested.now }
    ensures { Gives product_tails_view result (repeated product_word (product_tail_at (N.readers nested.now)) tokens.now) }
{
    repeat(alloc, &Factors { nested }, ProductTails::new(alloc), tokens)
}

#[tactic(auto, unfolding(sql_grammar::specs::Reads::product_at))]
fn product<'t, N: Nested<'t>>(alloc: Global, nested: &N, tokens: &'t [Token]) -> Read<'t, Tree>
    requires { N.sound nested.now }
    ensures { Gives view result (product_at (N.readers nested.now) tokens.now) }
{
    let (first, rest) = sign(alloc, nested, tokens)?;
    let (first, (tails, rest)) = beside(first, product_tails(alloc, nested, rest))?;
    let node = product_node(alloc, first, tails)?;
    Ok((node, rest))
}

#[tactic(auto, using(sql_syntax::proofs::laws::Views::sum_tail), unfolding(sql_grammar::specs::Reads::sum_tail_at))]
fn sum_tail<'t, N: Nested<'t>>(
    alloc: Global,
    nested: &N,
    word: SumWord,
    tokens: &'t [Token],
) -> Read<'t, SumTail>
    requires { N.sound nested.now }
    ensures { Gives sum_view result (sum_tail_at (N.readers nested.now) word tokens.now) }
{
    let (value, rest) = product(alloc, nested, tokens)?;
    Ok((SumTail { word, value }, rest))
}

// A word of a sum and a term.
#[derive(Drop)]
struct Terms<'n, N> {
    nested: &'n N,
}

impl<'t, N: Nested<'t>> Again<'t> for Terms<'_, N> {
    type Word = SumWord;

    type Item = SumTail;

    ghost Seen = { t.SumTail };

    ghost seen = { sum_view };

    ghost word_of = { λ r. sum_word };

    ghost item_of = { λ r w. sum_tail_at (N.readers r.nested.now) w };

    ghost sound = { λ r. N.sound r.nested.now };

    fn word(&self, tokens: &'t [Token]) -> Option<(SumWord, &'t [Token])> {
        sum_word(tokens)
    }

    fn item(&self, alloc: Global, word: SumWord, tokens: &'t [Token]) -> Read<'t, SumTail> {
        sum_tail(alloc, self.nested, word, tokens)
    }
}

#[tactic(auto, using(sql_grammar::proofs::laws::Steps::behind_nothing))]
fn sum_tails<'t, N: Nested<'t>>(
    alloc: Global,
    nested: &N,
    tokens: &'t [Token],
) -> Read<'t, SumTails>
    requires { N.sound nested.now }
    ensures { Gives sum_tails_view result (repeated sum_word (sum_tail_at (N.readers nested.now)) tokens.now) }
{
    repeat(alloc, &Terms { nested }, SumTails::new(alloc), tokens)
}

/// Reads a sum: products with plus, minus or || between them.
#[tactic(auto, unfolding(sql_grammar::specs::Reads::sum_at))]
pub fn sum<'t, N: Nested<'t>>(alloc: Global, nested: &N, tokens: &'t [Token]) -> Read<'t, Tree>
    requires { N.sound nested.now }
    ensures { Gives view result (sum_at (N.readers nested.now) tokens.now) }
{
    let (first, rest) = product(alloc, nested, tokens)?;
    let (first, (tails, rest)) = beside(first, sum_tails(alloc, nested, rest))?;
    let node = sum_node(alloc, first, tails)?;
    Ok((node, rest))
}
