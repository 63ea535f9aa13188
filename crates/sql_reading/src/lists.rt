//! Lists of expressions, and of what a query is ordered by.
ghost use Rattle.std.specs.Prelude.{◌≡◌};
ghost use Rattle.sql_syntax.specs.Tree as t;
ghost use Rattle.sql_syntax.specs.View.{view, sort_view, sorts_view, trees_view};
ghost use Rattle.sql_reading.specs.Gives.{Gives};
ghost use Rattle.sql_grammar.specs.Nodes.{is_desc};
ghost use Rattle.sql_grammar.specs.Reads.{order_by_at, sort_at, sorts_at, trees_at};

use crate::again::{Rule, listed};
use crate::nested::Nested;
use crate::{Read, direction_word, keyword};
use sql_syntax::{Sort, SortList, Tree, Trees};
use sql_tokens::{Keyword, Token};
use std::alloc::Global;

// An expression.
#[derive(Drop)]
struct ExpressionRule<'n, N> {
    nested: &'n N,
}

impl<'t, N: Nested<'t>> Rule<'t> for ExpressionRule<'_, N> {
    type Item = Tree;

    ghost Seen = { t.Tree };

    ghost seen = { view };

    ghost reads = { λ r. (N.readers r.nested.now).expr };

    ghost sound = { λ r. N.sound r.nested.now };

    fn read(&self, alloc: Global, tokens: &'t [Token]) -> Read<'t, Tree> {
        self.nested.expr(alloc, tokens)
    }
}

/// One expression or more with commas between them, and what follows them.
#[tactic(auto, unfolding(sql_grammar::specs::Reads::trees_at))]
pub fn trees<'t, N: Nested<'t>>(alloc: Global, nested: &N, tokens: &'t [Token]) -> Read<'t, Trees>
    requires { N.sound nested.now }
    ensures { Gives trees_view result (trees_at (N.readers nested.now) tokens.now) }
{
    listed(alloc, &ExpressionRule { nested }, tokens)
}

#[tactic(auto, using(sql_syntax::proofs::laws::Views::sort), unfolding(sql_grammar::specs::Reads::sort_at))]
fn sort_item<'t, N: Nested<'t>>(alloc: Global, nested: &N, tokens: &'t [Token]) -> Read<'t, Sort>
    requires { N.sound nested.now }
    ensures { Gives sort_view result (sort_at (N.readers nested.now) tokens.now) }
{
    let (value, rest) = nested.expr(alloc, tokens)?;
    let (direction, rest) = direction_word(rest);
    let desc = is_desc(direction);
    Ok((Sort { value, desc }, rest))
}

// A sort item.
#[derive(Drop)]
struct SortRule<'n, N> {
    nested: &'n N,
}

impl<'t, N: Nested<'t>> Rule<'t> for SortRule<'_, N> {
    type Item = Sort;

    ghost Seen = { t.Sort };

    ghost seen = { sort_view };

    ghost reads = { λ r. sort_at (N.readers r.nested.now) };

    ghost sound = { λ r. N.sound r.nested.now };

    fn read(&self, alloc: Global, tokens: &'t [Token]) -> Read<'t, Sort> {
        sort_item(alloc, self.nested, tokens)
    }
}

#[tactic(auto, unfolding(sql_grammar::specs::Reads::sorts_at))]
fn sorts<'t, N: Nested<'t>>(alloc: Global, nested: &N, tokens: &'t [Token]) -> Read<'t, SortList>
    requires { N.sound nested.now }
    ensures { Gives sorts_view result (sorts_at (N.readers nested.now) tokens.now) }
{
    listed(alloc, &SortRule { nested }, tokens)
}

/// What follows ORDER: BY and one sort item or more.
#[tactic(auto, unfolding(sql_grammar::specs::Reads::order_by_at))]
pub fn order_by<'t, N: Nested<'t>>(
    alloc: Global,
    nested: &N,
    tokens: &'t [Token],
) -> Read<'t, SortList>
    requires { N.sound nested.now }
    ensures { Gives sorts_view result (order_by_at (N.readers nested.now) tokens.now) }
{
    let rest = keyword(tokens, Keyword::By)?;
    sorts(alloc, nested, rest)
}

// Whether a sort item is descending: ascending where no word says otherwise.
fn is_desc(direction: Option<bool>) -> bool
    ensures { result ≡ is_desc direction }
{
    match direction {
        Some(desc) => desc,
        None => false,
    }
}
