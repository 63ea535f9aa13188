//! Expressions and queries within so many others.
ghost use Rattle.sql_syntax.specs.View.{view, query_view};
ghost use Rattle.sql_grammar.specs.Reads.{readers};
ghost use Rattle.sql_reading.specs.Gives.{Gives};

use crate::expression;
use sql_reading::{Nested, Read, Stop};
use sql_syntax::{Query, Tree};
use sql_tokens::Token;
use std::alloc::Global;

// Two readers of what stands within so many others.
#[derive(Drop)]
struct Within<E, Q> {
    depth: usize,
    expr: E,
    query: Q,
}

impl<
    't,
    E: Fn(Global, &'t [Token]) -> Read<'t, Tree>,
    Q: Fn(Global, &'t [Token]) -> Read<'t, Query>,
> Nested<'t> for Within<E, Q> {
    ghost readers = { λ within. readers within.depth };

    ghost sound = { λ within.
        ((alloc : _) (tokens : _) → E.pre within.expr alloc tokens)
        × ((alloc : _) (tokens : _) (result : _) → E.post within.expr alloc tokens result → Gives view result ((readers within.depth).expr tokens.now))
        × ((alloc : _) (tokens : _) → Q.pre within.query alloc tokens)
        × ((alloc : _) (tokens : _) (result : _) → Q.post within.query alloc tokens result → Gives query_view result ((readers within.depth).query tokens.now)) };

    fn expr(&self, alloc: Global, tokens: &'t [Token]) -> Read<'t, Tree> {
        (self.expr)(alloc, tokens)
    }

    fn query(&self, alloc: Global, tokens: &'t [Token]) -> Read<'t, Query> {
        (self.query)(alloc, tokens)
    }
}

// An expression within so many others.
#[cycle(depth)]
#[tactic(auto, using(sql_grammar::proofs::laws::Depths::expr_none, sql_grammar::proofs::laws::Depths::expr_below))]
fn expr(alloc: Global, depth: usize, tokens: &[Token]) -> Read<'_, Tree>
    ensures { Gives view result ((readers depth).expr tokens.now) }
{
    if depth == 0 {
        return Err(Stop::Refused);
    }
    let below = depth - 1;
    let within = Within {
        depth: below,
        expr: |alloc, tokens|
            ensures { Gives view result ((readers below).expr tokens.now) }
        { expr(alloc, below, tokens) },
        query: |alloc, tokens|
            ensures { Gives query_view result ((readers below).query tokens.now) }
        { query(alloc, below, tokens) },
    };
    expression(alloc, &within, tokens)
}

/// A query within so many others.
#[cycle(depth)]
#[tactic(auto, using(sql_grammar::proofs::laws::Depths::query_none, sql_grammar::proofs::laws::Depths::query_below))]
pub fn query(alloc: Global, depth: usize, tokens: &[Token]) -> Read<'_, Query>
    ensures { Gives query_view result ((readers depth).query tokens.now) }
{
    if depth == 0 {
        return Err(Stop::Refused);
    }
    let below = depth - 1;
    let within = Within {
        depth: below,
        expr: |alloc, tokens|
            ensures { Gives view result ((readers below).expr tokens.now) }
        { expr(alloc, below, tokens) },
        query: |alloc, tokens|
            ensures { Gives query_view result ((readers below).query tokens.now) }
        { query(alloc, below, tokens) },
    };
    sql_queries::query(alloc, &within, tokens)
}
