//! What may stand within brackets, as the rules see it.
ghost use Rattle.sql_syntax.specs.View.{view, query_view};
ghost use Rattle.sql_grammar.specs.Reads.{Readers};
ghost use Rattle.sql_reading.specs.Gives.{Gives};

use crate::Read;
use sql_syntax::{Query, Tree};
use sql_tokens::Token;
use std::alloc::Global;

/// How the expressions and queries within others are read.
///
/// The rules are written over this trait, so that none of them calls itself.
pub trait Nested<'t> {
    // the definitions that it reads by
    ghost readers: { Self → Readers };

    // it does so
    ghost sound: { Self → Type 0 };

    /// Reads an expression, and answers what follows it.
    fn expr(&self, alloc: Global, tokens: &'t [Token]) -> Read<'t, Tree>
        requires { sound self.now }
        ensures { Gives view result ((readers self.now).expr tokens.now) };

    /// Reads a query, and answers what follows it.
    fn query(&self, alloc: Global, tokens: &'t [Token]) -> Read<'t, Query>
        requires { sound self.now }
        ensures { Gives query_view result ((readers self.now).query tokens.now) };
}
