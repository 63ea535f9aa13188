//! Lists: what comes again and again, each time behind a word.
ghost use Rattle.std.specs.Prelude.{◌≡◌, ◌∷◌, [], Option, map, option_map};
ghost use Rattle.sql_tokens.specs.declared.token.Token.{Token as Seen_token};
ghost use Rattle.sql_tokens.specs.declared.token.Token.TheVariants as token;
ghost use Rattle.sql_grammar.specs.Words.{only, COMMA};
ghost use Rattle.sql_grammar.specs.Reading.{Reader, behind, listed, repeated, word_at};
ghost use Rattle.sql_reading.specs.Gives.{Gives};

use crate::{Read, after_keyword, after_symbol};
use ct_value::List;
use sql_tokens::{Keyword, Symbol, Token};
use std::alloc::Global;

/// A rule of the grammar.
pub trait Rule<'t> {
    type Item: Drop;

    // what definitions see of what it reads
    ghost Seen: { Type 0 };

    ghost seen: { Self.Item → Self.Seen };

    // the definition that it reads by
    ghost reads: { Self → Reader Self.Seen };

    // it does so
    ghost sound: { Self → Type 0 };

    /// Reads what stands at the head of tokens, and answers what follows it.
    fn read(&self, alloc: Global, tokens: &'t [Token]) -> Read<'t, Self::Item>
        requires { Self.sound self.now }
        ensures { Gives Self.seen result (Self.reads self.now tokens.now) };
}

// A comma and what a rule reads.
#[derive(Drop)]
struct Commas<'r, R> {
    rule: &'r R,
}

impl<'t, R: Rule<'t>> Again<'t> for Commas<'_, R> {
    type Word = ();

    type Item = R::Item;

    ghost Seen = { R.Seen };

    ghost seen = { R.seen };

    ghost word_of = { λ r. only COMMA };

    ghost item_of = { λ r w. R.reads r.rule.now };

    ghost sound = { λ r. R.sound r.rule.now };

    fn word(&self, tokens: &'t [Token]) -> Option<((), &'t [Token])> {
        let rest = after_symbol(tokens, Symbol::Comma)?;
        Some(((), rest))
    }

    fn item(&self, alloc: Global, _word: (), tokens: &'t [Token]) -> Read<'t, R::Item> {
        self.rule.read(alloc, tokens)
    }
}

/// What a rule reads once or more with commas between, and what follows it.
#[tactic(auto, using(sql_grammar::proofs::laws::Steps::series_is))]
pub fn listed<'t, R: Rule<'t>>(
    alloc: Global,
    rule: &R,
    tokens: &'t [Token],
) -> Read<'t, List<R::Item>>
    requires { R.sound rule.now }
    ensures { Gives (map R.seen) result (listed (R.reads rule.now) tokens.now) }
{
    let (first, behind) = rule.read(alloc, tokens)?;
    series(alloc, &Commas { rule }, first, behind)
}

// A keyword and what a rule reads.
#[derive(Drop)]
struct BehindKeyword<'r, R> {
    keyword: Keyword,
    rule: &'r R,
}

impl<'t, R: Rule<'t>> Again<'t> for BehindKeyword<'_, R> {
    type Word = ();

    type Item = R::Item;

    ghost Seen = { R.Seen };

    ghost seen = { R.seen };

    ghost word_of = { λ r. only (token.Keyword r.keyword) };

    ghost item_of = { λ r w. R.reads r.rule.now };

    ghost sound = { λ r. R.sound r.rule.now };

    fn word(&self, tokens: &'t [Token]) -> Option<((), &'t [Token])> {
        let rest = after_keyword(tokens, self.keyword)?;
        Some(((), rest))
    }

    fn item(&self, alloc: Global, _word: (), tokens: &'t [Token]) -> Read<'t, R::Item> {
        self.rule.read(alloc, tokens)
    }
}

/// The first item with all that a rule reads, each time behind the keyword, and what follows it.
pub fn led<'t, R: Rule<'t>>(
    alloc: Global,
    keyword: Keyword,
    rule: &R,
    first: R::Item,
    tokens: &'t [Token],
) -> Read<'t, List<R::Item>>
    requires { R.sound rule.now }
    ensures { Gives (map R.seen) result (behind (R.seen first ∷ []) (repeated (only (token.Keyword keyword)) (λ w. R.reads rule.now) tokens.now)) }
{
    series(alloc, &BehindKeyword { keyword, rule }, first, tokens)
}

/// A word, and the rule of what stands behind it.
pub trait Again<'t> {
    type Word: Drop;

    type Item: Drop;

    // what definitions see of an item
    ghost Seen: { Type 0 };

    ghost seen: { Self.Item → Self.Seen };

    // the definitions that it reads by
    ghost word_of: { Self → Seen_token → Option Self.Word };

    ghost item_of: { Self → Self.Word → Reader Self.Seen };

    // it does so
    ghost sound: { Self → Type 0 };

    /// The word, if it stands there, and what follows it.
    fn word(&self, tokens: &'t [Token]) -> Option<(Self::Word, &'t [Token])>
        requires { Self.sound self.now }
        ensures { option_map (λ x. (x.0, x.1.now)) result ≡ word_at (Self.word_of self.now) tokens.now };

    /// What stands behind the word, and what follows it.
    fn item(&self, alloc: Global, word: Self::Word, tokens: &'t [Token]) -> Read<'t, Self::Item>
        requires { Self.sound self.now }
        ensures { Gives Self.seen result (Self.item_of self.now word tokens.now) };
}

// The first item with all items behind it, and what follows them.
fn series<'t, A: Again<'t>>(
    alloc: Global,
    rule: &A,
    first: A::Item,
    tokens: &'t [Token],
) -> Read<'t, List<A::Item>>
    requires { A.sound rule.now }
    ensures { Gives (map A.seen) result (behind (A.seen first ∷ []) (repeated (A.word_of rule.now) (A.item_of rule.now) tokens.now)) }
{
    let mut list = List::new(alloc);
    list.push(first)?;
    repeat(alloc, rule, list, tokens)
}

/// The list with all items behind it, and what follows them.
pub fn repeat<'t, A: Again<'t>>(
    alloc: Global,
    rule: &A,
    list: List<A::Item>,
    tokens: &'t [Token],
) -> Read<'t, List<A::Item>>
    requires { A.sound rule.now }
    ensures { Gives (map A.seen) result (behind (map A.seen list) (repeated (A.word_of rule.now) (A.item_of rule.now) tokens.now)) }
{
    let mut list = list;
    let mut rest = tokens;
    let mut left = rest.len();
    'items: while left > 0 {
        left -= 1;
        let Some((word, after)) = rule.word(rest) else {
            return Ok((list, rest));
        };
        let (item, after) = rule.item(alloc, word, after)?;
        list.push(item)?;
        rest = after;
    }
    Ok((list, rest))
}
