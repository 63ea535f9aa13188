//! Cuts tokens into statements, and counts what is open in one.
ghost use Rattle.std.specs.Prelude.{◌≡◌, ◌≤◌, option_map};
ghost use Rattle.sql_tokens.specs.Depth.{open_after, too_deep};
ghost use Rattle.sql_tokens.specs.Statements.{first_statement};

use crate::token::{Keyword, Symbol, Token};

/// The tokens before the first `;` and those behind it, and `None` where there is no `;`.
pub fn split_statement(tokens: &[Token]) -> Option<(&[Token], &[Token])>
    ensures { option_map (λ r. (r.0.now, r.1.now)) result ≡ first_statement tokens.now }
{
    for i in 0..tokens.len() {
        if let Token::Symbol(Symbol::Semicolon) = tokens[i] {
            return Some((&tokens[..i], &tokens[i + 1..]));
        }
    }
    None
}

// How many parentheses and CASEs may be open.
const MOST_OPEN: u32 = 32;

/// Whether at some token more than 32 parentheses and CASEs are open.
pub fn is_too_deep(tokens: &[Token]) -> bool
    ensures { result ≡ too_deep tokens.now }
{
    let mut depth = 0;
    for token in tokens {
        depth = open_after(depth, token);
        if depth > MOST_OPEN {
            return true;
        }
    }
    false
}

fn open_after(depth: u32, token: &Token) -> u32
    requires { depth ≤ 32 }
    ensures { result ≡ open_after depth token.now }
{
    match token {
        Token::Symbol(Symbol::Open) | Token::Keyword(Keyword::Case) => depth + 1,
        Token::Symbol(Symbol::Close) | Token::Keyword(Keyword::End) => depth.saturating_sub(1),
        _ => depth,
    }
}
