//! The types that names mean.
ghost use Rattle.std.specs.Prelude.{◌≡◌};
ghost use Rattle.std.specs.Str.{str_eq_ignore_ascii_case};
ghost use Rattle.ct_catalog.specs.Types.{decimal, decimal_of, is_decimal, plain_of, type_of};

use crate::numbers::number_up_to;
use ct_value::{Text, Ty};
use sql_syntax::TypeName;

const MOST_DIGITS: u32 = 38;

/// The type of a name with its numbers, and `None` where there is none.
pub fn type_of(name: &TypeName) -> Option<Ty>
    ensures { result ≡ type_of name.now }
{
    if is_decimal(&name.name) {
        return decimal_of(name.numbers.as_slice());
    }
    if !name.numbers.is_empty() {
        return None;
    }
    plain_of(&name.name)
}

fn decimal_of(numbers: &[Text]) -> Option<Ty>
    ensures { result ≡ decimal_of numbers.now }
{
    match numbers {
        [] => Some(Ty::Decimal { p: 10, s: 0 }),
        [p] => decimal(number_up_to(MOST_DIGITS, p.as_slice()), Some(0)),
        [p, s] => decimal(
            number_up_to(MOST_DIGITS, p.as_slice()),
            number_up_to(MOST_DIGITS, s.as_slice()),
        ),
        _ => None,
    }
}

fn decimal(p: Option<u32>, s: Option<u32>) -> Option<Ty>
    ensures { result ≡ decimal p s }
{
    match (p, s) {
        (Some(p), Some(s)) if 1 <= p && s <= p => Some(Ty::Decimal { p, s }),
        _ => None,
    }
}

fn is_decimal(name: &Text) -> bool
    ensures { result ≡ is_decimal name.now }
{
    is_word(name, b"DECIMAL") || is_word(name, b"DEC") || is_word(name, b"NUMERIC")
}

fn plain_of(name: &Text) -> Option<Ty>
    ensures { result ≡ plain_of name.now }
{
    if is_word(name, b"BOOLEAN") {
        return Some(Ty::Bool);
    }
    if is_word(name, b"INT") {
        return Some(Ty::Int);
    }
    if is_word(name, b"INTEGER") {
        return Some(Ty::Int);
    }
    if is_word(name, b"BIGINT") {
        return Some(Ty::BigInt);
    }
    if is_word(name, b"STRING") {
        return Some(Ty::Text);
    }
    None
}

/// Whether a text is a word in any case of letters.
pub(crate) fn is_word(text: &Text, word: &[u8]) -> bool
    ensures { result ≡ str_eq_ignore_ascii_case text.now word.now }
{
    text.as_slice().eq_ignore_ascii_case(word)
}
