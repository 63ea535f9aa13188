//! Literals.
ghost use Rattle.std.specs.Prelude.{◌≡◌, ◌<◌, ◌≤◌, ◌^◌, max, pos, position, IfSome};
ghost use Rattle.std.specs.Char.{digit_value};
ghost use Rattle.std.specs.Str.Parse.{digits_value_after};
ghost use Rattle.sql_syntax.specs.View.{view};
ghost use Rattle.ct_value.specs.declared.ty.Ty.TheVariants.{Decimal};
ghost use Rattle.ct_field.specs.Numbers.{bounded_number};
ghost use Rattle.query_answer.specs.Literals.{digits_of, is_null, is_point, is_short, number_at, number_of, pointed_number, whole_number, whole_type};

use ct_field::{MAX_FIELD, in_range, power_of_ten, signed};
use ct_value::{Text, Ty};
use sql_syntax::Tree;

// The least number of 38 digits.
const DIGITS_38: u128 = 10_000_000_000_000_000_000_000_000_000_000_000_000;

// The least number of 39 digits.
const DIGITS_39: u128 = 100_000_000_000_000_000_000_000_000_000_000_000_000;

/// The number that a literal writes, unscaled, with its type; `None` exactly where it has more than 38 digits or too many bytes.
pub fn number_of(text: &Text) -> Option<(i128, Ty)>
    ensures { result ≡ number_of text.now }
{
    if !is_short(text) {
        return None;
    }
    number_at(text.as_slice())
}

/// Whether a literal has no more bytes than a field may have.
pub fn is_short(text: &Text) -> bool
    ensures { result ≡ is_short text.now }
{
    text.as_slice().len() <= MAX_FIELD
}

fn number_at(text: &[u8]) -> Option<(i128, Ty)>
    ensures { result ≡ number_at text.now (position is_point text.now) }
{
    match point(text) {
        None => whole_number(text),
        Some(at) => pointed_number(&text[..at], &text[at + 1..]),
    }
}

fn point(text: &[u8]) -> Option<usize>
    ensures { result ≡ position is_point text.now }
{
    text.iter().position(|byte| *byte == b'.')
}

#[tactic(auto, using(crate::proofs::Digits::few, crate::proofs::Digits::many))]
fn whole_number(digits: &[u8]) -> Option<(i128, Ty)>
    ensures { result ≡ whole_number digits.now }
{
    let number = value_after(0, digits)?;
    Some((signed(false, number), whole_type(number)))
}

fn pointed_number(whole: &[u8], fraction: &[u8]) -> Option<(i128, Ty)>
    ensures { result ≡ pointed_number whole.now fraction.now }
{
    if fraction.len() > 38 {
        return None;
    }
    let number = value_after(value_after(0, whole)?, fraction)?;
    Some(pointed(number, fraction.len() as u32))
}

// A number with a point and so many decimals, and its type.
fn pointed(number: u128, decimals: u32) -> (i128, Ty)
    requires { number < 10 ^ 38 }
    ensures { result ≡ (pos number, Decimal (max (digits_of number) decimals) decimals) }
{
    let p = digits_of(number).max(decimals);
    (signed(false, number), Ty::Decimal { p, s: decimals })
}

// The number that digits write behind those of a number, where it has at most 38 digits.
#[tactic(auto, using(crate::proofs::Digits::too_large))]
fn value_after(number: u128, digits: &[u8]) -> Option<u128>
    requires { number < 10 ^ 38 }
    ensures value { result ≡ bounded_number (digits_value_after 10 number digits.now) }
    ensures bound { IfSome result (λ number. number < 10 ^ 38) }
{
    let mut number = number;
    for digit in digits {
        if number >= DIGITS_38 {
            return None;
        }
        number = number * 10 + digit_value(*digit);
        if number >= DIGITS_39 {
            return None;
        }
    }
    Some(number)
}

fn digit_value(digit: u8) -> u128
    ensures value { result ≡ digit_value digit }
    ensures bound { result ≤ 36 }
{
    match digit {
        b'0'..=b'9' => (digit - b'0') as u128,
        b'A'..=b'Z' => (digit - b'A' + 10) as u128,
        b'a'..=b'z' => (digit - b'a' + 10) as u128,
        _ => 36,
    }
}

// The type of a number without a point.
fn whole_type(number: u128) -> Ty
    requires { number < 10 ^ 38 }
    ensures { result ≡ whole_type number }
{
    if in_range(Ty::Int, signed(false, number)) {
        Ty::Int
    } else if in_range(Ty::BigInt, signed(false, number)) {
        Ty::BigInt
    } else {
        Ty::Decimal {
            p: digits_of(number),
            s: 0,
        }
    }
}

// How many digits a number has, without leading zeros.
#[tactic(auto, using(crate::proofs::Digits::counted))]
fn digits_of(number: u128) -> u32
    requires { number < 10 ^ 38 }
    ensures { result ≡ digits_of number }
{
    let mut digits = 1;
    'digits: while digits < 38 && number >= power_of_ten(digits) {
        digits += 1;
    }
    digits
}

/// Whether a tree is the literal NULL, also in parentheses.
#[tactic(auto, unfolding(sql_syntax::specs::View::view))]
pub fn is_null(tree: &Tree) -> bool
    ensures { result ≡ is_null (view tree.now) }
{
    match tree {
        Tree::Null => true,
        Tree::Paren(value) => is_null(value),
        _ => false,
    }
}
