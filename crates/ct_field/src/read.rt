//! The value that a text spells.
ghost use Rattle.std.specs.Prelude.{◌≡◌, ◌<◌, ◌≤◌, ◌*◌, ◌^◌, Some, None, true, cond, nat_le, length, position, option_map, IsTrue, IfOk, IfSome, IsErrOf};
ghost use Rattle.std.specs.List.{list_all};
ghost use Rattle.std.specs.Char.{is_ascii_digit};
ghost use Rattle.std.specs.Str.Parse.{digits_value, without_leading_sign};
ghost use Rattle.ct_field.specs.Numbers.{is_type};
ghost use Rattle.ct_field.specs.Fields.{field_value, digits_spelled, scaled, is_point, pointed, unsigned_spelled, number_of_type, truth_spelled, text_spelled, unescaped};
ghost use Rattle.ct_field.specs.Numbers.{bounded, bounded_number};

use crate::number::{DIGITS_38, DIGITS_39, in_range, power_of_ten, signed};
use crate::write::scale_of;
use ct_value::{Text, TextFault, Ty, Value};
use std::alloc::Global;

/// The most bytes of a field that is read.
pub const MAX_FIELD: usize = 65_536;

// So many digits always fit into 64 bits.
const SHORT: usize = 18;

/// Why a field isn't read.
#[derive(Clone, Copy, Debug, PartialEq, Eq)]
pub enum FieldFault {
    /// It spells no value of the type, or is too long.
    BadField,
    Memory,
}

/// The value that a field spells: `\N` is NULL, numbers are an optional sign and digits, with a point and at most as
/// many decimals as the type has, truth values are TRUE, FALSE, true or false, and in front of a text that begins with
/// a backslash stands one more.
pub fn read_field(alloc: Global, ty: Ty, bytes: &[u8]) -> Result<Value, FieldFault>
    requires { IsTrue (is_type ty) }
    ensures value { IfOk result (λ value. field_value ty bytes.now ≡ Some value) }
    ensures bad_field { IsErrOf result FieldFault.BadField → field_value ty bytes.now ≡ None }
{
    if bytes.len() > MAX_FIELD {
        return Err(FieldFault::BadField);
    }
    if bytes == b"\\N".as_slice() {
        return Ok(Value::Null);
    }
    match ty {
        Ty::Bool => truth_spelled(bytes)
            .map(Value::Bool)
            .ok_or(FieldFault::BadField),
        Ty::Text => text_spelled(alloc, bytes).map(Value::Text),
        Ty::Int | Ty::BigInt | Ty::Decimal { .. } => {
            number_of_type(ty, bytes)
                .map(Value::Num)
                .ok_or(FieldFault::BadField)
        }
    }
}

fn truth_spelled(bytes: &[u8]) -> Option<bool>
    ensures { result ≡ truth_spelled bytes.now }
{
    if bytes == b"TRUE".as_slice() || bytes == b"true".as_slice() {
        Some(true)
    } else if bytes == b"FALSE".as_slice() || bytes == b"false".as_slice() {
        Some(false)
    } else {
        None
    }
}

#[tactic(auto, using(crate::proofs::Texts::utf8_kept, crate::proofs::Texts::utf8_dropped))]
fn text_spelled(alloc: Global, bytes: &[u8]) -> Result<Text, FieldFault>
    ensures text { IfOk result (λ text. text_spelled bytes.now ≡ Some text) }
    ensures bad_field { IsErrOf result FieldFault.BadField → text_spelled bytes.now ≡ None }
{
    match unescaped(bytes) {
        None => Err(FieldFault::BadField),
        Some(bytes) => match Text::from_bytes(alloc, bytes) {
            Ok(text) => Ok(text),
            Err(TextFault::NotUtf8) => Err(FieldFault::BadField),
            Err(TextFault::Memory) => Err(FieldFault::Memory),
        },
    }
}

// The bytes of a text without the backslash that is one more.
fn unescaped(bytes: &[u8]) -> Option<&[u8]>
    ensures { option_map (λ b. b.now) result ≡ unescaped bytes.now }
{
    match bytes {
        [b'\\', b'\\', ..] => Some(&bytes[1..]),
        [b'\\', ..] => None,
        _ => Some(bytes),
    }
}

#[tactic(auto, using(crate::proofs::Bounded::too_long, crate::proofs::Bounded::kept))]
fn number_of_type(ty: Ty, bytes: &[u8]) -> Option<i128>
    requires { IsTrue (is_type ty) }
    ensures { result ≡ number_of_type ty bytes.now }
{
    let digits = without_sign(bytes);
    let negative = digits.len() < bytes.len() && bytes[0] == b'-';
    let number = signed(negative, unsigned_spelled(scale_of(ty), digits)?);
    if in_range(ty, number) {
        Some(number)
    } else {
        None
    }
}

fn without_sign(bytes: &[u8]) -> &[u8]
    ensures { result.now ≡ without_leading_sign bytes.now }
{
    match bytes {
        [b'-' | b'+', digits @ ..] => digits,
        _ => bytes,
    }
}

// The number of a text without a sign, where it has at most 38 digits.
#[tactic(auto, using(crate::proofs::Short::short_is_spelled))]
fn unsigned_spelled(scale: u32, bytes: &[u8]) -> Option<u128>
    requires { scale ≤ 38 }
    ensures value { result ≡ bounded (unsigned_spelled scale bytes.now) }
    ensures bound { IfSome result (λ number. number < 10 ^ 38) }
{
    match short_number(bytes) {
        Some(number) => with_zeros(number as u128, scale),
        None => long_spelled(scale, bytes),
    }
}

// The same, also where there is a point or where the digits are many. Not inline, so that short numbers are read by little code.
#[inline(never)]
fn long_spelled(scale: u32, bytes: &[u8]) -> Option<u128>
    requires { scale ≤ 38 }
    ensures value { result ≡ bounded (unsigned_spelled scale bytes.now) }
    ensures bound { IfSome result (λ number. number < 10 ^ 38) }
{
    match point_in(bytes) {
        None => scaled(bytes, scale),
        Some(at) => pointed(scale, &bytes[..at], &bytes[at + 1..]),
    }
}

// Where the first point stands.
fn point_in(bytes: &[u8]) -> Option<usize>
    ensures { result ≡ position is_point bytes.now }
{
    bytes.iter().position(|byte| *byte == b'.')
}

// Digits, a point and more digits.
#[tactic(auto, using(crate::proofs::Bounded::first_long, crate::proofs::Bounded::second_long, crate::proofs::Bounded::sum_bounded))]
fn pointed(scale: u32, whole: &[u8], fraction: &[u8]) -> Option<u128>
    requires { scale ≤ 38 }
    ensures value { result ≡ bounded (pointed scale whole.now fraction.now) }
    ensures bound { IfSome result (λ number. number < 10 ^ 38) }
{
    if fraction.len() > scale as usize {
        return None;
    }
    let whole = scaled(whole, scale)?;
    let part = scaled(fraction, scale - fraction.len() as u32)?;
    bounded(whole + part)
}

// Digits, with so many zeros behind them.
#[tactic(auto, using(crate::proofs::Bounded::scaled_long, crate::proofs::Bounded::scaled_bounded))]
fn scaled(digits: &[u8], zeros: u32) -> Option<u128>
    requires { zeros ≤ 38 }
    ensures value { result ≡ bounded (scaled zeros digits.now) }
    ensures bound { IfSome result (λ number. number < 10 ^ 38) }
{
    let number = digits_spelled(digits)?;
    with_zeros(number, zeros)
}

fn with_zeros(number: u128, zeros: u32) -> Option<u128>
    requires { zeros ≤ 38 }
    ensures value { result ≡ bounded_number (number * 10 ^ zeros) }
    ensures bound { IfSome result (λ number. number < 10 ^ 38) }
{
    if zeros == 0 {
        return bounded(number);
    }
    product(number, power_of_ten(zeros))
}

fn product(number: u128, factor: u128) -> Option<u128>
    ensures value { result ≡ bounded_number (number * factor) }
    ensures bound { IfSome result (λ number. number < 10 ^ 38) }
{
    bounded(number.checked_mul(factor)?)
}

fn bounded(number: u128) -> Option<u128>
    ensures value { result ≡ bounded_number number }
    ensures bound { IfSome result (λ number. number < 10 ^ 38) }
{
    if number < DIGITS_39 {
        Some(number)
    } else {
        None
    }
}

fn digits_spelled(bytes: &[u8]) -> Option<u128>
    ensures { result ≡ bounded (digits_spelled bytes.now) }
{
    if bytes.len() <= SHORT {
        let number = short_number(bytes)?;
        return Some(number as u128);
    }
    if !all_digits(bytes) {
        return None;
    }
    digits_number(bytes)
}

// The number of few digits, in one walk.
fn short_number(bytes: &[u8]) -> Option<u64>
    ensures value { result ≡ cond (nat_le (length bytes.now) 18) (digits_spelled bytes.now) None }
    ensures bound { IfSome result (λ number. number < 10 ^ 18) }
{
    if bytes.is_empty() || bytes.len() > SHORT {
        return None;
    }
    let mut number: u64 = 0;
    for byte in bytes {
        if !byte.is_ascii_digit() {
            return None;
        }
        number = number * 10 + (*byte - b'0') as u64;
    }
    Some(number)
}

fn all_digits(bytes: &[u8]) -> bool
    ensures { result ≡ list_all is_ascii_digit bytes.now }
{
    bytes.iter().all(|byte| byte.is_ascii_digit())
}

fn digits_number(bytes: &[u8]) -> Option<u128>
    requires { list_all is_ascii_digit bytes.now ≡ true }
    ensures { result ≡ bounded_number (digits_value 10 bytes.now) }
{
    let mut number: u128 = 0;
    for byte in bytes {
        if number >= DIGITS_38 {
            return None;
        }
        number = number * 10 + (*byte - b'0') as u128;
    }
    Some(number)
}
