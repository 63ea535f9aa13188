//! The one text of a value.
ghost use Rattle.std.specs.Prelude.{◌≡◌, ◌<◌, ◌≤◌, ◌+◌, ◌/◌, ◌%◌, ◌++◌, ◌∷◌, drop, length, IsTrue, IfOk, OnOk};
ghost use Rattle.std.specs.Fmt.{decimal};
ghost use Rattle.ct_field.specs.Numbers.{is_type};
ghost use Rattle.ct_field.specs.Fields.{field_text, number_text, unsigned_text, last_digits, escaped, scale_of};

use crate::number::power_of_ten;
use ct_value::{Bytes, Memory, Text, TextFault, Ty, Value};
use std::alloc::Global;

// The most digits of a number of 64 bits.
const MOST_DIGITS: usize = 20;

// The two digits of each number below 100.
static PAIRS: [u8; 200] =
    *b"00010203040506070809101112131415161718192021222324252627282930313233343536373839404142434445464748495051525354555657585960616263646566676869707172737475767778798081828384858687888990919293949596979899";

/// The field text of a value: no plus sign, no leading zeros, no -0, all decimals of the type, TRUE or FALSE, `\N` for
/// NULL, and one more backslash in front of a text that begins with one. It may be longer than a field that is read.
pub fn write_field(alloc: Global, ty: Ty, value: &Value) -> Result<Bytes, Memory>
    requires { IsTrue (is_type ty) }
    ensures { IfOk result (λ text. text ≡ field_text ty value.now) }
{
    let mut text = Bytes::new(alloc);
    push_field(alloc, &mut text, ty, value)?;
    Ok(text)
}

/// Puts the field text of a value behind a text.
pub fn push_field(alloc: Global, text: &mut Bytes, ty: Ty, value: &Value) -> Result<(), Memory>
    requires { IsTrue (is_type ty) }
    ensures { OnOk result (text.new ≡ text.old ++ field_text ty value.now) }
{
    match value {
        Value::Null => text.extend(b"\\N"),
        Value::Bool(false) => text.extend(b"FALSE"),
        Value::Bool(true) => text.extend(b"TRUE"),
        Value::Num(number) => push_number(alloc, text, scale_of(ty), *number),
        Value::Text(value) => push_text(text, value),
    }
}

/// The text of an unscaled number with so many decimals.
pub fn number_text(alloc: Global, scale: u32, number: i128) -> Result<Text, Memory>
    requires { scale ≤ 38 }
    ensures { IfOk result (λ text. text ≡ number_text scale number) }
{
    let mut text = Bytes::new(alloc);
    push_number(alloc, &mut text, scale, number)?;
    text_of(alloc, text.as_slice(), scale, number)
}

// Bytes of a number's text as a text.
fn text_of(alloc: Global, bytes: &[u8], scale: u32, number: i128) -> Result<Text, Memory>
    requires { bytes.now ≡ number_text scale number }
    ensures { IfOk result (λ text. text ≡ bytes.now) }
{
    match Text::from_bytes(alloc, bytes) {
        Ok(text) => Ok(text),
        Err(TextFault::Memory) => Err(Memory),
        Err(TextFault::NotUtf8) => unreachable!(),
    }
}

// The decimals of a type's numbers.
pub(crate) fn scale_of(ty: Ty) -> u32
    requires { IsTrue (is_type ty) }
    ensures value { result ≡ scale_of ty }
    ensures most { result ≤ 38 }
{
    match ty {
        Ty::Decimal { s, .. } => s,
        _ => 0,
    }
}

#[tactic(auto, using(std::proofs::Common::append_assoc))]
fn push_number(alloc: Global, text: &mut Bytes, scale: u32, number: i128) -> Result<(), Memory>
    requires { scale ≤ 38 }
    ensures { OnOk result (text.new ≡ text.old ++ number_text scale number) }
{
    if scale == 0 && 0 <= number && number <= u64::MAX as i128 {
        return push_digits(text, number as u64);
    }
    push_wide(alloc, text, scale, number)
}

// The same for each number. Not inline, so that most numbers are written by little code.
#[inline(never)]
#[tactic(auto, using(std::proofs::Common::append_assoc))]
fn push_wide(alloc: Global, text: &mut Bytes, scale: u32, number: i128) -> Result<(), Memory>
    requires { scale ≤ 38 }
    ensures { OnOk result (text.new ≡ text.old ++ number_text scale number) }
{
    if number.is_negative() {
        text.push(b'-')?;
    }
    push_unsigned(alloc, text, scale, number.unsigned_abs())
}

#[tactic(auto, using(std::proofs::Common::append_assoc))]
fn push_unsigned(alloc: Global, text: &mut Bytes, scale: u32, number: u128) -> Result<(), Memory>
    requires { scale ≤ 38 }
    ensures { OnOk result (text.new ≡ text.old ++ unsigned_text scale number) }
{
    if scale == 0 {
        return push_decimal(alloc, text, number);
    }
    push_decimal(alloc, text, number / power_of_ten(scale))?;
    text.push(b'.')?;
    push_last_digits(text, scale, number)
}

// Puts the decimal digits of a number behind a text. Where they fit into 64 bits, no memory is taken for them alone.
fn push_decimal(alloc: Global, text: &mut Bytes, number: u128) -> Result<(), Memory>
    ensures { OnOk result (text.new ≡ text.old ++ decimal number) }
{
    if number <= u64::MAX as u128 {
        return push_digits(text, number as u64);
    }
    let digits = format!(in alloc; "{number}")?;
    text.extend(digits.as_bytes())
}

fn push_digits(text: &mut Bytes, number: u64) -> Result<(), Memory>
    ensures { OnOk result (text.new ≡ text.old ++ decimal number) }
{
    let mut digits = [0; MOST_DIGITS];
    let start = write_digits(&mut digits, number);
    let digits = &digits[..];
    text.extend(&digits[start..])
}

// Writes the decimal digits of a number at the end of a buffer, two at a time, and answers where they start.
fn write_digits(digits: &mut [u8; MOST_DIGITS], number: u64) -> usize
    ensures start { result ≤ 20 }
    ensures written { drop result digits.new ≡ decimal number }
{
    let mut start = MOST_DIGITS;
    let mut rest = number;
    while rest >= 100 {
        start -= 2;
        write_pair(digits, start, rest % 100);
        rest /= 100;
    }
    write_first(digits, start, rest)
}

// Writes the first one or two digits of a number in front of the others, and answers where they start.
#[inline(always)]
fn write_first(digits: &mut [u8; MOST_DIGITS], end: usize, number: u64) -> usize
    requires below { number < 100 }
    requires room { length (decimal number) ≤ end }
    requires most { end ≤ 20 }
    ensures start { result ≤ 20 }
    ensures written { drop result digits.new ≡ decimal number ++ drop end digits.old }
{
    if number < 10 {
        digits[end - 1] = b'0' + number as u8;
        return end - 1;
    }
    write_pair(digits, end - 2, number);
    end - 2
}

#[inline(always)]
fn write_pair(digits: &mut [u8; MOST_DIGITS], at: usize, pair: u64)
    requires below { pair < 100 }
    requires room { at + 2 ≤ 20 }
    ensures length { length digits.new ≡ 20 }
    ensures written { drop at digits.new ≡ (48 + pair / 10) ∷ (48 + pair % 10) ∷ drop (at + 2) digits.old }
{
    let from = pair as usize * 2;
    let (tens, ones) = (PAIRS[from], PAIRS[from + 1]);
    digits[at] = tens;
    digits[at + 1] = ones;
}

// Puts the last digits of a number, so many, behind a text.
#[tactic(auto, using(std::proofs::Common::append_assoc))]
fn push_last_digits(text: &mut Bytes, digits: u32, number: u128) -> Result<(), Memory>
    ensures { OnOk result (text.new ≡ text.old ++ last_digits digits number) }
{
    if number <= u64::MAX as u128 {
        return push_last_short(text, digits, number as u64);
    }
    if digits == 0 {
        return Ok(());
    }
    push_last_digits(text, digits - 1, number / 10)?;
    text.push(b'0' + (number % 10) as u8)
}

// The same of a number of 64 bits, whose divisions cost less.
#[tactic(auto, using(std::proofs::Common::append_assoc))]
fn push_last_short(text: &mut Bytes, digits: u32, number: u64) -> Result<(), Memory>
    ensures { OnOk result (text.new ≡ text.old ++ last_digits digits number) }
{
    if digits == 0 {
        return Ok(());
    }
    push_last_short(text, digits - 1, number / 10)?;
    text.push(b'0' + (number % 10) as u8)
}

#[tactic(auto, using(std::proofs::Common::append_assoc))]
fn push_text(text: &mut Bytes, value: &Text) -> Result<(), Memory>
    ensures { OnOk result (text.new ≡ text.old ++ escaped value.now) }
{
    let bytes = value.as_slice();
    if let [b'\\', ..] = bytes {
        text.push(b'\\')?;
    }
    text.extend(bytes)
}
