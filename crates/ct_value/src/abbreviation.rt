ghost use Rattle.std.specs.Prelude.{◌≡◌, ◌+◌, min, length};
ghost use Rattle.ct_value.specs.Abbreviations.{first_digits, number_onto, place, place_digits, row_abbreviation, text_digits, value_digits};

use crate::{Text, Value};

// How many digits an abbreviation has.
const DIGITS: u32 = 8;

// What the first of them counts.
const FIRST: u64 = 1 << 56;

// Numbers from minus this on, and below this, have places of their own.
const FAR: i128 = 1 << 55;

// Numbers from minus this on, and below this, are spelled by two digits.
const NEAR: i128 = 1 << 12;

// How many bytes of a text are seen in an abbreviation that begins with it.
const SEEN: usize = 7;

// One more in each of so many digits.
const ONES: u64 = 0x01_0101_0101_0101;

// The first digits of a value's spelling: the number of eight digits that they begin, with zeros behind them, and how many there are.
#[derive(Clone, Copy)]
struct Head {
    number: u64,
    digits: u32,
}

impl Head {
    fn of_value(value: &Value) -> Head
        ensures number { result.number ≡ number_onto 0 (first_digits 8 (value_digits value.now)) }
        ensures digits { result.digits ≡ min 8 (length (value_digits value.now)) }
    {
        match value {
            Value::Null => Head {
                number: FIRST,
                digits: 1,
            },
            Value::Bool(false) => Head {
                number: 2 * FIRST,
                digits: 1,
            },
            Value::Bool(true) => Head {
                number: 3 * FIRST,
                digits: 1,
            },
            Value::Num(number) => Head::of_number(*number),
            Value::Text(text) => Head::of_text(text),
        }
    }

    // A number near zero has few digits, so that the values behind it are told too.
    fn of_number(number: i128) -> Head
        ensures number { result.number ≡ number_onto 0 (first_digits 8 (place_digits (place number))) }
        ensures digits { result.digits ≡ min 8 (length (place_digits (place number))) }
    {
        if -NEAR <= number && number < NEAR {
            return Head {
                number: ((number + 3 * NEAR) as u64) << 48,
                digits: 2,
            };
        }
        let lead = if number < 0 { 5 } else { 70 };
        Head {
            number: lead * FIRST + place_of(number),
            digits: DIGITS,
        }
    }

    // No byte of UTF-8 is 254 or 255, so each is one less than a digit.
    fn of_text(text: &Text) -> Head
        ensures number { result.number ≡ number_onto 128 (first_digits 7 (text_digits text.now)) }
        ensures digits { result.digits ≡ min 7 (length (text_digits text.now)) + 1 }
    {
        let seen = text.as_slice().len().min(SEEN);
        let behind = 8 * (SEEN - seen);
        Head {
            number: 128 * FIRST + text.front() + (ONES >> behind << behind),
            digits: seen.min(SEEN - 1) as u32 + 2,
        }
    }
}

// The abbreviation of a row of these values: the first digits of their spelling, in which the order of rows can be seen as in the keys
// of key-value stores that compare bytes alone.
pub(crate) fn abbreviation_of(values: &[Value]) -> u64
    ensures { result ≡ row_abbreviation values.now }
{
    let mut number = 0;
    let mut digits = 0;
    for value in values {
        let head = Head::of_value(value);
        number += head.number >> (8 * digits);
        digits += head.digits;
        if digits >= DIGITS {
            return number;
        }
    }
    number
}

// The place of a number.
fn place_of(number: i128) -> u64
    ensures { result ≡ place number }
{
    if number < -FAR {
        0
    } else if number < FAR {
        (number + FAR) as u64
    } else {
        2 * FAR as u64 - 1
    }
}
