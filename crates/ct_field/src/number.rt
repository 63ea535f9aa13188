//! Numbers of types and of scales.
ghost use Rattle.std.specs.Prelude.{◌≡◌, ◌<◌, ◌≤◌, ◌+◌, ◌/◌, ◌-◌, ◌^◌, nat_lt, unsigned_abs, Some};
ghost use Rattle.ct_field.specs.Numbers.{is_type, in_range, rescale, raised, nearest, nearest_magnitude, signed};

use ct_value::Ty;

// The least number of 38 digits.
pub(crate) const DIGITS_38: u128 = 10_000_000_000_000_000_000_000_000_000_000_000_000;

// The least number of 39 digits.
pub(crate) const DIGITS_39: u128 = 100_000_000_000_000_000_000_000_000_000_000_000_000;

// The powers of ten with at most 39 digits.
static POWERS_OF_TEN: [u128; 39] = [
    1,
    10,
    100,
    1_000,
    10_000,
    100_000,
    1_000_000,
    10_000_000,
    100_000_000,
    1_000_000_000,
    10_000_000_000,
    100_000_000_000,
    1_000_000_000_000,
    10_000_000_000_000,
    100_000_000_000_000,
    1_000_000_000_000_000,
    10_000_000_000_000_000,
    100_000_000_000_000_000,
    1_000_000_000_000_000_000,
    10_000_000_000_000_000_000,
    100_000_000_000_000_000_000,
    1_000_000_000_000_000_000_000,
    10_000_000_000_000_000_000_000,
    100_000_000_000_000_000_000_000,
    1_000_000_000_000_000_000_000_000,
    10_000_000_000_000_000_000_000_000,
    100_000_000_000_000_000_000_000_000,
    1_000_000_000_000_000_000_000_000_000,
    10_000_000_000_000_000_000_000_000_000,
    100_000_000_000_000_000_000_000_000_000,
    1_000_000_000_000_000_000_000_000_000_000,
    10_000_000_000_000_000_000_000_000_000_000,
    100_000_000_000_000_000_000_000_000_000_000,
    1_000_000_000_000_000_000_000_000_000_000_000,
    10_000_000_000_000_000_000_000_000_000_000_000,
    100_000_000_000_000_000_000_000_000_000_000_000,
    1_000_000_000_000_000_000_000_000_000_000_000_000,
    10_000_000_000_000_000_000_000_000_000_000_000_000,
    100_000_000_000_000_000_000_000_000_000_000_000_000,
];

/// Whether a type is one that a column may have: a decimal has 1 to 38 digits, at most all of them behind the point.
pub fn is_type(ty: Ty) -> bool
    ensures { result ≡ is_type ty }
{
    match ty {
        Ty::Decimal { p, s } => 1 <= p && p <= 38 && s <= p,
        _ => true,
    }
}

/// Whether a number, unscaled, is one of a type: 32 bits, 64 bits, or at most as many digits as the decimal has.
pub fn in_range(ty: Ty, num: i128) -> bool
    ensures { result ≡ in_range ty num }
{
    match ty {
        Ty::Bool | Ty::Text => false,
        Ty::Int => i32::MIN as i128 <= num && num <= i32::MAX as i128,
        Ty::BigInt => i64::MIN as i128 <= num && num <= i64::MAX as i128,
        Ty::Decimal { p, .. } => has_digits(num, p),
    }
}

// Whether a number has at most so many digits. No number of 128 bits has more than 39.
#[tactic(auto, using(crate::proofs::Powers::any_below))]
fn has_digits(num: i128, digits: u32) -> bool
    ensures { result ≡ nat_lt (unsigned_abs num) (10 ^ digits) }
{
    if digits > 38 {
        return true;
    }
    num.unsigned_abs() < power_of_ten(digits)
}

/// An unscaled number of scale `from` at scale `to`. A number with more decimals is `None` exactly where it has more
/// than 38 digits; one with fewer is rounded, and of two equally near ones the one farther from zero is taken.
pub fn rescale(num: i128, from: u32, to: u32) -> Option<i128>
    requires from_scale { from ≤ 38 }
    requires to_scale { to ≤ 38 }
    ensures { result ≡ rescale num from to }
{
    if from <= to {
        raised(num, to - from)
    } else {
        Some(nearest(num, from - to))
    }
}

/// Ten to a power of at most 38.
pub fn power_of_ten(k: u32) -> u128
    requires { k ≤ 38 }
    ensures value { result ≡ 10 ^ k }
    ensures least { k < result }
    ensures most { result ≤ 10 ^ 38 }
{
    POWERS_OF_TEN[k as usize]
}

/// A number of this magnitude, negative or not.
pub fn signed(negative: bool, magnitude: u128) -> i128
    requires { magnitude < 2 ^ 127 }
    ensures { result ≡ signed negative magnitude }
{
    let number = magnitude as i128;
    if negative { -number } else { number }
}

// A number with so many more decimals. A product beyond 128 bits has more than 38 digits.
fn raised(num: i128, decimals: u32) -> Option<i128>
    requires { decimals ≤ 38 }
    ensures { result ≡ raised num decimals }
{
    let product = num.checked_mul(power_of_ten(decimals) as i128)?;
    if product.unsigned_abs() < DIGITS_39 {
        Some(product)
    } else {
        None
    }
}

// A number with so many decimals less.
fn nearest(num: i128, decimals: u32) -> i128
    requires some { 1 ≤ decimals }
    requires most { decimals ≤ 38 }
    ensures { result ≡ nearest num decimals }
{
    let magnitude = nearest_magnitude(num.unsigned_abs(), power_of_ten(decimals));
    signed(num.is_negative(), magnitude)
}

// A quotient, rounded up from a half on.
fn nearest_magnitude(magnitude: u128, divisor: u128) -> u128
    requires divisor { 2 ≤ divisor }
    requires small { divisor ≤ 10 ^ 38 }
    requires bound { magnitude ≤ 2 ^ 127 }
    ensures value { result ≡ nearest_magnitude magnitude divisor }
    ensures bound { result < 2 ^ 127 }
{
    let (whole, rest) = (magnitude / divisor, magnitude % divisor);
    if rest < divisor - rest {
        whole
    } else {
        whole + 1
    }
}
