//! Natural numbers of 256 bits.
ghost use Rattle.std.specs.Prelude.{◌≡◌, ◌<◌, ◌≤◌, ◌+◌, ◌*◌, ◌-◌, ◌/◌, ◌^◌, nat_lt};
ghost use Rattle.agg_results.specs.Wide.{wide_number};

/// A natural number below 2^256: `high` times 2^128, and `low`.
#[derive(Clone, Copy, Debug)]
pub struct Wide {
    pub high: u128,
    pub low: u128,
}

// 2^64.
const HALF: u128 = 1 << 64;

impl Wide {
    /// The number 0.
    pub fn zero() -> Wide
        ensures { wide_number result ≡ 0 }
    {
        Wide { high: 0, low: 0 }
    }

    /// The product of two numbers.
    pub fn product(a: u128, b: u128) -> Wide
        ensures { wide_number result ≡ a * b }
    {
        parts(a / HALF, a % HALF, b / HALF, b % HALF)
    }

    /// The sum.
    pub fn plus(self, other: Wide) -> Wide
        requires { wide_number self + wide_number other < 2 ^ 256 }
        ensures { wide_number result ≡ wide_number self + wide_number other }
    {
        let (low, carries) = self.low.overflowing_add(other.low);
        if carries {
            Wide {
                high: self.high + other.high + 1,
                low,
            }
        } else {
            Wide {
                high: self.high + other.high,
                low,
            }
        }
    }

    /// The difference.
    pub fn minus(self, other: Wide) -> Wide
        requires { wide_number other ≤ wide_number self }
        ensures { wide_number result + wide_number other ≡ wide_number self }
    {
        if self.low < other.low {
            Wide {
                high: self.high - other.high - 1,
                low: u128::MAX - other.low + self.low + 1,
            }
        } else {
            Wide {
                high: self.high - other.high,
                low: self.low - other.low,
            }
        }
    }

    /// Whether it is less than another.
    pub fn is_below(self, other: Wide) -> bool
        ensures { result ≡ nat_lt (wide_number self) (wide_number other) }
    {
        self.high < other.high || self.high == other.high && self.low < other.low
    }

    /// How often the divisor goes into it, where that is below 2^128.
    pub fn quotient(self, divisor: u128) -> u128
        requires some { 0 < divisor }
        requires fits { wide_number self < 2 ^ 128 * divisor }
        ensures { result ≡ wide_number self / divisor }
    {
        let mut low: u128 = 0;
        let mut high: u128 = u128::MAX;
        'halve: while low < high {
            let middle = high - (high - low) / 2;
            if self.is_below(Wide::product(middle, divisor)) {
                high = middle - 1;
            } else {
                low = middle;
            }
        }
        low
    }
}

// The product of two numbers by their halves of 64 bits.
fn parts(a_high: u128, a_low: u128, b_high: u128, b_low: u128) -> Wide
    requires a_high { a_high < 2 ^ 64 }
    requires a_low { a_low < 2 ^ 64 }
    requires b_high { b_high < 2 ^ 64 }
    requires b_low { b_low < 2 ^ 64 }
    ensures { wide_number result ≡ (a_high * 2 ^ 64 + a_low) * (b_high * 2 ^ 64 + b_low) }
{
    gathered(
        a_high * b_high,
        a_high * b_low,
        a_low * b_high,
        a_low * b_low,
    )
}

// A number by the products of its halves.
fn gathered(high: u128, cross: u128, other: u128, low: u128) -> Wide
    requires high { high ≤ 340282366920938463426481119284349108225 }
    requires cross { cross ≤ 340282366920938463426481119284349108225 }
    requires other { other ≤ 340282366920938463426481119284349108225 }
    requires low { low ≤ 340282366920938463426481119284349108225 }
    ensures { wide_number result ≡ high * 2 ^ 128 + (cross + other) * 2 ^ 64 + low }
{
    let middle = low / HALF + cross % HALF + other % HALF;
    Wide {
        high: high + cross / HALF + other / HALF + middle / HALF,
        low: middle % HALF * HALF + low % HALF,
    }
}
