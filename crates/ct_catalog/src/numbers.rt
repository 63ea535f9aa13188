//! Numbers as they are written in types and settings.
ghost use Rattle.std.specs.Prelude.{◌≡◌, ◌≤◌};
ghost use Rattle.ct_catalog.specs.Numbers.{number_up_to, count_up_to};

/// The number of these digits, and `None` where they are no digits or the number is larger than the most.
#[tactic(auto, using(crate::proofs::Digits::none_if_no_digits))]
pub(crate) fn number_up_to(most: u32, digits: &[u8]) -> Option<u32>
    requires { most ≤ 1000000 }
    ensures { result ≡ number_up_to most digits.now }
{
    if digits.is_empty() {
        return None;
    }
    let mut number = 0;
    for digit in digits {
        if !digit.is_ascii_digit() {
            return None;
        }
        number = number * 10 + u32::from(digit - b'0');
        if number > most {
            return None;
        }
    }
    Some(number)
}

/// The number from 1 up of these digits without leading zeros, and `None` where they are none up to the most.
pub(crate) fn count_up_to(most: u32, digits: &[u8]) -> Option<u32>
    requires { most ≤ 1000000 }
    ensures { result ≡ count_up_to most digits.now }
{
    if let [b'0', ..] = digits {
        return None;
    }
    number_up_to(most, digits)
}
