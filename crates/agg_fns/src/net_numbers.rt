ghost use Rattle.std.specs.Prelude.{◌≡◌, pos, neg_ℤ, ◌+ℤ◌, ◌-ℤ◌, ◌<ℤ◌, ◌≤ℤ◌, ◌^◌, true, false, cond, OnOk, OnErr};
ghost use Rattle.ct_value.specs.Order.{number_of};
ghost use Rattle.ct_field.specs.Numbers.{has_38_digits};
ghost use Rattle.ct_field.specs.Typed.{is_null};

use crate::acc::AccFault;
use crate::net::{count_with, count_without};
use crate::number::{number_of, sum_with, sum_without};
use ct_value::{Ty, Value};

/// How many more values that aren't NULL have come than gone, and by how much the sum has changed.
#[derive(Clone, Copy, Debug, PartialEq, Eq)]
pub struct NetNumbers {
    pub count: i64,
    pub sum: i128,
}

// The type whose numbers have at most 38 digits.
const DIGITS: Ty = Ty::Decimal { p: 38, s: 0 };

impl NetNumbers {
    // No values.
    pub(crate) fn new() -> NetNumbers
        ensures count { result.count ≡ pos 0 }
        ensures sum { result.sum ≡ pos 0 }
    {
        NetNumbers { count: 0, sum: 0 }
    }

    // Takes a value come, where the sum then has at most 38 digits.
    pub(crate) fn add(&mut self, value: &Value) -> Result<(), AccFault>
        requires { (self.old.count +ℤ pos 1) <ℤ pos (2 ^ 63) }
        ensures kept { OnOk result ((self.new.count ≡ pos (cond (is_null value.now) 0 1) +ℤ self.old.count) × (self.new.sum ≡ number_of value.now +ℤ self.old.sum)) }
        ensures fits { OnOk result (has_38_digits (number_of value.now +ℤ self.old.sum) ≡ true) }
        ensures out { OnErr result (has_38_digits (number_of value.now +ℤ self.old.sum) ≡ false) }
        ensures same { OnErr result (self.new ≡ self.old) }
    {
        let Some(sum) = sum_with(DIGITS, self.sum, number_of(value)) else {
            return Err(AccFault::Out);
        };
        self.sum = sum;
        self.count = count_with(self.count, value);
        Ok(())
    }

    // Takes a value gone, where the sum then has at most 38 digits.
    pub(crate) fn remove(&mut self, value: &Value) -> Result<(), AccFault>
        requires { neg_ℤ (pos (2 ^ 63)) ≤ℤ (self.old.count -ℤ pos 1) }
        ensures kept { OnOk result ((self.new.count ≡ self.old.count -ℤ pos (cond (is_null value.now) 0 1)) × (self.new.sum ≡ self.old.sum -ℤ number_of value.now)) }
        ensures fits { OnOk result (has_38_digits (self.old.sum -ℤ number_of value.now) ≡ true) }
        ensures out { OnErr result (has_38_digits (self.old.sum -ℤ number_of value.now) ≡ false) }
        ensures same { OnErr result (self.new ≡ self.old) }
    {
        let Some(sum) = sum_without(DIGITS, self.sum, number_of(value)) else {
            return Err(AccFault::Out);
        };
        self.sum = sum;
        self.count = count_without(self.count, value);
        Ok(())
    }
}
