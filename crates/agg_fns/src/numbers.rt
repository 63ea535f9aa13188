ghost use Rattle.std.specs.Prelude.{◌≡◌, ℤ, pos, ◌+◌, ◌-◌, ◌≤◌, ◌<◌, ◌^◌, ◌+ℤ◌, ◌-ℤ◌, ◌==◌, true, false, cond, Some, OnOk, OnErr};
ghost use Rattle.ct_value.specs.Order.{number_of};
ghost use Rattle.ct_value.specs.declared.value.Value.TheVariants.{Null};
ghost use Rattle.ct_field.specs.Numbers.{in_range, has_38_digits};
ghost use Rattle.ct_field.specs.Typed.{is_null};
ghost use Rattle.rel_algebra.specs.Aggregates.{sum_type, in_type, average};
ghost use Rattle.agg_fns.specs.declared.acc.AccFault.TheVariants.{Out};

use crate::acc::AccFault;
use crate::number::{
    average_value, known_count, number_of, sum_replaced, sum_value, sum_with, sum_without,
};
use ct_value::{Ty, Value};

/// How many values of a type that aren't NULL, and their sum.
#[derive(Clone, Copy, Debug, PartialEq, Eq)]
pub struct Numbers {
    pub ty: Ty,
    pub count: u64,
    pub sum: i128,
}

impl Numbers {
    // No values.
    pub(crate) fn new(ty: Ty) -> Numbers
        ensures ty { result.ty ≡ ty }
        ensures count { result.count ≡ 0 }
        ensures sum { result.sum ≡ pos 0 }
    {
        Numbers {
            ty,
            count: 0,
            sum: 0,
        }
    }

    // Takes a value more, where the sum stays within the limit of sums of type `limit`.
    pub(crate) fn add(&mut self, limit: Ty, value: &Value) -> Result<(), AccFault>
        requires { self.old.count + 1 < 2 ^ 64 }
        ensures kept { OnOk result ((self.new.ty ≡ self.old.ty) × (self.new.count ≡ cond (is_null value.now) 0 1 + self.old.count) × (self.new.sum ≡ number_of value.now +ℤ self.old.sum)) }
        ensures fits { OnOk result (in_range (sum_type limit) (number_of value.now +ℤ self.old.sum) ≡ true) }
        ensures out { OnErr result (in_range (sum_type limit) (number_of value.now +ℤ self.old.sum) ≡ false) }
        ensures same { OnErr result (self.new ≡ self.old) }
    {
        let Some(sum) = sum_with(limit, self.sum, number_of(value)) else {
            return Err(AccFault::Out);
        };
        self.sum = sum;
        self.count += known_count(value);
        Ok(())
    }

    // Takes a value away, where the sum stays within the limit of sums of type `limit`.
    pub(crate) fn remove(&mut self, limit: Ty, value: &Value) -> Result<(), AccFault>
        requires { cond (is_null value.now) 0 1 ≤ self.old.count }
        ensures kept { OnOk result ((self.new.ty ≡ self.old.ty) × (cond (is_null value.now) 0 1 + self.new.count ≡ self.old.count) × (self.new.sum ≡ self.old.sum -ℤ number_of value.now)) }
        ensures fits { OnOk result (in_range (sum_type limit) (self.old.sum -ℤ number_of value.now) ≡ true) }
        ensures out { OnErr result (in_range (sum_type limit) (self.old.sum -ℤ number_of value.now) ≡ false) }
        ensures same { OnErr result (self.new ≡ self.old) }
    {
        let Some(sum) = sum_without(limit, self.sum, number_of(value)) else {
            return Err(AccFault::Out);
        };
        self.sum = sum;
        self.count -= known_count(value);
        Ok(())
    }

    // Takes a value in the place of another, where the sum stays within the limit of sums of type `limit`.
    pub(crate) fn replace(&mut self, limit: Ty, old: &Value, fresh: &Value) -> Result<(), AccFault>
        requires held { cond (is_null old.now) 0 1 ≤ self.old.count }
        requires room { self.old.count + 1 < 2 ^ 64 }
        ensures kept { OnOk result ((self.new.ty ≡ self.old.ty) × (cond (is_null old.now) 0 1 + self.new.count ≡ cond (is_null fresh.now) 0 1 + self.old.count) × (self.new.sum ≡ number_of fresh.now +ℤ (self.old.sum -ℤ number_of old.now))) }
        ensures fits { OnOk result (in_range (sum_type limit) (number_of fresh.now +ℤ (self.old.sum -ℤ number_of old.now)) ≡ true) }
        ensures out { OnErr result (in_range (sum_type limit) (number_of fresh.now +ℤ (self.old.sum -ℤ number_of old.now)) ≡ false) }
        ensures same { OnErr result (self.new ≡ self.old) }
    {
        let Some(sum) = sum_replaced(limit, self.sum, number_of(old), number_of(fresh)) else {
            return Err(AccFault::Out);
        };
        self.sum = sum;
        self.count -= known_count(old);
        self.count += known_count(fresh);
        Ok(())
    }

    // The sum, and NULL of no values; none where it is out of range.
    pub(crate) fn total(&self) -> Option<Value>
        ensures { result ≡ cond (self.now.count == 0) (Some Null) (in_type (sum_type self.now.ty) self.now.sum) }
    {
        sum_value(self.ty, self.count, self.sum)
    }

    // The average, and NULL of no values; none where it is out of range.
    pub(crate) fn average(&self) -> Option<Value>
        requires { has_38_digits self.now.sum ≡ true }
        ensures { result ≡ cond (self.now.count == 0) (Some Null) (average self.now.ty self.now.sum self.now.count) }
    {
        average_value(self.ty, self.count, self.sum)
    }
}
