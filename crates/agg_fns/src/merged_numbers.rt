ghost use Rattle.std.specs.Prelude.{◌≡◌, pos, ◌+ℤ◌, ◌==◌, ◌&&◌, true, false, cond, unsigned_abs, Some, None, IfOk, IfErr, OnOk, OnErr};
ghost use Rattle.ct_value.specs.Order.{number_of};
ghost use Rattle.ct_value.specs.declared.value.Value.TheVariants.{Null};
ghost use Rattle.ct_field.specs.Numbers.{in_range, has_38_digits};
ghost use Rattle.ct_field.specs.Typed.{cell};
ghost use Rattle.rel_algebra.specs.Aggregates.{sum_type, in_type, average};
ghost use Rattle.agg_fns.specs.declared.acc.AccFault.TheVariants.{Out};

use crate::acc::AccFault;
use crate::cells::{counts_together, number_at};
use crate::number::{average_value, in_type, sum_type, sum_with};
use ct_value::{Ty, Value};

/// How many more values of a type that aren't NULL have come than gone, and by how much the sum has changed, by all partials merged.
#[derive(Clone, Copy, Debug, PartialEq, Eq)]
pub struct MergedNumbers {
    pub ty: Ty,
    pub count: i128,
    pub sum: i128,
}

impl MergedNumbers {
    // Of no partials.
    pub(crate) fn new(ty: Ty) -> MergedNumbers
        ensures ty { result.ty ≡ ty }
        ensures count { result.count ≡ pos 0 }
        ensures sum { result.sum ≡ pos 0 }
    {
        MergedNumbers {
            ty,
            count: 0,
            sum: 0,
        }
    }

    // Takes a partial's numbers, where the sum stays within the limit of sums of type `limit`.
    pub(crate) fn merge(&mut self, limit: Ty, partial: &[Value]) -> Result<(), AccFault>
        ensures kept { OnOk result ((self.new.ty ≡ self.old.ty) × (self.new.count ≡ number_of (cell 0 partial.now) +ℤ self.old.count) × (self.new.sum ≡ number_of (cell 1 partial.now) +ℤ self.old.sum)) }
        ensures fits { OnOk result (in_range (sum_type limit) (number_of (cell 1 partial.now) +ℤ self.old.sum) ≡ true) }
        ensures out { IfErr result (λ fault. fault ≡ Out → in_range (sum_type limit) (number_of (cell 1 partial.now) +ℤ self.old.sum) ≡ false) }
        ensures same { OnErr result (self.new ≡ self.old) }
    {
        let Some(sum) = sum_with(limit, self.sum, number_at(partial, 1)) else {
            return Err(AccFault::Out);
        };
        let count = counts_together(self.count, number_at(partial, 0))?;
        self.sum = sum;
        self.count = count;
        Ok(())
    }

    // Whether both are 0.
    pub(crate) fn are_blank(&self) -> bool
        ensures yes { result ≡ true → (self.now.count ≡ pos 0) × (self.now.sum ≡ pos 0) }
        ensures no { self.now.count ≡ pos 0 → self.now.sum ≡ pos 0 → result ≡ true }
    {
        self.count == 0 && self.sum == 0
    }

    // The sum, and NULL of no values; none where it is out of range.
    pub(crate) fn total(&self) -> Option<Value>
        ensures { result ≡ cond (unsigned_abs self.now.count == 0) (Some Null) (in_type (sum_type self.now.ty) self.now.sum) }
    {
        if self.count == 0 {
            return Some(Value::Null);
        }
        in_type(sum_type(self.ty), self.sum)
    }

    // The average, and NULL of no values; it is out of range exactly where the call is. There is memory for 2^64 values.
    pub(crate) fn average(&self) -> Result<Value, AccFault>
        requires { has_38_digits self.now.sum ≡ true }
        ensures value { IfOk result (λ value. cond (unsigned_abs self.now.count == 0) (Some Null) (average self.now.ty self.now.sum (unsigned_abs self.now.count)) ≡ Some value) }
        ensures out { IfErr result (λ fault. fault ≡ Out → cond (unsigned_abs self.now.count == 0) (Some Null) (average self.now.ty self.now.sum (unsigned_abs self.now.count)) ≡ None) }
    {
        let Ok(count) = u64::try_from(self.count.unsigned_abs()) else {
            return Err(AccFault::Memory);
        };
        average_value(self.ty, count, self.sum).ok_or(AccFault::Out)
    }
}
