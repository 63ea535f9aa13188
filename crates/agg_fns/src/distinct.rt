ghost use Rattle.std.specs.Prelude.{◌≡◌, ◌+◌, ◌<◌, ◌^◌, false, OnOk, OnErr};
ghost use Rattle.ct_value.specs.Bag as bag;
ghost use Rattle.ct_field.specs.Typed.{is_null};
ghost use Rattle.rel_algebra.specs.Aggregates.{size};
ghost use Rattle.rel_algebra.specs.Sums.{distinct};
ghost use Rattle.agg_fns.specs.Standing.{gained, lost};

use crate::kept::is_null;
use crate::value_bag::ValueBag;
use ct_value::{Memory, Value};
use std::alloc::Global;

/// Values that aren't NULL, and how many different ones they are.
#[derive(Drop)]
pub struct Distinct {
    pub kept: ValueBag,
    pub count: u64,
}

impl Distinct {
    // No values.
    pub(crate) fn new(alloc: Global) -> Distinct
        ensures kept { result.kept ≡ bag.none }
        ensures count { result.count ≡ 0 }
    {
        Distinct {
            kept: ValueBag::new(alloc),
            count: 0,
        }
    }

    // Keeps a value that isn't NULL.
    #[tactic(auto, using(crate::proofs::Added::copies_few, crate::proofs::Added::distinct_few, crate::proofs::Added::one_new, crate::proofs::Added::one_again))]
    pub(crate) fn add(&mut self, value: &Value) -> Result<(), Memory>
        requires few { size self.old.kept + 1 < 2 ^ 64 }
        requires counted { self.old.count ≡ size (distinct self.old.kept) }
        ensures kept { OnOk result (self.new.kept ≡ gained self.old.kept value.now) }
        ensures counted { OnOk result (self.new.count ≡ size (distinct self.new.kept)) }
        ensures err { OnErr result (self.new ≡ self.old) }
    {
        if is_null(value) {
            return Ok(());
        }
        let first = self.kept.count(value) == 0;
        self.kept.add(value.dup()?)?;
        if first {
            self.count += 1;
        }
        Ok(())
    }

    // Loses a value that isn't NULL, one of which is kept.
    #[tactic(auto, using(crate::proofs::Added::some_distinct, crate::proofs::Added::last_gone, crate::proofs::Added::one_stays))]
    pub(crate) fn remove(&mut self, value: &Value)
        requires stands { is_null value.now ≡ false → 0 < bag.copies self.old.kept value.now }
        requires counted { self.old.count ≡ size (distinct self.old.kept) }
        ensures kept { self.new.kept ≡ lost self.old.kept value.now }
        ensures counted { self.new.count ≡ size (distinct self.new.kept) }
    {
        if is_null(value) {
            return;
        }
        self.kept.remove(value);
        if self.kept.count(value) == 0 {
            self.count -= 1;
        }
    }

    // Keeps a value in the place of another, one of which is kept, each of them if it isn't NULL.
    #[tactic(auto, using(crate::proofs::Replaced::gained_lost, crate::proofs::Replaced::still_there))]
    pub(crate) fn replace(&mut self, old: &Value, fresh: &Value) -> Result<(), Memory>
        requires few { size self.old.kept + 1 < 2 ^ 64 }
        requires stands { is_null old.now ≡ false → 0 < bag.copies self.old.kept old.now }
        requires counted { self.old.count ≡ size (distinct self.old.kept) }
        ensures kept { OnOk result (self.new.kept ≡ gained (lost self.old.kept old.now) fresh.now) }
        ensures counted { OnOk result (self.new.count ≡ size (distinct self.new.kept)) }
        ensures err { OnErr result (self.new ≡ self.old) }
    {
        self.add(fresh)?;
        self.remove(old);
        Ok(())
    }
}
