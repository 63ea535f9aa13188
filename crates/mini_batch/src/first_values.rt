//! The first values of a row, in the place of a key.
ghost use Rattle.std.specs.Prelude.{◌≡◌, take, ⊤};
ghost use Rattle.std.specs.Ordering.{eq_by_cmp};
ghost use Rattle.std.specs.Cmp.{eq_by_cmp_equiv, on_per, on_equiv, partial_equiv_from_equiv};
ghost use Rattle.ct_value.specs.Order.{row_cmp, row_total};
ghost use Rattle.ct_value.specs.Hashed.{row_input, row_fed};

use ct_value::{Row, Value};
use indexmap::Equivalent;
use std::alloc::AllocError;
use std::hash::{Hash, Hasher};

/// The first values of a row, by which the row of just these is found.
pub(crate) struct FirstValues<'a> {
    pub values: &'a [Value],
}

impl<'a> FirstValues<'a> {
    /// The first values of a row, `count` of them, or all where there are fewer. It takes no memory.
    pub(crate) fn new(row: &'a Row, count: u32) -> FirstValues<'a>
        ensures { result.values.now ≡ take count row.now }
    {
        let values = row.as_slice();
        let end = values.len().min(count as usize);
        FirstValues {
            values: &values[..end],
        }
    }
}

impl Clone for FirstValues<'_> {
    ghost is_clone = { λ x y. y ≡ x };

    ghost is_infallible = { λ _. ⊤ };

    fn clone(&self) -> Result<Self, AllocError> {
        Ok(*self)
    }
}

impl Copy for FirstValues<'_> {}

impl PartialEq for FirstValues<'_> {
    ghost eq = { λ a b. eq_by_cmp row_cmp a.values.now b.values.now };

    ghost laws = { on_per (λ x. x.values.now) (partial_equiv_from_equiv (eq_by_cmp_equiv row_total)) };

    fn eq(&self, other: &Self) -> bool {
        self.values.cmp(other.values).is_eq()
    }
}

impl Eq for FirstValues<'_> {
    ghost laws = { on_equiv (λ x. x.values.now) (eq_by_cmp_equiv row_total) };
}

impl Hash for FirstValues<'_> {
    ghost hash_input = { λ x. row_input x.values.now };

    ghost respects_eq = { λ x y. row_fed x.values.now y.values.now };

    fn hash<H: Hasher>(&self, state: &mut H) {
        self.values.hash(state);
    }
}

impl Equivalent<Row> for FirstValues<'_> {
    ghost equivalent = { λ x row. eq_by_cmp row_cmp x.values.now row };

    ghost respects_hash = { λ x row. row_fed x.values.now row };

    ghost respects_eq = { λ x a b. (eq_by_cmp_equiv row_total).congr x.values.now a b };

    fn equivalent(&self, key: &Row) -> bool {
        self.values.cmp(key.as_slice()).is_eq()
    }
}
