//! Sets in the order in which a family has them.
ghost use Rattle.std.specs.Prelude.{◌≡◌, Some};
ghost use Rattle.std.specs.Ordering.{eq_by_cmp};
ghost use Rattle.std.specs.Cmp.{eq_by_cmp_equiv, partial_equiv_from_equiv, po};
ghost use Rattle.std.proofs.Common.{refl};
ghost use Rattle.column_sets.specs.Sets.{set_cmp, set_total};

use ct_value::Cols;
use std::cmp::Ordering;
use std::marker::Model;

/// A set of columns, ordered by size and then by the columns.
#[derive(Debug, Drop)]
pub(crate) struct Ranked {
    pub(crate) cols: Cols,
}

impl Model for Ranked {
    ghost use Rattle.std.specs.Prelude.{List, ℕ};

    ghost Value = { List ℕ };

    ghost view = { λ r. r.cols };
}

impl Ranked {
    fn compare(&self, other: &Ranked) -> Ordering
        ensures { result ≡ set_cmp self.now other.now }
    {
        self.cols
            .len()
            .cmp(&other.cols.len())
            .then(self.cols.as_slice().cmp(other.cols.as_slice()))
    }

    /// The set.
    pub(crate) fn into_cols(self) -> Cols
        ensures { result ≡ self }
    {
        self.cols
    }
}

impl PartialEq for Ranked {
    ghost eq = { eq_by_cmp set_cmp };

    ghost laws = { partial_equiv_from_equiv (eq_by_cmp_equiv set_total) };

    fn eq(&self, other: &Ranked) -> bool {
        self.compare(other).is_eq()
    }
}

impl Eq for Ranked {
    ghost laws = { eq_by_cmp_equiv set_total };
}

impl PartialOrd for Ranked {
    ghost partial_cmp = { λ a b. Some (set_cmp a b) };

    ghost laws = { po set_total (λ a b. refl) };

    fn partial_cmp(&self, other: &Ranked) -> Option<Ordering> {
        Some(self.compare(other))
    }
}

impl Ord for Ranked {
    ghost cmp = { set_cmp };

    ghost total = { set_total };

    ghost matches_partial_cmp = { λ a b. refl };

    ghost matches_eq = { λ a b. refl };

    fn cmp(&self, other: &Ranked) -> Ordering {
        self.compare(other)
    }
}
