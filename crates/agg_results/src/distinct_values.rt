//! How many different values a call takes.
ghost use Rattle.std.specs.Prelude.{◌≡◌, IfOk, OnOk, option_copied};
ghost use Rattle.std.specs.BTreeMap.{keys};
ghost use Rattle.ct_value.specs.Bag as bag;
ghost use Rattle.ct_value.specs.Order.{value_cmp};
ghost use Rattle.rel_algebra.specs.Aggregates as a;
ghost use Rattle.rel_algebra.specs.Sums.{distinct};
ghost use Rattle.agg_results.specs.Seen.{seen_too};
ghost use Rattle.agg_results.specs.Taken as t;

use crate::totals::taken;
use ct_value::{Memory, Row, Value};
use rel_algebra::Agg;
use std::alloc::Global;
use std::collections::BTreeMap;

/// How many different values a call takes.
pub(crate) fn distinct_count(
    alloc: Global,
    agg: &Agg,
    members: &[(Row, u64)],
) -> Result<usize, Memory>
    requires { t.AreCounted members.now }
    ensures { IfOk result (λ count. count ≡ a.size (distinct (a.known (a.values_of agg.now (bag.bag_of_counts members.now))))) }
{
    let mut seen: BTreeMap<Value, ()> = BTreeMap::new(alloc);
    let mut place = members.len();
    'rows: while place > 0 {
        place -= 1;
        let (row, _) = &members[place];
        see(&mut seen, taken(agg, row))?;
    }
    Ok(seen.len())
}

// Keeps a value, where there is one and it wasn't seen before.
fn see(seen: &mut BTreeMap<Value, ()>, value: Option<&Value>) -> Result<(), Memory>
    ensures { OnOk result (bag.bag_of {R = value_cmp} (keys seen.new) ≡ seen_too (option_copied value.entry) (bag.bag_of (keys seen.old))) }
{
    let Some(value) = value else {
        return Ok(());
    };
    seen.insert(value.dup()?, ())?;
    Ok(())
}
