//! The columns of ranked rows, from those of the input.
ghost use Rattle.std.specs.Prelude.{◌≡◌, nat_lt, option_and_then, option_copied, IfOk};
ghost use Rattle.std.specs.List.{list_all};
ghost use Rattle.rel_algebra.specs.Types as t;
ghost use Rattle.rel_algebra.specs.Ranks.{rank_columns};

use ct_value::{ColTys, Cols, Memory};
use rel_algebra::Sorts;
use rel_columns::rank_columns;

const LARGEST_BOUND: u32 = 10000;

/// The columns of ranked rows over the input's.
pub(crate) fn ranked(
    partition: &Cols,
    order: &Sorts,
    bound: u32,
    with_rank: bool,
    input: Option<&ColTys>,
) -> Result<Option<ColTys>, Memory>
    ensures { IfOk result (λ made. made ≡ option_and_then (λ columns. t.columns_if (t.rank_fits columns partition.now order.now bound) (rank_columns with_rank columns)) (option_copied input.entry)) }
{
    let Some(columns) = input else {
        return Ok(None);
    };
    if rank_fits(columns, partition, order, bound) {
        Ok(Some(rank_columns(with_rank, columns.dup()?)?))
    } else {
        Ok(None)
    }
}

// Whether the columns of the partition and of the order are there, and the bound is one that rows are kept to.
fn rank_fits(columns: &ColTys, partition: &Cols, order: &Sorts, bound: u32) -> bool
    ensures { result ≡ t.rank_fits columns.now partition.now order.now bound }
{
    are_columns(partition.as_slice(), columns.len())
        && are_sorts(order, columns.len())
        && 1 <= bound
        && bound <= LARGEST_BOUND
}

/// Whether all are places among so many columns.
pub fn are_columns(places: &[u32], many: usize) -> bool
    ensures { result ≡ list_all (λ place. nat_lt place many) places.now }
{
    places.iter().all(|place| (*place as usize) < many)
}

fn are_sorts(order: &Sorts, many: usize) -> bool
    ensures { result ≡ list_all (λ sort. nat_lt sort.col many) order.now }
{
    order
        .as_slice()
        .iter()
        .all(|sort| (sort.col as usize) < many)
}
