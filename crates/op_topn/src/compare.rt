//! The rank order of rows, and the order of keys.
ghost use Rattle.std.specs.Prelude.{◌≡◌, option_copied};
ghost use Rattle.std.specs.Cmp.Lexicographic.{slice_cmp};
ghost use Rattle.ct_field.specs.Typed.{cell};
ghost use Rattle.ct_value.specs.Order.{value_cmp};
ghost use Rattle.rel_algebra.specs.Ranks.{rank_cmp};
ghost use Rattle.op_topn.specs.Keys.{directed_cmp, directed_of, key_cmp, or_null, rank_key};

use ct_value::{Row, Value};
use rel_algebra::SortCol;
use std::cmp::Ordering;

/// The order of two rows: by each sort column in turn, with NULL lowest, and then by the whole row. A descending column turns its
/// whole comparison round.
pub fn rank_compare(order: &[SortCol], row: &Row, other: &Row) -> Ordering
    ensures { result ≡ rank_cmp order.now row.now other.now }
{
    compare_keys(order, row, order, other)
}

// The order of two rows' keys, each in an order of its own: by the sort columns in turn, and then by the whole row.
pub(crate) fn compare_keys(
    order: &[SortCol],
    row: &Row,
    other_order: &[SortCol],
    other: &Row,
) -> Ordering
    ensures { result ≡ key_cmp (rank_key order.now row.now) (rank_key other_order.now other.now) }
{
    match compare_columns(order, row, other_order, other) {
        Ordering::Equal => row.compare(other),
        decided => decided,
    }
}

// The order by the sort columns: the first pair that differs decides, and else how many there are.
fn compare_columns(order: &[SortCol], row: &Row, other_order: &[SortCol], other: &Row) -> Ordering
    ensures { result ≡ slice_cmp directed_cmp (rank_key order.now row.now).0 (rank_key other_order.now other.now).0 }
{
    let both = order.len().min(other_order.len());
    'columns: for i in 0..both {
        let found = compare_directed(order[i], row, other_order[i], other);
        if found.is_ne() {
            return found;
        }
    }
    order.len().cmp(&other_order.len())
}

// The order by one column of each.
fn compare_directed(sort: SortCol, row: &Row, other_sort: SortCol, other: &Row) -> Ordering
    ensures { result ≡ directed_cmp (directed_of sort.desc (cell sort.col row.now)) (directed_of other_sort.desc (cell other_sort.col other.now)) }
{
    let (value, other_value) = (cell_in(row, sort.col), cell_in(other, other_sort.col));
    match (sort.desc, other_sort.desc) {
        (false, false) => compare_cells(value, other_value),
        (true, true) => compare_cells(other_value, value),
        (false, true) => Ordering::Less,
        (true, false) => Ordering::Greater,
    }
}

// The order of values, of which one that isn't there is NULL.
fn compare_cells(value: Option<&Value>, other: Option<&Value>) -> Ordering
    ensures { result ≡ value_cmp (or_null (option_copied value.entry)) (or_null (option_copied other.entry)) }
{
    match (value, other) {
        (Some(value), Some(other)) => value.cmp(other),
        (Some(value), None) => value.cmp(&Value::Null),
        (None, Some(other)) => Value::Null.cmp(other),
        (None, None) => Ordering::Equal,
    }
}

// The value of a column, counted from 0, and None past the end, where NULL is meant.
pub(crate) fn cell_in(row: &Row, column: u32) -> Option<&Value>
    ensures { or_null (option_copied result) ≡ cell column row.now }
{
    row.get(column as usize)
}
