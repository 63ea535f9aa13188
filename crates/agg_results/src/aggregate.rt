//! The result of an aggregate call over the rows of a group.
ghost use Rattle.std.specs.Prelude.{◌≡◌, IfOk, option_copied};
ghost use Rattle.ct_value.specs.Bag as bag;
ghost use Rattle.rel_algebra.specs.Aggregates as a;
ghost use Rattle.agg_results.specs.Taken as t;

use crate::distinct_values::distinct_count;
use crate::extremes::{greatest, least};
use crate::results::{average_value, count_value, sum_value};
use crate::totals::total_of;
use ct_value::{ColTys, Memory, Row, Ty, Value};
use rel_algebra::{Agg, AggCall};
use std::alloc::Global;

/// The result of a call over rows with their counts, whose columns have these types; none exactly where it is out of range
/// (Flink documentation, "Group Aggregation"). Each row has a copy at least.
pub fn agg_result(
    alloc: Global,
    columns: &ColTys,
    agg: &Agg,
    members: &[(Row, u64)],
) -> Result<Option<Value>, Memory>
    requires { t.AreCounted members.now }
    ensures { IfOk result (λ value. value ≡ a.agg_result columns.now (bag.bag_of_counts members.now) agg.now) }
{
    let ty = arg_type(columns, agg.arg);
    match agg.call {
        AggCall::CountAll => Ok(count_value(total_of(agg, members).rows)),
        AggCall::Count => Ok(count_value(total_of(agg, members).known)),
        AggCall::CountDistinct => {
            let count = distinct_count(alloc, agg, members)?;
            Ok(count_value(count as u128))
        }
        AggCall::Sum => Ok(sum_value(ty, total_of(agg, members))),
        AggCall::Min => {
            let value = or_null(least(agg, members))?;
            Ok(Some(value))
        }
        AggCall::Max => {
            let value = or_null(greatest(agg, members))?;
            Ok(Some(value))
        }
        AggCall::Avg => Ok(average_value(ty, total_of(agg, members))),
    }
}

// The type of the argument's column.
fn arg_type(columns: &ColTys, arg: Option<u32>) -> Ty
    ensures { result ≡ a.ty_or_bigint (a.type_in columns.now arg) }
{
    let Some(column) = arg else {
        return Ty::BigInt;
    };
    match columns.get(column as usize) {
        None => Ty::BigInt,
        Some(column) => column.ty,
    }
}

// A value equal to this one, NULL where there is none.
fn or_null(value: Option<&Value>) -> Result<Value, Memory>
    ensures { IfOk result (λ copy. copy ≡ t.or_null (option_copied value.entry)) }
{
    match value {
        None => Ok(Value::Null),
        Some(value) => value.dup(),
    }
}
