//! INTERSECT and EXCEPT.
ghost use Rattle.std.specs.Prelude.{◌≡◌, ◌+◌, ◌≤◌, ◌^◌, Some, IfOk, OnOk, IsErrOf};
ghost use Rattle.ct_value.specs.Bag as bag;
ghost use Rattle.rel_algebra.specs.Sets as s;
ghost use Rattle.batch_answer.specs.Tallies.{Unfit};

use crate::Tally;
use ct_expr::EvalFault;
use ct_value::Row;
use rel_algebra::set_copies;
use std::alloc::Global;

/// Of each row of the left so many copies as EXCEPT, or else INTERSECT, leaves; without `all` each row stands once.
pub fn set_rows(
    alloc: Global,
    except: bool,
    all: bool,
    left: Tally,
    right: &Tally,
) -> Result<Tally, EvalFault>
    ensures value { IfOk result (λ made. s.set_rows (s.set_form except all) left right.now ≡ made) }
    ensures out { IsErrOf result EvalFault.Out → Unfit (Some (s.set_rows (s.set_form except all) left right.now)) }
{
    let mut made = Tally::new(alloc);
    for (row, count) in left.into_counts() {
        let kept = set_copies(except, all, count, right.count(&row));
        add_some(&mut made, row, kept)?;
    }
    Ok(made)
}

// Adds so many copies of a row, or none.
fn add_some(rows: &mut Tally, row: Row, count: u64) -> Result<(), EvalFault>
    ensures ok { OnOk result (rows.new ≡ bag.add_many rows.old row count) }
    ensures out { IsErrOf result EvalFault.Out → 2 ^ 64 ≤ bag.copies rows.old row + count }
{
    if 0 < count {
        rows.add(row, count)?;
    }
    Ok(())
}
