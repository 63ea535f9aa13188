// A job that is drained in one call.
ghost use Rattle.std.specs.Prelude.{◌≡◌, ◌<◌};
ghost use Rattle.plan_check.specs.Checked.{plan_in};
ghost use Rattle.sound_plans.specs.Sound.{IsRuled};

use crate::scripts::COUNT_ALL;
use crate::sent::plan_of;
use ct_change::{Change, Kind, Steps};
use ct_value::{Memory, Value};
use exec_core::Session;
use plan_check::CheckedPlan;
use std::alloc::Global;
use std::marker::Brand;
use std::sync::ledger::{Blank, Ledger};
use stream_model::{PrintItem, PrintList};

const MOST_SENT: u32 = 4294967295;

// What a job that took nothing prints in a drain.
fn drained<L: Ledger>(
    alloc: Global,
    checked: &CheckedPlan,
    blank: Blank,
) -> Result<PrintList, Memory>
    requires name { blank.name ≡ L.name }
    requires parts { blank.parts ≡ L.parts }
    requires some { 0 < L.parts }
    requires ruled { IsRuled (plan_in checked.now) }
{
    let mut steps = Steps::<L>::new(blank);
    let Ok(session) = Session::open_job(alloc, checked, MOST_SENT) else {
        return Err(Memory);
    };
    match session.drain(&mut steps) {
        Ok(mut quiet) => Ok(quiet.take_printed()),
        Err(_stopped) => Err(Memory),
    }
}

// The same of a script.
fn told(alloc: Global, script: &str) -> Result<PrintList, Memory> {
    let Ok(checked) = plan_of(alloc, script) else {
        return Err(Memory);
    };
    drained::<Brand>(alloc, &checked, Blank::new(1))
}

// Whether a change brings a row that counts nothing.
fn counts_nothing(change: &Change) -> bool {
    match change.row.as_slice().split_first() {
        Some((Value::Num(0), others)) => others.is_empty() && change.kind == Kind::I,
        _ => false,
    }
}

// Whether that row is told first, and then that nothing was taken of the one table.
fn is_of_no_rows(items: &PrintList) -> bool {
    match (items.get(0), items.get(1)) {
        (Some(PrintItem::Change(change)), Some(PrintItem::Quiet(counts))) => {
            counts_nothing(change) && counts.as_slice() == [0u32].as_slice()
        }
        _ => false,
    }
}

#[test]
fn a_drain_tells_the_row_of_no_rows_and_then_that_it_is_quiet(rt: HostRuntime) {
    match told(rt.alloc(), COUNT_ALL) {
        Ok(items) => assert!(rt; items.len() == 2 && is_of_no_rows(&items)),
        Err(Memory) => assert!(rt; false),
    }
}
