// A run that may send few changes.
ghost use Rattle.std.specs.Prelude.{IfOk};
ghost use Rattle.plan_check.specs.Checked.{plan_in};
ghost use Rattle.sound_plans.specs.Sound.{IsRuled};

use crate::judging::{bytes_of, script_of};
use crate::scripts::{COUNT_APPEND, KEEPS_NOTHING};
use ct_io::SureSink;
use job_ending::{Halt, LimitName};
use job_plan::planned;
use job_stream::stream_within;
use job_text::Orders;
use plan_check::CheckedPlan;
use source_lines::ChangeFiles;
use std::alloc::Global;

// Runs a plan over the lines of a text, where so many changes are sent at most.
fn streams_within(
    alloc: Global,
    checked: &CheckedPlan,
    changes: &str,
    sent_limit: u32,
) -> Result<(), Halt>
    requires ruled { IsRuled (plan_in checked.now) }
{
    let bytes = bytes_of(alloc, changes)?;
    if bytes.len() > 1000 {
        return Err(Halt::Limit(LimitName::Changes));
    }
    match SureSink::new(alloc) {
        Ok(mut out) => {
            let files = ChangeFiles::One(bytes);
            stream_within(
                alloc,
                checked,
                files,
                &Orders::new(alloc),
                sent_limit,
                &mut out,
            )
        }
        Err(_) => Err(Halt::Memory),
    }
}

/// The plan of a script.
pub(crate) fn plan_of(alloc: Global, script: &str) -> Result<CheckedPlan, Halt>
    ensures { IfOk result (λ checked. IsRuled (plan_in checked)) }
{
    let text = bytes_of(alloc, script)?;
    let script = script_of(alloc, &text)?;
    planned(alloc, &script)
}

// The same of a script.
fn runs_within(alloc: Global, script: &str, changes: &str, sent_limit: u32) -> Result<(), Halt> {
    let checked = plan_of(alloc, script)?;
    streams_within(alloc, &checked, changes, sent_limit)
}

// Whether that stops since a change more would be sent.
fn stops_by_limit(alloc: Global, script: &str, changes: &str, sent_limit: u32) -> bool {
    let ran = runs_within(alloc, script, changes, sent_limit);
    matches!(ran, Err(Halt::Limit(LimitName::Sent)))
}

// Whether it ends well.
fn ends_within(alloc: Global, script: &str, changes: &str, sent_limit: u32) -> bool {
    runs_within(alloc, script, changes, sent_limit).is_ok()
}

#[test]
fn a_count_of_three_lines_needs_more_than_two_changes(rt: HostRuntime) {
    let lines = "t,+I,a\nt,+I,b\nt,+I,a\n";
    assert!(rt; stops_by_limit(rt.alloc(), COUNT_APPEND, lines, 2));
    assert!(rt; ends_within(rt.alloc(), COUNT_APPEND, lines, 1000));
}

// No row passes, so that the lines alone send changes: it is the third line that stops.
#[test]
fn a_third_line_stops_where_two_changes_are_sent_at_most(rt: HostRuntime) {
    assert!(rt; ends_within(rt.alloc(), KEEPS_NOTHING, "t,+I,a\nt,+I,b\n", 2));
    assert!(rt; stops_by_limit(rt.alloc(), KEEPS_NOTHING, "t,+I,a\nt,+I,b\nt,+I,a\n", 2));
}
