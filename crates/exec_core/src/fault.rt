ghost use Rattle.std.specs.Prelude.{◌≡◌, IfSome};
ghost use Rattle.source_lines.specs.Supply.{table_told};
ghost use Rattle.exec_core.specs.Faults.{IsFaultAt, RefusesLast};

use ct_value::ChangeCode;
use job_text::ChangeLines;
use stream_model::StepFault;

/// Why a line of a change file isn't taken.
#[derive(Debug, Drop)]
pub enum RunFault {
    /// The line is refused. Lines are counted from 1 in their file; the table is 0 where each line names its own, else the number of the
    /// file's table from 1.
    Refused {
        code: ChangeCode,
        line: u32,
        table: u32,
    },
    /// The job stopped.
    Stopped(StepFault),
}

/// Why the last line that was read isn't taken, where the job stopped at it.
pub(crate) fn fault_at(cause: StepFault, lines: &ChangeLines<'_>) -> RunFault
    ensures { IsFaultAt cause result lines.now }
{
    match cause {
        StepFault::Change(code) => refused(code, lines),
        cause => RunFault::Stopped(cause),
    }
}

/// That the last line that was read is refused.
pub(crate) fn refused(code: ChangeCode, lines: &ChangeLines<'_>) -> RunFault
    ensures { RefusesLast result code lines.now }
{
    match table_told(lines.feed()) {
        Some(table) => RunFault::Refused {
            code,
            line: lines.read(),
            table,
        },
        None => RunFault::Stopped(StepFault::Memory),
    }
}

// A file's table as a refusal tells it.
fn table_told(feed: Option<u32>) -> Option<u32>
    ensures { IfSome result (λ table. table ≡ table_told feed) }
{
    match feed {
        Some(place) => place.checked_add(1),
        None => Some(0),
    }
}
