ghost use Rattle.std.specs.Prelude.{◌≡◌};
ghost use Rattle.job_ending.specs.Runs.{ending_of};

use crate::ending::{Ending, LimitName};
use ct_value::{ChangeCode, ColTys, OrderCode, Row, ScriptCode};

/// Why a run halts before its end.
#[derive(Debug, Drop)]
pub enum Halt {
    Script {
        code: ScriptCode,
        statement: u32,
    },
    Change {
        code: ChangeCode,
        line: u32,
        table: u32,
    },
    Order {
        code: OrderCode,
        line: u32,
    },
    Range {
        node: u32,
        subtask: u32,
        row: Row,
        tys: ColTys,
    },
    Limit(LimitName),
    ReadFault,
    WriteFault,
    Memory,
}

/// The ending of a run that halted for this reason, or ended well. It takes no memory.
pub fn ending_of(ran: Result<(), Halt>) -> Ending
    ensures { result ≡ ending_of ran }
{
    match ran {
        Ok(()) => Ending::Done,
        Err(Halt::Script { code, statement }) => Ending::Script { code, statement },
        Err(Halt::Change { code, line, table }) => Ending::Change { code, line, table },
        Err(Halt::Order { code, line }) => Ending::Order { code, line },
        Err(
            Halt::Range {
                node,
                subtask,
                row,
                tys,
            },
        ) => Ending::Range {
            node,
            subtask,
            row,
            tys,
        },
        Err(Halt::Limit(name)) => Ending::Limit(name),
        Err(Halt::ReadFault) => Ending::ReadFault,
        Err(Halt::WriteFault) => Ending::WriteFault,
        Err(Halt::Memory) => Ending::Memory,
    }
}
