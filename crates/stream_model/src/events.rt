use ct_change::Change;
use ct_value::{Boxed, ChangeCode, ColTys, List, Memory, Numbers, OrderCode, Row};

/// What may come next in a job: a change of a table is taken, the front of a channel is delivered, or a subtask's
/// bundle is flushed. Tables are numbered from 0, nodes and edges from 1, subtasks from 0.
#[derive(Debug, Drop)]
pub enum Event {
    Take { table: u32, change: Change },
    Move { edge: u32, from: u32, to: u32 },
    Flush { node: u32, subtask: u32 },
}

/// Why an event can't be. A `Range` has the row at which the node is out of range, and the types of its columns; they are boxed, since
/// every step answers a fault or none.
#[derive(Debug, Drop)]
pub enum StepFault {
    Change(ChangeCode),
    Order(OrderCode),
    Range {
        node: u32,
        subtask: u32,
        row: Boxed<Row>,
        tys: Boxed<ColTys>,
    },
    Limit,
    Memory,
}

impl From<Memory> for StepFault {
    ghost use Rattle.std.specs.Prelude.{◌≡◌};
    ghost use Rattle.stream_model.specs.declared.events.StepFault.TheVariants.{Memory as Wanting};

    ghost from_gives = { λ _ fault. fault ≡ Wanting };

    fn from(_: Memory) -> Self {
        StepFault::Memory
    }
}

/// Numbers of changes, one for each table in the tables' order.
pub type Counts = Numbers;

/// What a job prints: a change, or that it is quiet after so many changes taken of each table.
#[derive(Debug, Drop)]
pub enum PrintItem {
    Change(Change),
    Quiet(Counts),
}

/// A list of what a job prints.
pub type PrintList = List<PrintItem>;

/// Why a session stopped, with what was printed and not yet handed out.
#[derive(Debug, Drop)]
pub struct Stopped {
    pub cause: StepFault,
    pub printed: PrintList,
}
