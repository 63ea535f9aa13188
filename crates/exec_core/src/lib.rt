//! Jobs of plans: a `Session` over the operators of plans, which takes the lines of change files, the tests of a job's source tables, and
//! that a job of a sound plan can be opened.
//!
//! Promised: a `Session` stands for runs of the plan's own network, and where it is quiet, what was printed is the batch answer.
//! `take_next` takes the next line of a file as the machine's run does (`source_lines/specs/Run`), or says why that halts there.
//! `TableCheck` tests the changes of a table one after the other, as the machine's table does. `plans_open` stands
//! for a theorem: each operator of a sound plan is built, in the modes of its edges, and changes can be spread
//! by the columns of its edges and tables, whose types exist. It stands on sessions, on lines, and for that theorem on what is known
//! of sound plans and of types.
#![tactic(auto)]

mod check;
mod fault;
mod promises;
mod session;
mod taking;

pub use check::TableCheck;
pub use fault::RunFault;
pub use promises::plans_open;
pub use session::Session;
pub use taking::take_next;
