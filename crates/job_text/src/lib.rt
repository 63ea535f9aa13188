//! The texts of a job: the lines of a change file, read one by one, the lines of an order file, and the lines of what is printed.
//!
//! Promised: the records are those that CSV's own reading gives for the bytes of the file, and each is answered as the change of a
//! source that it is, or refused by the code that `specs/Lines` says, be the file one for all sources or one source's own; `NamedSources`
//! find the source by its name in a tree, and a `-D` of an upsert table is read and printed by its key alone. The orders of a file are the
//! verbs that `specs/Orders` reads in its lines, of which each has one text. A printed change, a row of an answer and a quiet moment each
//! have the one line that `specs/Printed` says, in the bytes that the library `csv` would write by its defaults; a line tells its item
//! (`specs/Told`). It stands on fields, changes, declared tables and the machine's printed items.
#![tactic(auto)]

mod counting;
mod line;
mod lines;
mod made;
mod named;
mod orders;
mod promises;
mod quoting;
mod read;

pub use counting::may_cut;
pub use line::{Line, LineFault, key_columns, tells_key};
pub use lines::{LineWriter, row_line, row_text};
pub use made::make_lines;
pub use named::NamedSources;
pub use orders::{OrderFault, OrderLine, Orders, Verb, read_order};
pub use promises::lines_tell_items;
pub use read::ChangeLines;
