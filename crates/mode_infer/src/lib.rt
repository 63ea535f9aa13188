//! The mode of each edge of a plan: which kinds of changes it carries, and how it tells updates.
//!
//! Promised: `infer_modes` answers what `specs/Modes` defines: kinds and update keys are read from the inputs up
//! (`specs/Kinds`, `specs/UpdateKeys`), and then how each edge tells updates is found from the sink down (`specs/Updates`), since
//! new rows come without the old ones only where the consumer takes them so. It stands on sets of columns and on the types of plans.
#![tactic(auto)]

mod consumers;
mod kinds;
mod modes;
mod operators;
mod row_keys;
mod updates;

pub use consumers::{is_input, port_of};
pub use kinds::{Flow, flows, plain};
pub use modes::{EdgeMode, infer_modes, set_modes};
pub use operators::{asked, flow_of, needs_old_rows, takes};
pub use row_keys::update_keys;
