//! Numbers of types, and the texts of fields: which number fits a type, a number taken to another scale, the one text in which a
//! value is written, and the value that a text spells.
//!
//! Promised: a text is read as the value that it spells, it is refused exactly where it spells none, and a value is written in its
//! one text. Which bytes spell a value of a type is a relation (`specs/Spells`): fields are read by it, and what is written spells
//! its value. It stands on values alone.
#![tactic(auto)]

mod number;
mod promises;
mod read;
mod write;

pub use number::{in_range, is_type, power_of_ten, rescale, signed};
pub use promises::{fields_are_read_as_they_are_spelled, written_fields_spell_their_value};
pub use read::{FieldFault, MAX_FIELD, read_field};
pub use write::{number_text, push_field, write_field};
