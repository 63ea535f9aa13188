//! Sets of columns, families of such sets, and where columns stand in rows that are made of others.
//!
//! Promised: each call answers what `specs/Sets` and `specs/Places` define of the lists that it is given; a family keeps the sets
//! that contain no other, the smallest first, and of these the first 16. It stands on lists alone, and knows no plan.
#![tactic(auto)]

mod families;
mod places;
mod ranked;
mod sets;

pub use families::{Sets, dup_sets, family, has_within, unions};
pub use places::{first_columns, image, images, shift, shifted};
pub use sets::{is_within, same_set, set_of, union};
