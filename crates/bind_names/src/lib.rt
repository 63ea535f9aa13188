//! What the words of a query mean while it is bound: names of columns and functions, number literals, the literal NULL, the
//! aggregate calls of a tree, the key pair that an equation of two columns is, what a select list lists, whether a select is simple,
//! and whether a tree has a name that is looked for: one that is of no column, or a rank's.
//!
//! Promised: each call answers what the definitions of `query_answer` say of the name, of the text or of the tree. It stands on
//! the trees of scripts, and binds nothing.
#![tactic(auto)]

mod calls;
mod entries;
mod fault;
mod form;
mod functions;
mod literals;
mod names;
mod pairs;
mod sought;

pub use calls::{
    CallRef, CallRefs, agg_call, aggregate_of, push_all, push_args, push_calls, push_optional,
    push_whens,
};
pub use entries::{Entries, Entry, Listed, entries_of};
pub use fault::BindFault;
pub use form::{is_alone, is_plain, is_simple, is_sole};
pub use functions::{function_of, is_changing};
pub use literals::{is_null, is_short, number_of};
pub use names::{Lookup, dup_name, find, find_linked, is_called, next_number};
pub use pairs::{pair_found, pair_of, plain_column};
pub use sought::{RankName, Sought, any_mentions, looks_outside, mentions};
