//! What a subtask emitted, with room that is kept.
ghost use Rattle.std.specs.Prelude.{◌≡◌, None, Some};

use ct_change::Changes;
use std::alloc::Global;
use std::marker::Model;

/// What a subtask emitted for its bundle, and `None` where that wasn't due: then the list says nothing. From change to change it keeps its
/// memory.
#[derive(Drop)]
pub struct Emitted {
    pub changes: Changes,
    pub due: bool,
}

impl Model for Emitted {
    ghost use Rattle.std.specs.Prelude.{List, Option, Some, None, cond};
    ghost use Rattle.ct_change.specs.declared.change.Change.{Change};

    ghost Value = { Option (List Change) };

    ghost view = { λ e. cond e.due (Some e.changes) None };
}

impl Emitted {
    /// Nothing was due. It takes no memory.
    pub fn new(alloc: Global) -> Emitted
        ensures { result ≡ None }
    {
        Emitted {
            changes: Changes::new(alloc),
            due: false,
        }
    }

    /// Nothing was due. It takes no memory.
    pub fn clear(&mut self)
        ensures { self.new ≡ None }
    {
        self.due = false;
    }

    // These changes were due.
    pub(crate) fn put(&mut self, changes: Changes)
        ensures { self.new ≡ Some changes }
    {
        self.changes = changes;
        self.due = true;
    }
}
