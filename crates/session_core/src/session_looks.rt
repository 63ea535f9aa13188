ghost use Rattle.std.specs.Prelude.{◌≡◌, ◌++◌, [], true};
ghost use Rattle.ct_change.specs.Changelog.{Mode};
ghost use Rattle.stream_model.specs.Network.{MeetsFacts};
ghost use Rattle.stream_model.specs.Machine.{IsQuiet};
ghost use Rattle.stream_model.specs.Looks.{in_flight, taken_of};
ghost use Rattle.session_core.specs.LaidOut.{stage_of, taker_of};
ghost use Rattle.session_core.specs.Stands.{ForRuns, HasAnswered, PrintsIn, StandsFor, StandsForSome, buffer_at, reached};

use crate::{Buffer, Session, SourceCheck, Stage};
use op_rules::PieceOperator;
use std::mem::swap;
use stream_model::PrintList;

impl<O: PieceOperator + Drop, S: SourceCheck> Session<O, S> {
    /// Hands out the items that were printed and not yet handed out, into a list that is empty, whose room is kept for what is printed
    /// next. It takes no memory.
    pub fn hand_over(&mut self, to: &mut PrintList)
        requires empty { to.old ≡ [] }
        ensures items { to.new ≡ self.old.traffic.printed }
        ensures stands { ForRuns O.rule O.broken O.stands_for O.takes_pieces S.stands_for self.old (λ g limit handed items. StandsFor O.rule O.broken O.stands_for O.takes_pieces S.stands_for g limit self.new (handed ++ to.new) items) }
    {
        swap(to, &mut self.traffic.printed);
    }

    /// The same, into a list of its own. It takes no memory.
    pub fn take_printed(&mut self) -> PrintList
        ensures items { result ≡ self.old.traffic.printed }
        ensures stands { ForRuns O.rule O.broken O.stands_for O.takes_pieces S.stands_for self.old (λ g limit handed items. StandsFor O.rule O.broken O.stands_for O.takes_pieces S.stands_for g limit self.new (handed ++ result) items) }
    {
        let mut items = PrintList::new(self.wiring.alloc);
        self.hand_over(&mut items);
        items
    }

    /// How many changes are in flight in a channel, and `None` exactly where there is no such channel. It takes no memory.
    pub fn in_flight(&self, edge: u32, from: u32, to: u32) -> Option<u32>
        requires ready { StandsForSome O.rule O.broken O.stands_for O.takes_pieces S.stands_for self.now }
        ensures value { ForRuns O.rule O.broken O.stands_for O.takes_pieces S.stands_for self.now (λ g limit handed items. result ≡ in_flight g (reached g limit items) edge from to) }
    {
        self.traffic.in_flight(&self.wiring, edge, from, to)
    }

    /// What a subtask keeps of a bundle. It takes no memory.
    pub fn buffered(&self, node: u32, subtask: u32) -> Buffer
        ensures { ForRuns O.rule O.broken O.stands_for O.takes_pieces S.stands_for self.now (λ g limit handed items. result ≡ buffer_at g (reached g limit items) node subtask) }
    {
        if !self.wiring.is_place(node, subtask) {
            return Buffer::NoPlace;
        }
        match self.wiring.bundle(node) {
            Some(_) => Buffer::Holds(self.operators.held(node, subtask)),
            None => Buffer::NoBuffer,
        }
    }

    /// The subtask that takes what a stage of a drain delivers, or whose bundle is flushed: its node, and its number there. `None`
    /// exactly where it delivers a channel of an edge that feeds no node. It takes no memory.
    pub fn taker(&self, stage: Stage) -> Option<(u32, u32)>
        ensures { ForRuns O.rule O.broken O.stands_for O.takes_pieces S.stands_for self.now (λ g limit handed items. result ≡ taker_of g (stage_of stage)) }
    {
        self.wiring.taker(stage)
    }

    /// How many changes were taken of a table, and `None` exactly where there is no such table. It takes no memory.
    pub fn taken(&self, table: u32) -> Option<u32>
        ensures { ForRuns O.rule O.broken O.stands_for O.takes_pieces S.stands_for self.now (λ g limit handed items. result ≡ taken_of g (reached g limit items) table) }
    {
        self.traffic.taken(table)
    }

    /// Whether no channel and no bundle holds a change: then what was printed, in all, is the batch answer over what was taken. It
    /// takes no memory.
    pub fn is_quiet(&self) -> bool
        requires ready { StandsForSome O.rule O.broken O.stands_for O.takes_pieces S.stands_for self.now }
        ensures quiet { ForRuns O.rule O.broken O.stands_for O.takes_pieces S.stands_for self.now (λ g limit handed items. result ≡ true → IsQuiet g (reached g limit items)) }
        ensures answers { result ≡ true → ForRuns O.rule O.broken O.stands_for O.takes_pieces S.stands_for self.now (λ g limit handed items. (mode : Mode) → MeetsFacts g → PrintsIn g mode → HasAnswered g mode (reached g limit items)) }
        ensures busy { ForRuns O.rule O.broken O.stands_for O.takes_pieces S.stands_for self.now (λ g limit handed items. IsQuiet g (reached g limit items) → result ≡ true) }
    {
        if !self.traffic.is_quiet(&self.wiring) {
            return false;
        }
        self.operators.are_empty()
    }
}
