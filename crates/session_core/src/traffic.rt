ghost use Rattle.std.specs.Prelude.{◌≡◌, ◌+◌, ◌<◌, ◌≤◌, ◌&&◌, ◌^◌, nat_lt, nat_le, [], length, get_or, set, ℕ, List, Some, None, Ok, OnOk, OnErr, IfOk, IfErr};
ghost use Rattle.ct_change.specs.declared.change.Change.{Change as Told};
ghost use Rattle.stream_model.specs.Network.{Network};
ghost use Rattle.stream_model.specs.Machine as machine;
ghost use Rattle.stream_model.specs.Machine.{State};
ghost use Rattle.stream_model.specs.Tables.{Table, scanned_at};
ghost use Rattle.stream_model.specs.Runs.{told_quiet};
ghost use Rattle.stream_model.specs.Drain.{StopsBy};
ghost use Rattle.stream_model.specs.declared.events.PrintItem.{PrintItem};
ghost use Rattle.session_core.specs.LaidOut.{IsThere};
ghost use Rattle.session_core.specs.Kept.{Carries, CarriesSome, Fetches, ForCarried, ForEach, ForSome, HasHandedOn, HasScanned, MayHandOn, MayScan};

use crate::printing::print_all;
use crate::{Feed, Lane, Wiring};
use ct_change::{Change, Changes};
use ct_value::{Memory, OrderCode};
use session_channels::{Channels, scan_all, send_all};
use session_subtasks::Emitted;
use stream_model::{Counts, PrintItem, PrintList, StepFault};

/// What is in flight, what was printed and not yet handed out, and how many changes were taken, in all and of each table.
#[derive(Drop)]
pub struct Traffic {
    pub channels: Channels,
    pub printed: PrintList,
    pub took: u32,
    pub counts: Vec<u32>,
}

impl Traffic {
    /// Takes the front of a channel, and answers the port that it feeds.
    pub fn fetch(
        &mut self,
        wiring: &Wiring,
        edge: u32,
        from: u32,
        to: u32,
    ) -> Result<(Feed, Change), StepFault>
        requires ready { CarriesSome wiring.now self.old }
        ensures ok { IfOk result (λ got. ForCarried wiring.now self.old (Fetches self.new edge from to got.0 got.1)) }
        ensures err { IfErr result (λ fault. ForCarried wiring.now self.old (λ g limit handed s. StopsBy (machine.move g limit s edge from to) fault)) }
        ensures printed { self.new.printed ≡ self.old.printed }
    {
        let Some(feed) = wiring.feed(edge) else {
            return Err(StepFault::Order(OrderCode::NoSuchPlace));
        };
        if !wiring.is_channel(edge, from, to) {
            return Err(StepFault::Order(OrderCode::NoSuchPlace));
        }
        match self.channels.take_front(edge, from, to) {
            Some(change) => Ok((feed, change)),
            None => Err(StepFault::Order(OrderCode::TooFew(0))),
        }
    }

    /// What a subtask emits is printed by the sink, and sent by any other node unless that would pass the limit; its list is left empty.
    pub fn hand_on(
        &mut self,
        wiring: &Wiring,
        node: u32,
        subtask: u32,
        changes: &mut Changes,
    ) -> Result<(), StepFault>
        requires ready { ForSome (MayHandOn wiring.now self.old node subtask changes.old) }
        ensures emptied { OnOk result (changes.new ≡ []) }
        ensures ok { OnOk result (ForEach (MayHandOn wiring.now self.old node subtask changes.old) (HasHandedOn self.new node subtask changes.old)) }
        ensures err { IfErr result (λ fault. ForEach (MayHandOn wiring.now self.old node subtask changes.old) (λ g limit handed s. StopsBy (machine.hand_on g limit node subtask changes.old s) fault)) }
        ensures printed { OnErr result (self.new.printed ≡ self.old.printed) }
    {
        if node == wiring.nodes {
            print_all(&mut self.printed, changes)?;
            return Ok(());
        }
        if ((wiring.limit - self.channels.sent) as usize) < changes.len() {
            return Err(StepFault::Limit);
        }
        let route = &wiring.routes[node as usize];
        send_all(
            wiring.alloc,
            &mut self.channels,
            route,
            node,
            subtask,
            changes,
        )?;
        Ok(())
    }

    /// The same of what it emitted for its bundle, if that was due.
    pub fn hand_emitted(
        &mut self,
        wiring: &Wiring,
        node: u32,
        subtask: u32,
        emitted: &mut Emitted,
    ) -> Result<(), StepFault>
        requires ready { (changes : List Told) → emitted.old ≡ Some changes → ForSome (MayHandOn wiring.now self.old node subtask changes) }
        ensures idle { emitted.old ≡ None → (result ≡ Ok tt) × (self.new ≡ self.old) }
        ensures emptied { OnOk result (emitted.new ≡ None) }
        ensures ok { OnOk result ((changes : List Told) → emitted.old ≡ Some changes → ForEach (MayHandOn wiring.now self.old node subtask changes) (HasHandedOn self.new node subtask changes)) }
        ensures err { IfErr result (λ fault. (changes : List Told) → emitted.old ≡ Some changes → ForEach (MayHandOn wiring.now self.old node subtask changes) (λ g limit handed s. StopsBy (machine.hand_on g limit node subtask changes s) fault)) }
        ensures printed { OnErr result (self.new.printed ≡ self.old.printed) }
    {
        if !emitted.due {
            return Ok(());
        }
        emitted.due = false;
        self.hand_on(wiring, node, subtask, &mut emitted.changes)
    }

    /// The scans of a table send a change, unless that would pass the limit.
    pub fn scan(&mut self, wiring: &Wiring, table: u32, change: Change) -> Result<(), StepFault>
        requires ready { (of : Table) × ForSome (MayScan wiring.now self.old table change of) }
        ensures ok { OnOk result ((of : Table) → ForEach (MayScan wiring.now self.old table change of) (HasScanned self.new table change of)) }
        ensures err { IfErr result (λ fault. (of : Table) → ForEach (MayScan wiring.now self.old table change of) (λ g limit handed s. StopsBy (machine.take_within g limit s table change (scanned_at of change)) fault)) }
        ensures printed { self.new.printed ≡ self.old.printed }
    {
        let Some(kept) = wiring.table(table) else {
            unreachable!()
        };
        if !has_room(
            wiring.limit,
            self.took,
            self.channels.sent,
            kept.scans.len(),
        ) {
            return Err(StepFault::Limit);
        }
        let from = kept
            .spread
            .subtask(wiring.alloc, wiring.parallelism, &change.row)?;
        let scans = &kept.scans;
        scan_all(
            wiring.alloc,
            &mut self.channels,
            &wiring.routes,
            scans,
            from,
            change,
        )?;
        self.took += 1;
        count_one(&mut self.counts, table);
        Ok(())
    }

    /// How many changes are in flight in a channel that is there.
    pub fn held(&self, lane: Lane) -> u32
        requires ready { (g : Network) × (limit : ℕ) × (handed : List PrintItem) × (s : State) × IsThere g lane × Carries self.now g limit handed s }
        ensures { (g : Network) (limit : ℕ) (handed : List PrintItem) (s : State) → IsThere g lane → Carries self.now g limit handed s → result ≡ length (s.flight lane.edge lane.from lane.to) }
    {
        self.channels.in_flight(lane.edge, lane.from, lane.to)
    }

    /// Prints that the job is quiet, with how many changes were taken of each table. After want of memory nothing is printed.
    pub fn tell_quiet(&mut self) -> Result<(), Memory>
        ensures ok { OnOk result ((g : Network) (limit : ℕ) (handed : List PrintItem) (s : State) → Carries self.old g limit handed s → Carries self.new g limit handed (told_quiet g s)) }
        ensures err { OnErr result (self.new.printed ≡ self.old.printed) }
    {
        let counts = listed(&self.counts)?;
        self.printed.push(PrintItem::Quiet(counts))
    }
}

// One more change was taken of a table.
fn count_one(counts: &mut Vec<u32>, table: u32)
    requires table { table < length counts.old.items }
    requires room { get_or counts.old.items table 0 + 1 < 2 ^ 32 }
    ensures { counts.new.items ≡ set counts.old.items table (get_or counts.old.items table 0 + 1) }
{
    counts[table as usize] += 1;
}

// These counts, to be printed.
fn listed(counts: &Vec<u32>) -> Result<Counts, Memory>
    ensures { IfOk result (λ list. list ≡ counts.now.items) }
{
    let mut list = Counts::with_capacity(*counts.allocator(), counts.len())?;
    for count in counts.as_slice() {
        list.push(*count)?;
    }
    Ok(list)
}

// Whether one more change may be taken, and so many sent.
fn has_room(limit: u32, took: u32, sent: u32, count: usize) -> bool
    requires { sent ≤ limit }
    ensures { result ≡ (nat_lt took limit && nat_le (sent + count) limit) }
{
    took < limit && count <= (limit - sent) as usize
}
