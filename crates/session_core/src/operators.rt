ghost use Rattle.std.specs.Prelude.{◌≡◌, ℕ, ◌<◌, ◌+◌, ◌*◌, Bool, true, None, get_or, length, OnOk, IfOk, IfErr};
ghost use Rattle.op_rules.specs.Faults.{IfRange};
ghost use Rattle.op_rules.specs.Rules.{Answer};
ghost use Rattle.stream_model.specs.Network.{Network};
ghost use Rattle.session_core.specs.LaidOut.{IsLaidOut};
ghost use Rattle.session_subtasks.specs.Subtasks.{IsOutOf};
ghost use Rattle.session_core.specs.Relay.{RelaysIn};
ghost use Rattle.session_core.specs.Runs.{AreEmpty, ForAllRun, HasConsumed, HasFlushed, HasFlushedIn, HasTakenIn, IsEmptyAt, IsOutAt, IsOutConsuming, IsOutFlushing, IsOutFlushingIn, IsOutTakingIn, MayFlushIn, MayTakeIn, MaySomeConsume, MaySomeFlushAt, StopsConsuming, StopsFlushing};

use crate::{Feed, RelayOperator, Wiring};
use ct_change::{Change, Steps};
use ct_value::{Boxed, Memory, Row};
use op_rules::{OpFault, PieceOperator};
use session_subtasks::{Emitted, Subtask};
use std::sync::ledger::Ledger;
use stream_model::StepFault;

/// The subtasks of a job: one for each subtask of each node, and none where the node has no ports. A node has a number below
/// `nodes`.
#[derive(Drop)]
pub struct Operators<O> {
    pub nodes: usize,
    pub width: usize,
    pub items: Vec<Option<Subtask<O>>>,
    ghost few: { nodes < 1000 },
    ghost narrow: { width < 17 },
    ghost sized: { length items.items ≡ nodes * width },
}

impl<O: PieceOperator> Operators<O> {
    /// A subtask takes a change, where its node's bundles have this size: it is emitted for alone where there are none; else it
    /// joins the bundle, and a bundle that is full then is emitted for as one piece. `None` where the bundle isn't full yet.
    pub fn consume<L: Ledger>(
        &mut self,
        size: Option<u32>,
        feed: Feed,
        subtask: u32,
        change: Change,
        to: &mut Emitted,
        steps: &mut Steps<L>,
    ) -> Result<(), OpFault>
        requires node { feed.node < self.old.nodes }
        requires subtask { subtask < self.old.width }
        requires ready { MaySomeConsume O.rule O.broken O.stands_for O.takes_pieces self.old.width self.old.items.items size feed.node subtask feed.port change }
        ensures ok { OnOk result (HasConsumed O.rule O.broken O.stands_for O.takes_pieces self.old.width self.old.items.items self.new.items.items size feed.node subtask feed.port change to.new) }
        ensures range { IfRange result (λ row. IsOutConsuming O.rule O.broken O.stands_for O.takes_pieces self.old.width self.old.items.items size feed.node subtask feed.port change row) }
        ensures width { self.new.width ≡ self.old.width }
        ensures nodes { self.new.nodes ≡ self.old.nodes }
    {
        let place = self.place(feed.node, subtask);
        match self.items.get_mut(place) {
            Some(slot) => take_in(slot, size, feed.port, change, to, steps),
            None => unreachable!(),
        }
    }

    /// A subtask emits for what its bundle holds, as one piece; `None` where that is nothing.
    pub fn flush<L: Ledger>(
        &mut self,
        node: u32,
        subtask: u32,
        to: &mut Emitted,
        steps: &mut Steps<L>,
    ) -> Result<(), OpFault>
        requires node { node < self.old.nodes }
        requires subtask { subtask < self.old.width }
        requires ready { MaySomeFlushAt O.rule O.broken O.stands_for O.takes_pieces self.old.width self.old.items.items node subtask }
        ensures ok { OnOk result (HasFlushed O.rule O.broken O.stands_for O.takes_pieces self.old.width self.old.items.items self.new.items.items node subtask to.new) }
        ensures range { IfRange result (λ row. IsOutFlushing O.rule O.broken O.stands_for O.takes_pieces self.old.width self.old.items.items node subtask row) }
        ensures width { self.new.width ≡ self.old.width }
        ensures nodes { self.new.nodes ≡ self.old.nodes }
    {
        let place = self.place(node, subtask);
        match self.items.get_mut(place) {
            Some(slot) => flush_in(slot, to, steps),
            None => unreachable!(),
        }
    }

    /// How many changes a subtask's bundle holds; 0 where there is no such subtask.
    pub fn held(&self, node: u32, subtask: u32) -> u32
        ensures { ForAllRun O.rule O.broken O.stands_for O.takes_pieces self.now.width self.now.items.items (λ g bundle. node < g.count + 1 → subtask < self.now.width → result ≡ length (bundle node subtask)) }
    {
        let place = node as usize * self.width + subtask as usize;
        match self.items.get(place) {
            Some(Some(subtask)) => subtask.held(),
            Some(None) => 0,
            None => 0,
        }
    }

    /// Whether no bundle holds a change.
    pub fn are_empty(&self) -> bool
        ensures empty { ForAllRun O.rule O.broken O.stands_for O.takes_pieces self.now.width self.now.items.items (λ g bundle. self.now.nodes ≡ g.count + 1 → result ≡ true → AreEmpty g self.now.width bundle) }
        ensures busy { ForAllRun O.rule O.broken O.stands_for O.takes_pieces self.now.width self.now.items.items (λ g bundle. self.now.nodes ≡ g.count + 1 → AreEmpty g self.now.width bundle → result ≡ true) }
    {
        for node in 0..self.nodes as u32 {
            if !self.node_is_empty(node) {
                return false;
            }
        }
        true
    }

    // Whether no bundle of a node holds a change.
    fn node_is_empty(&self, node: u32) -> bool
        ensures empty { ForAllRun O.rule O.broken O.stands_for O.takes_pieces self.now.width self.now.items.items (λ g bundle. node < g.count + 1 → result ≡ true → IsEmptyAt self.now.width bundle node) }
        ensures busy { ForAllRun O.rule O.broken O.stands_for O.takes_pieces self.now.width self.now.items.items (λ g bundle. node < g.count + 1 → IsEmptyAt self.now.width bundle node → result ≡ true) }
    {
        for subtask in 0..self.width as u32 {
            if self.held(node, subtask) > 0 {
                return false;
            }
        }
        true
    }

    // Where a subtask stands.
    fn place(&self, node: u32, subtask: u32) -> usize
        requires node { node < self.now.nodes }
        requires subtask { subtask < self.now.width }
        ensures is { result ≡ node * self.now.width + subtask }
        ensures within { result < length self.now.items.items }
    {
        node as usize * self.width + subtask as usize
    }
}

impl<O: RelayOperator> Operators<O> {
    /// Whether there is such a subtask, and its operator emits each change as it came.
    pub fn relays(&self, node: u32, subtask: u32) -> bool
        ensures { result ≡ true → RelaysIn O.rule O.stands_for (get_or self.now.items.items (node * self.now.width + subtask) None) }
    {
        let place = node as usize * self.width + subtask as usize;
        match self.items.get(place) {
            Some(Some(subtask)) => subtask.operator.relays(),
            Some(None) => false,
            None => false,
        }
    }
}

// The subtask in a slot takes a change.
fn take_in<O: PieceOperator, L: Ledger>(
    slot: &mut Option<Subtask<O>>,
    size: Option<u32>,
    port: u32,
    change: Change,
    to: &mut Emitted,
    steps: &mut Steps<L>,
) -> Result<(), OpFault>
    requires ready { MayTakeIn O.rule O.broken O.stands_for O.takes_pieces slot.old size port change }
    ensures ok { OnOk result (HasTakenIn O.rule O.broken O.stands_for O.takes_pieces slot.old slot.new size port change to.new) }
    ensures range { IfRange result (λ row. IsOutTakingIn O.rule O.broken O.stands_for O.takes_pieces slot.old size port change row) }
{
    match slot {
        Some(subtask) => subtask.take(size, port, change, to, steps),
        None => unreachable!(),
    }
}

// The subtask in a slot, if there is one, emits for what its bundle holds.
fn flush_in<O: PieceOperator, L: Ledger>(
    slot: &mut Option<Subtask<O>>,
    to: &mut Emitted,
    steps: &mut Steps<L>,
) -> Result<(), OpFault>
    requires ready { MayFlushIn O.rule O.broken O.stands_for O.takes_pieces slot.old }
    ensures ok { OnOk result (HasFlushedIn O.rule O.broken O.stands_for O.takes_pieces slot.old slot.new to.new) }
    ensures range { IfRange result (λ row. IsOutFlushingIn O.rule O.broken O.stands_for O.takes_pieces slot.old row) }
{
    match slot {
        Some(subtask) => subtask.flush(to, steps),
        None => {
            to.clear();
            Ok(())
        }
    }
}

/// The same as `consume`, with a fault that says where it was.
pub fn consume_at<O: PieceOperator, L: Ledger>(
    operators: &mut Operators<O>,
    wiring: &Wiring,
    size: Option<u32>,
    feed: Feed,
    subtask: u32,
    change: Change,
    to: &mut Emitted,
    steps: &mut Steps<L>,
) -> Result<(), StepFault>
    requires node { feed.node < operators.old.nodes }
    requires typed { feed.node < length wiring.now.types.items }
    requires subtask { subtask < operators.old.width }
    requires ready { MaySomeConsume O.rule O.broken O.stands_for O.takes_pieces operators.old.width operators.old.items.items size feed.node subtask feed.port change }
    ensures ok { OnOk result (HasConsumed O.rule O.broken O.stands_for O.takes_pieces operators.old.width operators.old.items.items operators.new.items.items size feed.node subtask feed.port change to.new) }
    ensures err { IfErr result (λ fault. StopsConsuming O.rule O.broken O.stands_for O.takes_pieces wiring.now operators.old.width operators.old.items.items size feed.node subtask feed.port change fault) }
    ensures width { operators.new.width ≡ operators.old.width }
    ensures nodes { operators.new.nodes ≡ operators.old.nodes }
{
    match operators.consume(size, feed, subtask, change, to, steps) {
        Ok(()) => Ok(()),
        Err(OpFault::Range(row)) => Err(range_or_memory(wiring, feed.node, subtask, row)),
        Err(OpFault::Memory) => Err(StepFault::Memory),
    }
}

/// The same as `flush`, with a fault that says where it was.
pub fn flush_at<O: PieceOperator, L: Ledger>(
    operators: &mut Operators<O>,
    wiring: &Wiring,
    node: u32,
    subtask: u32,
    to: &mut Emitted,
    steps: &mut Steps<L>,
) -> Result<(), StepFault>
    requires node { node < operators.old.nodes }
    requires typed { node < length wiring.now.types.items }
    requires subtask { subtask < operators.old.width }
    requires ready { MaySomeFlushAt O.rule O.broken O.stands_for O.takes_pieces operators.old.width operators.old.items.items node subtask }
    ensures ok { OnOk result (HasFlushed O.rule O.broken O.stands_for O.takes_pieces operators.old.width operators.old.items.items operators.new.items.items node subtask to.new) }
    ensures err { IfErr result (λ fault. StopsFlushing O.rule O.broken O.stands_for O.takes_pieces wiring.now operators.old.width operators.old.items.items node subtask fault) }
    ensures width { operators.new.width ≡ operators.old.width }
    ensures nodes { operators.new.nodes ≡ operators.old.nodes }
{
    match operators.flush(node, subtask, to, steps) {
        Ok(()) => Ok(()),
        Err(OpFault::Range(row)) => Err(range_or_memory(wiring, node, subtask, row)),
        Err(OpFault::Memory) => Err(StepFault::Memory),
    }
}

// The fault of a subtask that is out of range at a row, unless memory is wanting.
fn range_or_memory(wiring: &Wiring, node: u32, subtask: u32, row: Row) -> StepFault
    requires typed { node < length wiring.now.types.items }
    ensures { (g : Network) (limit : ℕ) (due : Bool) (answer : Answer) → IsLaidOut wiring.now g limit → IsOutOf due answer row → IsOutAt g node subtask due answer result }
{
    match range_at(wiring, node, subtask, row) {
        Ok(fault) => fault,
        Err(Memory) => StepFault::Memory,
    }
}

// The same fault, which lies in memory of its own.
fn range_at(wiring: &Wiring, node: u32, subtask: u32, row: Row) -> Result<StepFault, Memory>
    requires typed { node < length wiring.now.types.items }
    ensures { IfOk result (λ fault. (g : Network) (limit : ℕ) (due : Bool) (answer : Answer) → IsLaidOut wiring.now g limit → IsOutOf due answer row → IsOutAt g node subtask due answer fault) }
{
    let types = wiring.types_of(node)?;
    let row = Boxed::new(wiring.alloc, row)?;
    let tys = Boxed::new(wiring.alloc, types)?;
    Ok(StepFault::Range {
        node,
        subtask,
        row,
        tys,
    })
}
