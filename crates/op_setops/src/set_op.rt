//! The operator of set operations.
ghost use Rattle.std.specs.Prelude.{◌≡◌, ◌++◌, ◌+◌, ◌<◌, ◌^◌, ◌==◌, [], cond, false, OnOk};
ghost use Rattle.ct_value.specs.Bag as bag;
ghost use Rattle.ct_change.specs.Changelog.{retract, apply, MayCome};
ghost use Rattle.emission_rules.specs.SetOps.{number_in, told_by_numbers};
ghost use Rattle.op_setops.specs.Kept.{told_between};

use ct_change::{Bag, Change, Changes, Kind, Steps};
use ct_value::{Memory, Row};
use op_rules::{OpFault, Operator};
use rel_algebra::set_copies;
use std::alloc::Global;
use std::sync::ledger::Ledger;

/// The operator of EXCEPT and INTERSECT, with ALL or without (Flink documentation, "Set Operations"). It keeps the rows of both
/// inputs with their counts.
#[derive(Drop)]
pub struct SetOp {
    alloc: Global,
    except: bool,
    all: bool,
    left: Bag,
    right: Bag,
    broken: bool,
}

impl SetOp {
    ghost use Rattle.emission_rules.specs.SetOps.{set_rule};

    /// EXCEPT, or else INTERSECT, of no rows; with `all` each copy of a row counts. It takes no memory.
    pub fn new(alloc: Global, except: bool, all: bool) -> SetOp
        ensures rule { ⟦<SetOp as Operator>⟧.rule result ≡ set_rule (record { except = except; all = all }) }
        ensures stands { ⟦<SetOp as Operator>⟧.stands_for result [] }
        ensures whole { ⟦<SetOp as Operator>⟧.broken result ≡ false }
    {
        SetOp {
            alloc,
            except,
            all,
            left: Bag::new(alloc),
            right: Bag::new(alloc),
            broken: false,
        }
    }

    // How many copies of a row the operation leaves.
    fn number(&self, row: &Row) -> u64
        ensures { result ≡ number_in (record { except = self.now.except; all = self.now.all }) self.now.left self.now.right row.now }
    {
        set_copies(
            self.except,
            self.all,
            self.left.count(row),
            self.right.count(row),
        )
    }

    // Puts a change into the rows of its port.
    fn put(&mut self, port: u32, change: Change) -> Result<(), Memory>
        requires may { MayCome retract (cond (port == 0) self.old.left self.old.right) change }
        requires room { bag.copies (cond (port == 0) self.old.left self.old.right) change.row + 1 < 2 ^ 64 }
        ensures left { OnOk result (self.new.left ≡ cond (port == 0) (apply retract self.old.left change) self.old.left) }
        ensures right { OnOk result (self.new.right ≡ cond (port == 0) self.old.right (apply retract self.old.right change)) }
        ensures same { (self.new.except ≡ self.old.except) × (self.new.all ≡ self.old.all) × (self.new.broken ≡ self.old.broken) }
    {
        if port == 0 {
            put_into(&mut self.left, change)
        } else {
            put_into(&mut self.right, change)
        }
    }

    // Takes a change of a port, and puts what is told of it behind the others.
    fn take(&mut self, port: u32, change: Change, to: &mut Changes) -> Result<(), Memory>
        requires may { MayCome retract (cond (port == 0) self.old.left self.old.right) change }
        requires room { bag.copies (cond (port == 0) self.old.left self.old.right) change.row + 1 < 2 ^ 64 }
        ensures sent { OnOk result (to.new ≡ to.old ++ told_between (record { except = self.old.except; all = self.old.all }) self.old.left self.old.right self.new.left self.new.right change.row) }
        ensures left { OnOk result (self.new.left ≡ cond (port == 0) (apply retract self.old.left change) self.old.left) }
        ensures right { OnOk result (self.new.right ≡ cond (port == 0) self.old.right (apply retract self.old.right change)) }
        ensures same { (self.new.except ≡ self.old.except) × (self.new.all ≡ self.old.all) × (self.new.broken ≡ self.old.broken) }
    {
        let row = change.row.dup()?;
        let old = self.number(&row);
        self.put(port, change)?;
        let new = self.number(&row);
        tell(old, new, row, to)
    }
}

impl Operator for SetOp {
    ghost use Rattle.emission_rules.specs.SetOps.{set_rule};
    ghost use Rattle.op_setops.specs.Kept.{AreRows};

    ghost rule = { λ s. set_rule (record { except = s.except; all = s.all }) };

    ghost broken = { λ s. s.broken };

    ghost stands_for = { λ s before. AreRows s.left s.right before };

    fn opening(&mut self, _subtask: u32) -> Result<Changes, Memory> {
        Ok(Changes::new(self.alloc))
    }

    fn consume<L: Ledger>(
        &mut self,
        port: u32,
        change: Change,
        to: &mut Changes,
        _steps: &mut Steps<L>,
    ) -> Result<(), OpFault> {
        self.broken = true;
        self.take(port, change, to)?;
        self.broken = false;
        Ok(())
    }

    fn is_broken(&self) -> bool {
        self.broken
    }
}

// Puts a change into rows.
fn put_into(rows: &mut Bag, change: Change) -> Result<(), Memory>
    requires may { MayCome retract rows.old change }
    requires room { bag.copies rows.old change.row + 1 < 2 ^ 64 }
    ensures { OnOk result (rows.new ≡ apply retract rows.old change) }
{
    if change.kind.is_addition() {
        rows.add(change.row)?;
    } else {
        rows.remove(&change.row);
    }
    Ok(())
}

// `+I` of a row where its number rises, `-D` where it falls, and else nothing.
fn tell(old: u64, new: u64, row: Row, to: &mut Changes) -> Result<(), Memory>
    ensures { OnOk result (to.new ≡ to.old ++ told_by_numbers old new row) }
{
    if old < new {
        to.push(Change::new(Kind::I, row))?;
    } else if new < old {
        to.push(Change::new(Kind::D, row))?;
    }
    Ok(())
}
