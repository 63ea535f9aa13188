//! The rows that stand under a key.
ghost use Rattle.std.specs.Prelude.{◌≡◌, ◌==◌, ◌+◌, ◌≤◌, [], ◌∷◌, ◌++◌, None, length, OnOk, IfSome, IfNone, option_copied};
ghost use Rattle.std.specs.List.{last_or};
ghost use Rattle.ct_value.specs.Bag.{drop_one};
ghost use Rattle.ct_value.specs.Order.{row_cmp};
ghost use Rattle.op_sink.specs.Kept.{Left};

use ct_change::Steps;
use ct_value::{Memory, Row};
use std::alloc::Global;
use std::collections::VecDeque;
use std::marker::Model;
use std::sync::ledger::Ledger;

/// Rows in order of arrival, seen as their list.
#[derive(Drop)]
pub struct Standing {
    rows: VecDeque<Row>,
}

impl Model for Standing {
    ghost use Rattle.std.specs.Prelude.{List};
    ghost use Rattle.ct_value.specs.declared.row.Row.{Row as Line};

    ghost Value = { List Line };

    ghost view = { λ s. s.rows.items };
}

impl Standing {
    /// No rows. It takes no memory.
    pub fn new(alloc: Global) -> Standing
        ensures { result ≡ [] }
    {
        Standing {
            rows: VecDeque::new(alloc),
        }
    }

    /// How many there are.
    pub fn len(&self) -> usize
        ensures { result ≡ length self.now }
    {
        self.rows.len()
    }

    /// The row that came last, which is one step, and `None` exactly where there is none.
    pub fn last<L: Ledger>(&self, steps: &mut Steps<L>) -> Option<&Row>
        ensures row { option_copied result ≡ last_or None self.now }
        ensures step { IfSome result (λ _. steps.new ≡ steps.old + 1) }
        ensures no_step { IfNone result (steps.new ≡ steps.old) }
    {
        let row = self.rows.back()?;
        steps.tick();
        Some(row)
    }

    /// Puts a row behind the others.
    pub fn push(&mut self, row: Row) -> Result<(), Memory>
        ensures { OnOk result (self.new ≡ self.old ++ row ∷ []) }
    {
        self.rows.push_back(row)?;
        Ok(())
    }

    /// Takes the first copy of a row out, and answers its place, `None` exactly where there is none. Each row that is read is one step.
    /// It takes no memory.
    pub fn take_first<L: Ledger>(&mut self, row: &Row, steps: &mut Steps<L>) -> Option<usize>
        ensures gone { self.new ≡ drop_one row_cmp row.now self.old }
        ensures place { IfSome result (λ place. Left row.now place self.old self.new) }
        ensures absent { IfNone result (self.new ≡ self.old) }
        ensures cost { steps.new ≤ steps.old + length self.old }
    {
        let place = place_of(&self.rows, row, steps)?;
        self.rows.remove(place);
        Some(place)
    }
}

// The place of the first copy of a row. Each row that is read is one step.
fn place_of<L: Ledger>(rows: &VecDeque<Row>, row: &Row, steps: &mut Steps<L>) -> Option<usize>
    ensures place { IfSome result (λ place. Left row.now place rows.now.items (drop_one row_cmp row.now rows.now.items)) }
    ensures absent { IfNone result (drop_one row_cmp row.now rows.now.items ≡ rows.now.items) }
    ensures cost { steps.new ≤ steps.old + length rows.now.items }
{
    let mut place: usize = 0;
    'walk: while let Some(other) = rows.get(place) {
        steps.tick();
        if row == other {
            return Some(place);
        }
        place += 1;
    }
    None
}
