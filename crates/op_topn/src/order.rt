//! The columns that rows are ordered by, with several owners.
ghost use Rattle.std.specs.Prelude.{◌≡◌, IfOk};

use ct_value::Memory;
use rel_algebra::{SortCol, Sorts};
use std::alloc::Global;
use std::marker::Model;
use std::rc::Rc;

/// The columns by which rows are ordered, the first one first. Keys share them, so that each holds a pointer alone.
#[derive(Debug, Drop)]
pub struct RankOrder {
    shared: Rc<Sorts>,
}

impl Model for RankOrder {
    ghost use Rattle.std.specs.Prelude.{List};
    ghost use Rattle.rel_algebra.specs.declared.sort.SortCol.{SortCol as Column};

    ghost Value = { List Column };

    ghost view = { λ o. o.shared.value };
}

impl RankOrder {
    /// The order by these columns.
    pub fn new(alloc: Global, sorts: Sorts) -> Result<RankOrder, Memory>
        ensures { IfOk result (λ order. order ≡ sorts) }
    {
        Ok(RankOrder {
            shared: Rc::new(alloc, sorts)?,
        })
    }

    /// One more owner of the same columns. It takes no memory, and fails only where no more owners can be counted.
    pub fn share(&self) -> Result<RankOrder, Memory>
        ensures { IfOk result (λ order. order ≡ self.now) }
    {
        Ok(RankOrder {
            shared: self.shared.clone()?,
        })
    }

    /// The columns.
    pub fn as_slice(&self) -> &[SortCol]
        ensures { result.now ≡ self.now }
    {
        self.shared.as_ref().as_slice()
    }
}
