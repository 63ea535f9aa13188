//! How large what is bound becomes: a tree of the script may nest long chains, and BETWEEN binds its operand twice.
use crate::bound::Bounds;
use ct_value::Memory;

// A walk over an expression takes stack at each of its levels.
const MOST_LEVELS: u32 = 1_200;

const MOST_NODES: u32 = 1_000_000;
// A script may have BETWEEN often, and of what was copied.
const MOST_COPIED: u32 = 10_000;

/// How many levels and nodes an expression has.
#[derive(Clone, Copy)]
pub(crate) struct Size {
    levels: u32,
    nodes: u32,
}

impl Size {
    // No operands at all.
    pub(crate) fn none() -> Size {
        Size {
            levels: 0,
            nodes: 0,
        }
    }

    // Side by side.
    pub(crate) fn with(self, other: Size) -> Size {
        Size {
            levels: self.levels.max(other.levels),
            nodes: self.nodes.saturating_add(other.nodes),
        }
    }

    // Refuses what is too large to be copied, before it is.
    pub(crate) fn copied(self) -> Result<(), Memory> {
        if self.nodes > MOST_COPIED {
            return Err(Memory);
        }
        Ok(())
    }

    // With a node above. What is too large wants more memory than there is.
    pub(crate) fn above(self) -> Result<Size, Memory> {
        if self.levels >= MOST_LEVELS || self.nodes >= MOST_NODES {
            return Err(Memory);
        }
        Ok(Size {
            levels: self.levels + 1,
            nodes: self.nodes + 1,
        })
    }
}

// All of these side by side.
pub(crate) fn together(bounds: &Bounds) -> Size {
    let mut all = Size::none();
    for bound in bounds.as_slice() {
        all = all.with(bound.size);
    }
    all
}
