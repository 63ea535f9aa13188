//! The way down the first inputs of a tree.
ghost use Rattle.std.specs.Prelude.{◌≡◌, map, IfOk};
ghost use Rattle.rel_algebra.specs.View.{rel_view};
ghost use Rattle.plan_laying.specs.Ways.{seen, way_of};

use crate::steps::first_input;
use ct_value::{List, Memory};
use rel_algebra::Rel;
use std::alloc::Global;

/// A tree, its first input, the first input of that, and so on.
pub(crate) fn way_down<'a>(alloc: Global, rel: &'a Rel) -> Result<List<&'a Rel>, Memory>
    ensures { IfOk result (λ way. map seen way ≡ way_of (rel_view rel.now)) }
{
    let mut way = List::new(alloc);
    let mut next = Some(rel);
    'down: while let Some(top) = next {
        next = first_input(top);
        way.push(top)?;
    }
    Ok(way)
}
