//! Changes by the groups of their rows.
ghost use Rattle.std.specs.Prelude.{◌≡◌, ◌<◌, ◌^◌, length, take, IfOk, OnOk};
ghost use Rattle.mini_batch.specs.Held.{held_in, with_change};
ghost use Rattle.mini_batch.specs.Groups.{by_group};

use crate::Bundle;
use ct_change::{Change, Changes};
use ct_value::Memory;
use std::alloc::Global;

impl Bundle {
    /// These changes, by the groups that the first `keys` values of their rows name, each group's in their order.
    pub fn of_changes(alloc: Global, keys: u32, changes: Changes) -> Result<Bundle, Memory>
        requires { length changes < 2 ^ 32 }
        ensures entries { IfOk result (λ bundle. bundle.entries ≡ by_group keys changes) }
        ensures held { IfOk result (λ bundle. held_in bundle.entries ≡ length changes) }
    {
        let mut bundle = Bundle::new(alloc, u32::MAX);
        for change in changes {
            put_in(&mut bundle, keys, change)?;
        }
        Ok(bundle)
    }
}

// One more change, with its group's.
fn put_in(bundle: &mut Bundle, keys: u32, change: Change) -> Result<(), Memory>
    requires { held_in bundle.old.entries < bundle.old.size }
    ensures put { OnOk result (bundle.new.entries ≡ with_change bundle.old.entries (take keys change.row) change) }
    ensures size { OnOk result (bundle.new.size ≡ bundle.old.size) }
{
    bundle.push_by_first(keys, change)?;
    Ok(())
}
