//! The rule of keys.
ghost use Rattle.std.specs.Prelude.{◌≡◌, option_copied};
ghost use Rattle.plan_inferred.specs.Rules as r;
ghost use Rattle.plan_inferred.specs.Same as s;

use crate::Inferred;
use column_sets::Sets;
use phys_plan::{KeyInfo, Node, Plan, numbered};

/// Whether a node, by its number, from 1, says the keys that are inferred of it.
pub fn has_keys(inferred: &Inferred, plan: &Plan, number: u32) -> bool
    ensures { result ≡ r.has_keys inferred.now plan.now number }
{
    let keys = numbered(inferred.keys.as_slice(), number);
    says_keys(keys, numbered(plan.nodes.as_slice(), number))
}

fn says_keys(keys: Option<&KeyInfo>, node: Option<&Node>) -> bool
    ensures { result ≡ r.says_keys (option_copied keys.entry) (option_copied node.entry) }
{
    match node {
        None => true,
        Some(node) => match keys {
            None => false,
            Some(keys) => same_keys(keys, &node.keys),
        },
    }
}

fn same_keys(keys: &KeyInfo, other: &KeyInfo) -> bool
    ensures { result ≡ s.same_keys keys.now other.now }
{
    same_sets(&keys.unique, &other.unique)
        && same_sets(&keys.local, &other.local)
        && same_sets(&keys.fixing, &other.fixing)
}

fn same_sets(sets: &Sets, others: &Sets) -> bool
    ensures { result ≡ s.same_sets sets.now others.now }
{
    if sets.len() != others.len() {
        return false;
    }
    for i in 0..sets.len() {
        if sets.as_slice()[i].as_slice() != others.as_slice()[i].as_slice() {
            return false;
        }
    }
    true
}
