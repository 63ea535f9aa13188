//! Conjuncts by what they are.
ghost use Rattle.std.specs.Prelude.{◌≡◌, ◌++◌, [], ◌∷◌, IfOk, OnOk};
ghost use Rattle.binding.specs.Queries as q;
ghost use Rattle.bind_nodes.specs.Views.{bounds_view};
ghost use Rattle.bind_nested.specs.Splits.{subqueries};
ghost use Rattle.bind_nested.specs.PartViews.{part_view, parts_view};

use crate::part::{Part, Parts};
use bind_nodes::Bounds;
use ct_value::Memory;
use rel_algebra::Pairs;
use std::alloc::Global;

/// The conditions on rows in reach, the key pairs and the other conditions that look outside, and the conjuncts with a subquery.
#[derive(Drop)]
pub(crate) struct Shares {
    pub(crate) owns: Bounds,
    pub(crate) links: Pairs,
    pub(crate) rests: Bounds,
    pub(crate) subqueries: Parts,
}

#[tactic(auto, using(crate::proofs::Splits::put, crate::proofs::Splits::owns_first, crate::proofs::Splits::links_first, crate::proofs::Splits::rests_first, crate::proofs::Splits::subqueries_first))]
pub(crate) fn split(alloc: Global, parts: Parts) -> Result<Shares, Memory>
    ensures owns { IfOk result (λ x. bounds_view x.owns ≡ q.owns (parts_view parts)) }
    ensures links { IfOk result (λ x. x.links ≡ q.links (parts_view parts)) }
    ensures rests { IfOk result (λ x. bounds_view x.rests ≡ q.rests (parts_view parts)) }
    ensures subqueries { IfOk result (λ x. parts_view x.subqueries ≡ subqueries (parts_view parts)) }
{
    let mut shares = Shares {
        owns: Bounds::new(alloc),
        links: Pairs::new(alloc),
        rests: Bounds::new(alloc),
        subqueries: Parts::new(alloc),
    };
    for part in parts.into_vec() {
        put(&mut shares, part)?;
    }
    Ok(shares)
}

// Puts one more behind those of its kind.
fn put(shares: &mut Shares, part: Part) -> Result<(), Memory>
    ensures owns { OnOk result (bounds_view shares.new.owns ≡ bounds_view shares.old.owns ++ q.owns (part_view part ∷ [])) }
    ensures links { OnOk result (shares.new.links ≡ shares.old.links ++ q.links (part_view part ∷ [])) }
    ensures rests { OnOk result (bounds_view shares.new.rests ≡ bounds_view shares.old.rests ++ q.rests (part_view part ∷ [])) }
    ensures subqueries { OnOk result (parts_view shares.new.subqueries ≡ parts_view shares.old.subqueries ++ subqueries (part_view part ∷ [])) }
{
    match part {
        Part::Own(condition) => shares.owns.push(condition),
        Part::Linked { pair, condition } => match pair {
            Some(pair) => shares.links.push(pair),
            None => shares.rests.push(condition),
        },
        Part::Matched {
            anti,
            right,
            on,
            rest,
        } => shares.subqueries.push(Part::Matched {
            anti,
            right,
            on,
            rest,
        }),
    }
}
