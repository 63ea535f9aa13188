//! The bound that a select outside sets on the rank of its only source.
ghost use Rattle.std.specs.Prelude.{◌≡◌, ◌<◌, length, map, option_map, IfOk, IfSome};
ghost use Rattle.sql_syntax.specs.View.{view};
ghost use Rattle.query_answer.specs.Answer as a;
ghost use Rattle.query_answer.specs.Ranks as q;
ghost use Rattle.bind_names.specs.Lookups.{lookup_of};
ghost use Rattle.bind_forms.specs.Views.{conjunct_view, ranked_view, top_view};

use crate::conjuncts::Conjuncts;
use crate::literals::bound_by;
use crate::rank_entries::{named_entries, ranked_entries};
use crate::ranked_lists::Ranked;
use bind_names::{Lookup, entries_of, plain_column};
use ct_value::{Memory, Text};
use query_answer::{Found, Scope};
use sql_syntax::Tree;
use std::alloc::Global;

/// A bound, and which conjunct sets it, counted from 0.
#[derive(Clone, Copy)]
pub struct Top {
    pub conjunct: usize,
    pub bound: u32,
}

fn is_at(place: usize, found: Found) -> bool
    ensures { result ≡ q.is_at place found }
{
    match found {
        Found::At(column, _) => column as usize == place,
        Found::Absent | Found::Several => false,
    }
}

// The bound that a conjunct sets on the column at a place.
#[tactic(auto, unfolding(sql_syntax::specs::View::view))]
fn bound_of(look: Lookup<'_>, place: usize, conjunct: &Tree) -> Result<Option<u32>, Memory>
    ensures { IfOk result (λ bound. bound ≡ q.bound_of (lookup_of look.entry) place (view conjunct.now)) }
{
    match conjunct {
        Tree::Compare { op, left, right } => {
            if is_at(place, plain_column(look, left)?) {
                return Ok(bound_by(*op, right));
            }
            Ok(None)
        }
        _ => Ok(None),
    }
}

// The first conjunct that sets one.
#[tactic(auto, using(crate::proofs::Tops::here, crate::proofs::Tops::further, crate::proofs::Tops::nowhere))]
fn first_top(
    look: Lookup<'_>,
    place: usize,
    conjuncts: &Conjuncts<'_>,
) -> Result<Option<Top>, Memory>
    ensures top { IfOk result (λ top. option_map top_view top ≡ q.top_from 0 (lookup_of look.entry) place (map conjunct_view conjuncts.now)) }
    ensures there { IfOk result (λ top. IfSome top (λ top. top.conjunct < length conjuncts.now)) }
{
    let mut conjunct = 0;
    'conjuncts: while conjunct < conjuncts.len() {
        if let Some(bound) = bound_of(look, place, conjuncts.as_slice()[conjunct].tree)? {
            return Ok(Some(Top { conjunct, bound }));
        }
        conjunct += 1;
    }
    Ok(None)
}

/// The first conjunct outside that bounds the rank of a list over these columns, under an alias.
pub fn top_of(
    alloc: Global,
    alias: &Option<Text>,
    scope: &Scope,
    ranked: Ranked<'_>,
    conjuncts: &Conjuncts<'_>,
) -> Result<Option<Top>, Memory>
    ensures top { IfOk result (λ top. option_map top_view top ≡ a.top_of alias.now scope.now (ranked_view ranked.entry) (map conjunct_view conjuncts.now)) }
    ensures there { IfOk result (λ top. IfSome top (λ top. top.conjunct < length conjuncts.now)) }
{
    let entries = ranked_entries(alloc, true, scope, ranked)?;
    let names = named_entries(alloc, alias, &entries)?;
    let ahead = entries_of(alloc, scope, ranked.ahead)?;
    first_top(Lookup::Own(&names), ahead.len(), conjuncts)
}
