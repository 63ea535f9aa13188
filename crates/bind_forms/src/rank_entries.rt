//! What a list with a rank lists, and the names under which that is found from outside.
ghost use Rattle.std.specs.Prelude.{◌≡◌, Some, IfOk};
ghost use Rattle.rel_algebra.specs.Ranks.{rank_column};
ghost use Rattle.query_answer.specs.Answer as a;
ghost use Rattle.bind_names.specs.Entries.{entries_view, entry_view};
ghost use Rattle.bind_forms.specs.Lists.{with_entry, named_entries};
ghost use Rattle.bind_forms.specs.Views.{ranked_view};

use crate::ranked_lists::Ranked;
use bind_names::{Entries, Entry, Listed, dup_name, entries_of};
use ct_value::{ColTy, Memory, Text, Ty};
use query_answer::{Scope, ScopeColumn};
use std::alloc::Global;

// The rank is the column behind those of the sources.
fn rank_entry<'a>(scope: &Scope, name: &Text) -> Result<Entry<'a>, Memory>
    ensures { IfOk result (λ entry. entry_view entry ≡ a.rank_entry scope.now name.now) }
{
    let Ok(place) = u32::try_from(scope.len()) else {
        return Err(Memory);
    };
    Ok(Entry {
        listed: Listed::Placed(place),
        name: Some(name.dup()?),
    })
}

// Entries with that of the rank, where it is kept.
fn with_rank<'a>(
    kept: bool,
    entries: Entries<'a>,
    scope: &Scope,
    name: &Text,
) -> Result<Entries<'a>, Memory>
    ensures { IfOk result (λ all. entries_view all ≡ with_entry kept (entries_view entries.entry) (a.rank_entry scope.now name.now)) }
{
    let mut all = entries;
    if kept {
        all.push(rank_entry(scope, name)?)?;
    }
    Ok(all)
}

/// What a list with a rank lists over the columns of its sources, with the rank where it is kept.
#[tactic(auto, using(crate::proofs::Entries::all_listed))]
pub fn ranked_entries<'a>(
    alloc: Global,
    kept: bool,
    scope: &Scope,
    ranked: Ranked<'a>,
) -> Result<Entries<'a>, Memory>
    ensures { IfOk result (λ all. entries_view all ≡ a.ranked_entries kept scope.now (ranked_view ranked.entry)) }
{
    let ahead = entries_of(alloc, scope, ranked.ahead)?;
    let mut all = with_rank(kept, ahead, scope, ranked.name)?;
    all.append(entries_of(alloc, scope, ranked.behind)?)?;
    Ok(all)
}

// The column under which an entry is found; its type has no meaning.
fn named(alias: &Option<Text>, entry: &Entry<'_>) -> Result<ScopeColumn, Memory>
    ensures { IfOk result (λ c. c ≡ a.under alias.now (entry_view entry.now).name rank_column) }
{
    let source = dup_name(alias)?;
    let name = dup_name(&entry.name)?;
    Ok(ScopeColumn {
        source,
        name,
        ty: ColTy {
            ty: Ty::BigInt,
            nullable: false,
        },
    })
}

/// The names of entries, under an alias.
pub(crate) fn named_entries(
    alloc: Global,
    alias: &Option<Text>,
    entries: &Entries<'_>,
) -> Result<Scope, Memory>
    ensures { IfOk result (λ scope. scope ≡ named_entries alias.now (entries_view entries.now)) }
{
    let mut scope = Scope::with_capacity(alloc, entries.len())?;
    for entry in entries.as_slice() {
        scope.push(named(alias, entry)?)?;
    }
    Ok(scope)
}
