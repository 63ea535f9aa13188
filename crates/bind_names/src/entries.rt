//! What a select list lists.
ghost use Rattle.std.specs.Prelude.{◌≡◌, ◌∷◌, [], Some, IfOk};
ghost use Rattle.sql_syntax.specs.Tree.{items as item_list};
ghost use Rattle.sql_syntax.specs.View.{view, item_view, items_view};
ghost use Rattle.query_answer.specs.Answer.{entries, entries_of, or_no_source, placed_from, placed_of};
ghost use Rattle.query_answer.specs.Answer as a;
ghost use Rattle.query_answer.specs.SourceColumns.{item_name, plain_name};
ghost use Rattle.bind_names.specs.Entries.{entry_view, entries_view};

use crate::names::{dup_name, is_called, next_number};
use ct_value::{List, Memory, Text};
use query_answer::{Scope, ScopeColumn};
use sql_syntax::{Item, Tree};
use std::alloc::Global;

/// A column by its place, counted from 0, for a star, or what is written.
#[derive(Drop)]
pub enum Listed<'a> {
    Placed(u32),
    Written(&'a Tree),
    /// The star of a source that isn't there.
    NoSource,
}

/// What is listed, with the name of the column that it makes.
#[derive(Drop)]
pub struct Entry<'a> {
    pub listed: Listed<'a>,
    pub name: Option<Text>,
}

/// What a select list lists, in order.
pub type Entries<'a> = List<Entry<'a>>;

/// What the items of a select list over the columns in reach.
pub fn entries_of<'a>(
    alloc: Global,
    scope: &Scope,
    items: &'a [Item],
) -> Result<Entries<'a>, Memory>
    ensures { IfOk result (λ found. entries_view found ≡ entries scope.now (item_list (items_view items.now))) }
{
    let mut found = Entries::new(alloc);
    for item in items {
        found.append(item_entries(alloc, scope, item)?)?;
    }
    Ok(found)
}

#[tactic(auto, unfolding(sql_syntax::specs::View::item_view, sql_syntax::specs::View::view))]
fn item_entries<'a>(alloc: Global, scope: &Scope, item: &'a Item) -> Result<Entries<'a>, Memory>
    ensures { IfOk result (λ found. entries_view found ≡ entries_of scope.now (item_view item.now)) }
{
    match item {
        Item::All => all_placed(alloc, scope),
        Item::AllOf(source) => placed_of(alloc, scope, source),
        Item::One { value, name } => written(alloc, value, name),
    }
}

fn all_placed<'a>(alloc: Global, scope: &Scope) -> Result<Entries<'a>, Memory>
    ensures { IfOk result (λ found. entries_view found ≡ placed_from 0 scope.now) }
{
    let mut found = Entries::with_capacity(alloc, scope.len())?;
    let mut place = 0;
    for column in scope.as_slice() {
        found.push(placed(place, column)?)?;
        place = next_number(place)?;
    }
    Ok(found)
}

fn placed<'a>(place: u32, column: &ScopeColumn) -> Result<Entry<'a>, Memory>
    ensures { IfOk result (λ entry. entry_view entry ≡ record { listed = a.Placed place; name = column.now.name }) }
{
    Ok(Entry {
        listed: Listed::Placed(place),
        name: dup_name(&column.name)?,
    })
}

fn placed_of<'a>(alloc: Global, scope: &Scope, source: &Text) -> Result<Entries<'a>, Memory>
    ensures { IfOk result (λ found. entries_view found ≡ or_no_source (placed_of source.now 0 scope.now)) }
{
    let mut found = own_columns(alloc, scope, source)?;
    if found.is_empty() {
        found.push(Entry {
            listed: Listed::NoSource,
            name: None,
        })?;
    }
    Ok(found)
}

#[tactic(auto, using(crate::proofs::Stars::own, crate::proofs::Stars::other))]
fn own_columns<'a>(alloc: Global, scope: &Scope, source: &Text) -> Result<Entries<'a>, Memory>
    ensures { IfOk result (λ found. entries_view found ≡ placed_of source.now 0 scope.now) }
{
    let mut found = Entries::new(alloc);
    let mut place = 0;
    for column in scope.as_slice() {
        if is_called(source, &column.source) {
            found.push(placed(place, column)?)?;
        }
        place = next_number(place)?;
    }
    Ok(found)
}

fn written<'a>(alloc: Global, value: &'a Tree, name: &Option<Text>) -> Result<Entries<'a>, Memory>
    ensures { IfOk result (λ found. entries_view found ≡ record { listed = a.Written (view value.now); name = item_name (view value.now) name.now } ∷ []) }
{
    let name = item_name(value, name)?;
    let mut found = Entries::with_capacity(alloc, 1)?;
    found.push(Entry {
        listed: Listed::Written(value),
        name,
    })?;
    Ok(found)
}

fn item_name(value: &Tree, name: &Option<Text>) -> Result<Option<Text>, Memory>
    ensures { IfOk result (λ own. own ≡ item_name (view value.now) name.now) }
{
    match name {
        None => plain_name(value),
        Some(name) => Ok(Some(name.dup()?)),
    }
}

// A plain column gives its name.
#[tactic(auto, unfolding(sql_syntax::specs::View::view))]
fn plain_name(value: &Tree) -> Result<Option<Text>, Memory>
    ensures { IfOk result (λ own. own ≡ plain_name (view value.now)) }
{
    match value {
        Tree::Name { name, .. } => Ok(Some(name.dup()?)),
        Tree::Paren(value) => plain_name(value),
        _ => Ok(None),
    }
}
