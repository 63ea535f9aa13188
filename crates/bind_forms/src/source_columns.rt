//! Of which names the sources of a FROM have columns.
ghost use Rattle.std.specs.Prelude.{◌≡◌, ◌&&◌, None, option_map};
ghost use Rattle.std.specs.List.{list_any};
ghost use Rattle.std.specs.Option.{unwrap_or};
ghost use Rattle.std.specs.Str.{bytes_eq};
ghost use Rattle.sql_syntax.specs.Tree.{items as item_list, joins as join_list};
ghost use Rattle.sql_syntax.specs.View.{item_view, items_view, joins_view, query_view, select_view, source_view, view};
ghost use Rattle.query_answer.specs.Names as n;
ghost use Rattle.query_answer.specs.SourceColumns as q;
ghost use Rattle.bind_forms.specs.Meant.{meant_by};

use ct_catalog::{Sources, TableDef};
use ct_value::Text;
use sql_syntax::{Item, Items, JoinItems, Query, Select, Source, Tree};

/// Which sources are meant.
#[derive(Clone, Copy)]
pub(crate) enum Meant<'a> {
    /// That of this name, or all of them.
    Of(&'a Option<Text>),
    /// Those whose columns a star of these items lists.
    Listed(&'a Items),
}

fn is_name(name: &Text, own: Option<&Text>) -> bool
    ensures { result ≡ n.is_called name.now (option_map (λ x. x.now) own.entry) }
{
    match own {
        None => false,
        Some(own) => name.is(own.as_slice()),
    }
}

#[tactic(auto, unfolding(sql_syntax::specs::View::item_view))]
fn by_star(items: &Items, source: Option<&Text>) -> bool
    ensures { result ≡ q.by_star (item_list (items_view items.now)) (option_map (λ x. x.now) source.entry) }
{
    for item in items.as_slice() {
        match item {
            Item::All => return true,
            Item::AllOf(name) => {
                if is_name(name, source) {
                    return true;
                }
            }
            Item::One { .. } => {}
        }
    }
    false
}

fn of_source(name: &Option<Text>, source: Option<&Text>) -> bool
    ensures { result ≡ q.of_source name.now (option_map (λ x. x.now) source.entry) }
{
    match name {
        None => true,
        Some(name) => is_name(name, source),
    }
}

fn is_meant(meant: &Meant<'_>, source: Option<&Text>) -> bool
    ensures { result ≡ meant_by meant.now (option_map (λ x. x.now) source.entry) }
{
    match meant {
        Meant::Of(name) => of_source(name, source),
        Meant::Listed(items) => by_star(items, source),
    }
}

// Whether a plain column has this name.
#[tactic(auto, unfolding(sql_syntax::specs::View::view))]
fn is_plain_name(name: &Text, tree: &Tree) -> bool
    ensures { result ≡ n.is_called name.now (q.plain_name (view tree.now)) }
{
    match tree {
        Tree::Name { name: own, .. } => name.is(own.as_slice()),
        Tree::Paren(value) => is_plain_name(name, value),
        _ => false,
    }
}

fn is_item_name(name: &Text, tree: &Tree, own: &Option<Text>) -> bool
    ensures { result ≡ n.is_called name.now (q.item_name (view tree.now) own.now) }
{
    match own {
        None => is_plain_name(name, tree),
        Some(own) => name.is(own.as_slice()),
    }
}

#[tactic(auto, unfolding(sql_syntax::specs::View::item_view, sql_syntax::specs::View::view))]
fn makes(name: &Text, items: &Items) -> bool
    ensures { result ≡ q.makes name.now (item_list (items_view items.now)) }
{
    for item in items.as_slice() {
        match item {
            Item::All | Item::AllOf(_) => {}
            Item::One { value, name: own } => {
                if is_item_name(name, value, own) {
                    return true;
                }
            }
        }
    }
    false
}

fn has_column(table: &TableDef, name: &Text) -> bool
    ensures { result ≡ list_any (λ c. bytes_eq name.now c.name) table.now.cols }
{
    table
        .cols
        .as_slice()
        .iter()
        .any(|column| name.is(column.name.as_slice()))
}

fn is_with(table: &TableDef, called: &Text, name: &Text) -> bool
    ensures { result ≡ (bytes_eq called.now table.now.name && list_any (λ c. bytes_eq name.now c.name) table.now.cols) }
{
    called.is(table.name.as_slice()) && has_column(table, name)
}

fn table_has(sources: &Sources, table: &Text, name: &Text) -> bool
    ensures { result ≡ q.table_has sources.now table.now name.now }
{
    sources
        .as_slice()
        .iter()
        .any(|source| is_with(source, table, name))
}

fn own_name<'a>(table: &'a Text, alias: &'a Option<Text>) -> &'a Text
    ensures { result.now ≡ unwrap_or alias.now table.now }
{
    match alias {
        Some(alias) => alias,
        None => table,
    }
}

#[cycle(columns)]
#[tactic(auto, unfolding(sql_syntax::specs::View::source_view, sql_syntax::specs::View::query_view))]
fn source_has(sources: &Sources, meant: &Meant<'_>, name: &Text, source: &Source) -> bool
    ensures { result ≡ q.source_has sources.now (meant_by meant.now) name.now (source_view source.now) }
{
    match source {
        Source::Table { name: table, alias } => {
            is_meant(meant, Some(own_name(table, alias))) && table_has(sources, table, name)
        }
        Source::Sub { query, alias } => {
            is_meant(meant, alias.as_ref()) && query_has(sources, name, query)
        }
    }
}

#[cycle(columns)]
fn joins_have(sources: &Sources, meant: &Meant<'_>, name: &Text, joins: &JoinItems) -> bool
    ensures { result ≡ q.joins_have sources.now (meant_by meant.now) name.now (join_list (joins_view joins.now)) }
{
    for join in joins.as_slice() {
        if source_has(sources, meant, name, &join.source) {
            return true;
        }
    }
    false
}

#[cycle(columns)]
fn query_has(sources: &Sources, name: &Text, query: &Query) -> bool
    ensures { result ≡ q.query_has sources.now name.now (query_view query.now) }
{
    select_has(sources, name, &query.first.first)
}

#[cycle(columns)]
#[tactic(auto, using(sql_syntax::proofs::laws::Views::select))]
fn select_has(sources: &Sources, name: &Text, select: &Select) -> bool
    ensures { result ≡ q.select_has sources.now name.now (select_view select.now) }
{
    let meant = Meant::Listed(&select.items);
    makes(name, &select.items)
        || source_has(sources, &meant, name, &select.from)
        || joins_have(sources, &meant, name, &select.joins)
}

/// Whether one of these sources that are meant has a column of this name.
pub(crate) fn sources_have(
    sources: &Sources,
    meant: &Meant<'_>,
    name: &Text,
    from: &Source,
    joins: &JoinItems,
) -> bool
    ensures { result ≡ q.sources_have sources.now (meant_by meant.now) name.now (source_view from.now) (join_list (joins_view joins.now)) }
{
    source_has(sources, meant, name, from) || joins_have(sources, meant, name, joins)
}
