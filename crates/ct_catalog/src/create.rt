//! What CREATE TABLE declares, and what it is refused as.
ghost use Rattle.std.specs.Prelude.{◌≡◌, ◌≤◌, ◌∷◌, ◌++◌, [], length, option_map, option_to_list, slice_get, unwrap_or, OnOk, IfOk};
ghost use Rattle.std.specs.List.{list_all};
ghost use Rattle.ct_catalog.specs.Tables.{has_name, repeats, column_names, has_types, keys, columns, places, mode_of, last_mode, declared_mode, has_unknown_mode, is_upsert, is_bad_key, lacks_key, has_table, create_refusal, table_of};

use crate::types::type_of;
use crate::{ColDef, ColDefs, TableDef};
use ct_change::Declared;
use ct_value::{ColTy, Cols, List, Memory, ScriptCode, Text};
use sql_syntax::{Element, TextPair, Texts};
use std::alloc::Global;
use std::collections::BTreeSet;

const MOST_COLUMNS: usize = 64;

/// What a CREATE TABLE is refused as, if it is. `names` are its columns' names, and
/// `key_lists` its keys.
pub(crate) fn create_refusal(
    alloc: Global,
    tables: &[TableDef],
    name: &Text,
    elements: &[Element],
    options: &[TextPair],
    names: &[Text],
    key_lists: &[Texts],
) -> Result<Option<ScriptCode>, Memory>
    requires names { names.now ≡ column_names elements.now }
    requires keys { key_lists.now ≡ keys elements.now }
    ensures { IfOk result (λ code. code ≡ create_refusal tables.now name.now elements.now options.now) }
{
    if has_table(tables, name) {
        return Ok(Some(ScriptCode::DuplicateName));
    }
    if repeats(alloc, names)? {
        return Ok(Some(ScriptCode::DuplicateName));
    }
    if !has_types(elements) {
        return Ok(Some(ScriptCode::Unsupported));
    }
    if names.len() > MOST_COLUMNS {
        return Ok(Some(ScriptCode::TooManyColumns));
    }
    if lacks_key(alloc, is_upsert(options), names, key_lists)? {
        return Ok(Some(ScriptCode::KeyMissing));
    }
    if has_unknown_mode(options) {
        return Ok(Some(ScriptCode::BadSetting));
    }
    Ok(None)
}

/// The table that a CREATE TABLE declares where it isn't refused. `names` are its columns' names, and
/// `key_lists` its keys.
pub(crate) fn table_of(
    alloc: Global,
    name: &Text,
    elements: &[Element],
    options: &[TextPair],
    names: &[Text],
    key_lists: &[Texts],
) -> Result<TableDef, Memory>
    requires few { length names.now ≤ 64 }
    requires names { names.now ≡ column_names elements.now }
    requires keys { key_lists.now ≡ keys elements.now }
    ensures { IfOk result (λ table. table ≡ table_of name.now elements.now options.now) }
{
    Ok(TableDef {
        name: name.dup()?,
        cols: columns(alloc, key_names(key_lists), elements)?,
        key: key_places(alloc, key_lists, names)?,
        mode: last_mode(options).unwrap_or(Declared::Append),
    })
}

fn has_table(tables: &[TableDef], name: &Text) -> bool
    ensures { result ≡ has_table tables.now name.now }
{
    tables.iter().any(|table| table.name.is(name.as_slice()))
}

fn has_name(names: &[Text], name: &Text) -> bool
    ensures { result ≡ has_name names.now name.now }
{
    names.iter().any(|other| other.is(name.as_slice()))
}

// Whether a name stands twice.
fn repeats(alloc: Global, names: &[Text]) -> Result<bool, Memory>
    ensures { IfOk result (λ found. found ≡ repeats names.now) }
{
    let mut seen = BTreeSet::new(alloc);
    for name in names {
        if !seen.insert(name)? {
            return Ok(true);
        }
    }
    Ok(false)
}

// ---- columns and keys

/// The names of the columns.
pub(crate) fn column_names(alloc: Global, elements: &[Element]) -> Result<Texts, Memory>
    ensures { IfOk result (λ names. names ≡ column_names elements.now) }
{
    let mut names = Texts::new(alloc);
    for element in elements {
        if let Element::Column { name, .. } = element {
            names.push(name.dup()?)?;
        }
    }
    Ok(names)
}

fn has_types(elements: &[Element]) -> bool
    ensures { result ≡ has_types elements.now }
{
    for element in elements {
        if let Element::Column { ty, .. } = element {
            if type_of(ty).is_none() {
                return false;
            }
        }
    }
    true
}

/// The names of each key, also of one that stands beside its column.
pub(crate) fn keys(alloc: Global, elements: &[Element]) -> Result<List<Texts>, Memory>
    ensures { IfOk result (λ list. list ≡ keys elements.now) }
{
    let mut list = List::new(alloc);
    for element in elements {
        let found = own_key(alloc, element)?;
        push_found(&mut list, found)?;
    }
    Ok(list)
}

// The names of the key that an element gives, if it gives one.
fn own_key(alloc: Global, element: &Element) -> Result<Option<Texts>, Memory>
    ensures { IfOk result (λ found. option_to_list found ≡ keys (element.now ∷ [])) }
{
    match element {
        Element::Column {
            name,
            key: true,
            ..
        } => {
            let mut names = Texts::new(alloc);
            names.push(name.dup()?)?;
            Ok(Some(names))
        }
        Element::Column { .. } => Ok(None),
        Element::Key { names } => Ok(Some(names.dup()?)),
    }
}

fn push_found<T: Drop>(list: &mut List<T>, found: Option<T>) -> Result<(), Memory>
    ensures { OnOk result (list.new ≡ list.old ++ option_to_list found) }
{
    if let Some(item) = found {
        list.push(item)?;
    }
    Ok(())
}

// The names of the first key, and none where there is no key.
fn key_names<'k>(keys: &'k [Texts]) -> &'k [Text]
    ensures { result.now ≡ unwrap_or (slice_get keys.now 0) [] }
{
    match keys {
        [key, ..] => key.as_slice(),
        [] => &[],
    }
}

// The places of the first key's columns, if there is a key.
fn key_places(alloc: Global, keys: &[Texts], names: &[Text]) -> Result<Option<Cols>, Memory>
    requires { length names.now ≤ 64 }
    ensures { IfOk result (λ key. key ≡ option_map (λ key. places key 0 names.now) (slice_get keys.now 0)) }
{
    match keys {
        [key, ..] => Ok(Some(places(alloc, key.as_slice(), names)?)),
        [] => Ok(None),
    }
}

fn places(alloc: Global, key: &[Text], names: &[Text]) -> Result<Cols, Memory>
    requires { length names.now ≤ 64 }
    ensures { IfOk result (λ cols. cols ≡ places key.now 0 names.now) }
{
    let mut cols = Cols::new(alloc);
    for i in 0..names.len() {
        if has_name(key, &names[i]) {
            cols.push(i as u32)?;
        }
    }
    Ok(cols)
}

// The columns, of which those of the key are NOT NULL too.
fn columns(alloc: Global, key: &[Text], elements: &[Element]) -> Result<ColDefs, Memory>
    ensures { IfOk result (λ cols. cols ≡ columns key.now elements.now) }
{
    let mut cols = ColDefs::new(alloc);
    for element in elements {
        let found = column_of(key, element)?;
        push_found(&mut cols, found)?;
    }
    Ok(cols)
}

fn column_of(key: &[Text], element: &Element) -> Result<Option<ColDef>, Memory>
    ensures { IfOk result (λ found. option_to_list found ≡ columns key.now (element.now ∷ [])) }
{
    let Element::Column {
        name,
        ty,
        not_null,
        ..
    } = element
    else {
        return Ok(None);
    };
    let nullable = !(*not_null || has_name(key, name));
    match type_of(ty) {
        Some(ty) => Ok(Some(ColDef {
            name: name.dup()?,
            ty: ColTy { ty, nullable },
        })),
        None => Ok(None),
    }
}

// Whether there are two keys, a bad one, or none in upsert mode.
fn lacks_key(alloc: Global, upsert: bool, cols: &[Text], keys: &[Texts]) -> Result<bool, Memory>
    ensures { IfOk result (λ lacks. lacks ≡ lacks_key upsert cols.now keys.now) }
{
    match keys {
        [] => Ok(upsert),
        [key] => is_bad_key(alloc, cols, key.as_slice()),
        _ => Ok(true),
    }
}

// Whether a key column doesn't exist or stands twice.
fn is_bad_key(alloc: Global, cols: &[Text], key: &[Text]) -> Result<bool, Memory>
    ensures { IfOk result (λ bad. bad ≡ is_bad_key cols.now key.now) }
{
    if repeats(alloc, key)? {
        return Ok(true);
    }
    Ok(!have_all(cols, key))
}

// Whether each of these names is among the others.
fn have_all(names: &[Text], wanted: &[Text]) -> bool
    ensures { result ≡ list_all (has_name names.now) wanted.now }
{
    wanted.iter().all(|name| has_name(names, name))
}

// ---- the mode

fn mode_of(word: &Text) -> Option<Declared>
    ensures { result ≡ mode_of word.now }
{
    if word.is(b"append") {
        return Some(Declared::Append);
    }
    if word.is(b"retract") {
        return Some(Declared::Retract);
    }
    if word.is(b"upsert") {
        return Some(Declared::Upsert);
    }
    None
}

// The mode of the last option that tells one, append without one, and `None` where it is unknown.
fn last_mode(options: &[TextPair]) -> Option<Declared>
    ensures { result ≡ declared_mode options.now }
{
    let mut mode = Some(Declared::Append);
    for option in options {
        if option.left.is(b"changelog") {
            mode = mode_of(&option.right);
        }
    }
    mode
}

fn is_upsert(options: &[TextPair]) -> bool
    ensures { result ≡ is_upsert (declared_mode options.now) }
{
    matches!(last_mode(options), Some(Declared::Upsert))
}

fn has_unknown_mode(options: &[TextPair]) -> bool
    ensures { result ≡ has_unknown_mode options.now }
{
    for option in options {
        if option.left.is(b"changelog") && mode_of(&option.right).is_none() {
            return true;
        }
    }
    false
}
