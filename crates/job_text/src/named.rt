//! Sources that are found by their names.
ghost use Rattle.std.specs.Prelude.{◌≡◌, Some, None, cond, slice_get, IfOk, OnOk, IfSome, IfNone};
ghost use Rattle.std.specs.Str.{bytes_eq};
ghost use Rattle.job_text.specs.Lines.{Field, source_named};
ghost use Rattle.job_text.specs.Names.{place_of};

use ct_catalog::{Sources, TableDef};
use ct_value::Memory;
use std::alloc::Global;
use std::collections::BTreeMap;
use std::marker::Model;

// The first place of each name among sources, from 0.
type Places = BTreeMap<Vec<u8>, usize>;

/// Sources that are found by their names. They are seen as the list of them.
#[derive(Drop)]
pub struct NamedSources<'a> {
    sources: &'a [TableDef],
    places: Places,
}

impl<'a> Model for NamedSources<'a> {
    ghost use Rattle.std.specs.Prelude.{◌≡◌, List};
    ghost use Rattle.ct_catalog.specs.declared.table.TableDef.{TableDef as Table};
    ghost use Rattle.job_text.specs.Lines.{Field, source_named};
    ghost use Rattle.job_text.specs.Names.{place_of};

    ghost Value = { List Table };

    ghost view = { λ n. n.sources.now };

    ghost invariant = { λ n. (name : Field) → place_of n.places name ≡ source_named n.sources.now name };
}

impl<'a> NamedSources<'a> {
    /// These sources, found by their names.
    pub fn new(alloc: Global, sources: &'a Sources) -> Result<NamedSources<'a>, Memory>
        ensures { IfOk result (λ named. named ≡ sources.now) }
    {
        let sources = sources.as_slice();
        let places = places_of(alloc, sources)?;
        Ok(NamedSources { sources, places })
    }

    /// The sources, in their order.
    pub fn as_slice(&self) -> &'a [TableDef]
        ensures { result.now ≡ self.now }
    {
        self.sources
    }

    // The first source of a name, behind its place. It takes no memory.
    pub(crate) fn find(&self, name: &[u8]) -> Option<(usize, &'a TableDef)>
        ensures none { IfNone result (source_named self.now name.now ≡ None) }
        ensures place { IfSome result (λ found. source_named self.now name.now ≡ Some found.0) }
        ensures source { IfSome result (λ found. slice_get self.now found.0 ≡ Some found.1.now) }
    {
        let place = place_of(&self.places, name)?;
        Some((place, &self.sources[place]))
    }
}

// From the last one, so that the first one's place is what stays.
fn places_of(alloc: Global, sources: &[TableDef]) -> Result<Places, Memory>
    ensures { IfOk result (λ places. (name : Field) → place_of places name ≡ source_named sources.now name) }
{
    let mut places = Places::new(alloc);
    let mut place = sources.len();
    'place: while place > 0 {
        place -= 1;
        put_name(alloc, &mut places, sources[place].name.as_slice(), place)?;
    }
    Ok(places)
}

// Puts the place of a name before those that are known.
fn put_name(alloc: Global, places: &mut Places, name: &[u8], place: usize) -> Result<(), Memory>
    ensures { OnOk result ((other : Field) → place_of places.new other ≡ cond (bytes_eq name.now other) (Some place) (place_of places.old other)) }
{
    places.insert(Vec::from_slice(alloc, name)?, place)?;
    Ok(())
}

fn place_of(places: &Places, name: &[u8]) -> Option<usize>
    ensures { result ≡ place_of places.now name.now }
{
    places.get(name).copied()
}
