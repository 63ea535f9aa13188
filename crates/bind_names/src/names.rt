//! The look-up of names among the columns in reach.
ghost use Rattle.std.specs.Prelude.{◌≡◌, ◌+◌, IfOk};
ghost use Rattle.query_answer.specs.Names.{find, find_from, find_linked, is_called, is_named, also};
ghost use Rattle.bind_names.specs.Lookups.{lookup_of};

use ct_value::{ColTy, Memory, Text};
use query_answer::{Found, Scope, ScopeColumn};

/// The columns that names may stand for.
#[derive(Clone, Copy)]
pub enum Lookup<'a> {
    /// Those in reach.
    Own(&'a Scope),
    /// Within the subquery of an EXISTS: its own, which hide those outside. In a row of both, those outside stand first.
    Linked { outside: &'a Scope, own: &'a Scope },
}

impl Lookup<'_> {
    /// The column that a name stands for: none, the one at a place, or several. `of` is the name of its source, where one is said.
    pub fn find(self, of: &Option<Text>, name: &Text) -> Result<Found, Memory>
        ensures { IfOk result (λ found. found ≡ lookup_of self.entry of.now name.now) }
    {
        match self {
            Lookup::Own(scope) => find(scope, of, name),
            Lookup::Linked { outside, own } => find_linked(outside, own, of, name),
        }
    }
}

/// The column of this name among those in reach: none, the one, or several. `of` is the name of its source, where one is said.
pub fn find(scope: &Scope, of: &Option<Text>, name: &Text) -> Result<Found, Memory>
    ensures { IfOk result (λ found. found ≡ find scope.now of.now name.now) }
{
    find_from(0, scope, of, name)
}

/// The column of this name within a subquery: among its own columns, or else among those outside, which stand before them in a row
/// of both.
pub fn find_linked(
    outside: &Scope,
    own: &Scope,
    of: &Option<Text>,
    name: &Text,
) -> Result<Found, Memory>
    ensures { IfOk result (λ found. found ≡ find_linked outside.now own.now of.now name.now) }
{
    let first = number(0, outside.len())?;
    let found = find_from(first, own, of, name)?;
    match found {
        Found::Absent => find(outside, of, name),
        Found::At(..) | Found::Several => Ok(found),
    }
}

// The same of columns that are counted from the first one's number.
fn find_from(first: u32, scope: &Scope, of: &Option<Text>, name: &Text) -> Result<Found, Memory>
    ensures { IfOk result (λ found. found ≡ find_from first scope.now of.now name.now) }
{
    let mut place = scope.len();
    let mut all = Found::Absent;
    'columns: while place > 0 {
        place -= 1;
        let column = &scope.as_slice()[place];
        if is_named(of, name, column) {
            all = also(number(first, place)?, column.ty, all);
        }
    }
    Ok(all)
}

// The number of the column at a place.
fn number(first: u32, place: usize) -> Result<u32, Memory>
    ensures { IfOk result (λ number. number ≡ first + place) }
{
    let Ok(place) = u32::try_from(place) else {
        return Err(Memory);
    };
    first.checked_add(place).ok_or(Memory)
}

/// Whether a name is there, and is this one.
pub fn is_called(name: &Text, own: &Option<Text>) -> bool
    ensures { result ≡ is_called name.now own.now }
{
    match own {
        None => false,
        Some(own) => name.is(own.as_slice()),
    }
}

pub(crate) fn is_named(of: &Option<Text>, name: &Text, column: &ScopeColumn) -> bool
    ensures { result ≡ is_named of.now name.now column.now }
{
    match of {
        None => is_called(name, &column.name),
        Some(source) => is_called(source, &column.source) && is_called(name, &column.name),
    }
}

// One more column that has the name.
fn also(place: u32, ty: ColTy, others: Found) -> Found
    ensures { result ≡ also place ty others }
{
    match others {
        Found::Absent => Found::At(place, ty),
        _ => Found::Several,
    }
}

/// A name again, where there is one.
pub fn dup_name(name: &Option<Text>) -> Result<Option<Text>, Memory>
    ensures { IfOk result (λ copy. copy ≡ name.now) }
{
    match name {
        None => Ok(None),
        Some(name) => Ok(Some(name.dup()?)),
    }
}

/// The next number; no list has more items than a number of 32 bits tells.
pub fn next_number(number: u32) -> Result<u32, Memory>
    ensures { IfOk result (λ next. next ≡ number + 1) }
{
    number.checked_add(1).ok_or(Memory)
}
