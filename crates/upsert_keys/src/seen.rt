//! What a node sees of its inputs.
ghost use Rattle.std.specs.Prelude.{◌≡◌, [], ◌∷◌, map, option_copied, IfOk};
ghost use Rattle.phys_plan.specs.Reading.{at, numbered as item, no_keys};
ghost use Rattle.phys_plan.specs.Columns.{columns_in};
ghost use Rattle.upsert_keys.specs.Seen as s;

use column_sets::{Sets, dup_sets, family, set_of, unions};
use ct_value::{ColTys, Cols, List, Memory};
use phys_plan::{Edge, Exchange, KeyInfo, numbered};
use std::alloc::Global;

/// What a node sees of an input: its keys behind the exchange of the edge, those that hold over all subtasks at every moment, and
/// its columns.
#[derive(Debug, Drop)]
pub struct Seen {
    pub unique: Sets,
    pub local: Sets,
    pub fixing: Sets,
    pub everywhere: Sets,
    pub columns: ColTys,
}

/// The keys that hold over all subtasks at every moment: each local key joined with each set that fixes the subtask.
pub fn everywhere(alloc: Global, keys: &KeyInfo) -> Result<Sets, Memory>
    ensures { IfOk result (λ sets. sets ≡ s.everywhere keys.now) }
{
    unions(alloc, keys.local.as_slice(), keys.fixing.as_slice())
}

/// What is seen of the inputs of these numbers, from the keys of the nodes so far.
pub(crate) fn all_seen(
    alloc: Global,
    edges: &[Edge],
    columns: &[ColTys],
    done: &[KeyInfo],
    inputs: &[u32],
) -> Result<List<Seen>, Memory>
    ensures { IfOk result (λ all. all ≡ s.all_seen (columns_in columns.now) edges.now inputs.now (map (at no_keys done.now) inputs.now)) }
{
    let mut all = List::new(alloc);
    for input in inputs {
        all.push(seen_at(alloc, edges, columns, done, *input)?)?;
    }
    Ok(all)
}

// What is seen of the input of this number.
fn seen_at(
    alloc: Global,
    edges: &[Edge],
    columns: &[ColTys],
    done: &[KeyInfo],
    input: u32,
) -> Result<Seen, Memory>
    ensures { IfOk result (λ seen. seen ≡ s.seen_over (s.exchange_in (item edges.now input)) (columns_in columns.now input) (at no_keys done.now input)) }
{
    let columns = columns_of(alloc, columns, input)?;
    match numbered(done, input) {
        Some(keys) => seen_behind(alloc, numbered(edges, input), columns, keys),
        None => seen_behind(alloc, numbered(edges, input), columns, &no_keys(alloc)),
    }
}

// The columns that a node sends.
fn columns_of(alloc: Global, table: &[ColTys], number: u32) -> Result<ColTys, Memory>
    ensures { IfOk result (λ columns. columns ≡ columns_in table.now number) }
{
    match table.get(number as usize) {
        Some(columns) => columns.dup(),
        None => Ok(ColTys::new(alloc)),
    }
}

// What is seen behind an edge of the keys of a node.
fn seen_behind(
    alloc: Global,
    edge: Option<&Edge>,
    columns: ColTys,
    keys: &KeyInfo,
) -> Result<Seen, Memory>
    ensures { IfOk result (λ seen. seen ≡ s.seen_over (s.exchange_in (option_copied edge.entry)) columns keys.now) }
{
    match edge {
        None => seen_forward(alloc, columns, keys),
        Some(edge) => seen_over(alloc, &edge.exchange, columns, keys),
    }
}

fn seen_over(
    alloc: Global,
    exchange: &Exchange,
    columns: ColTys,
    keys: &KeyInfo,
) -> Result<Seen, Memory>
    ensures { IfOk result (λ seen. seen ≡ s.seen_over exchange.now columns keys.now) }
{
    match exchange {
        Exchange::Forward => seen_forward(alloc, columns, keys),
        Exchange::Hash(cols) => seen_hashed(alloc, cols, columns, keys),
    }
}

/// What is seen behind a forward edge: all keys as they are.
pub(crate) fn seen_forward(alloc: Global, columns: ColTys, keys: &KeyInfo) -> Result<Seen, Memory>
    ensures { IfOk result (λ seen. seen ≡ s.seen_over Exchange.Forward columns keys.now) }
{
    Ok(Seen {
        unique: dup_sets(&keys.unique)?,
        local: dup_sets(&keys.local)?,
        fixing: dup_sets(&keys.fixing)?,
        everywhere: everywhere(alloc, keys)?,
        columns,
    })
}

// What is seen behind a hash edge: the local keys are those that hold everywhere, and its columns fix the subtask.
fn seen_hashed(alloc: Global, cols: &Cols, columns: ColTys, keys: &KeyInfo) -> Result<Seen, Memory>
    ensures { IfOk result (λ seen. seen ≡ s.seen_over (Exchange.Hash cols.now) columns keys.now) }
{
    Ok(Seen {
        unique: dup_sets(&keys.unique)?,
        local: everywhere(alloc, keys)?,
        fixing: one_set(set_of(alloc, cols.as_slice())?)?,
        everywhere: everywhere(alloc, keys)?,
        columns,
    })
}

/// No keys.
pub(crate) fn no_keys(alloc: Global) -> KeyInfo
    ensures { result ≡ no_keys }
{
    KeyInfo {
        unique: Sets::new(alloc),
        local: Sets::new(alloc),
        fixing: Sets::new(alloc),
    }
}

/// The families of some sets.
pub(crate) fn families(
    alloc: Global,
    unique: &Sets,
    local: &Sets,
    fixing: &Sets,
) -> Result<KeyInfo, Memory>
    ensures { IfOk result (λ keys. keys ≡ s.families unique.now local.now fixing.now) }
{
    let unique = family(alloc, unique.as_slice())?;
    let local = family(alloc, local.as_slice())?;
    let fixing = family(alloc, fixing.as_slice())?;
    Ok(KeyInfo {
        unique,
        local,
        fixing,
    })
}

/// A set by itself.
pub(crate) fn one_set(set: Cols) -> Result<Sets, Memory>
    ensures { IfOk result (λ sets. sets ≡ set ∷ []) }
{
    let mut sets = set.beside();
    sets.push(set)?;
    Ok(sets)
}
