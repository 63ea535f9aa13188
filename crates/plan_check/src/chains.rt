//! The columns of a join of several inputs.
ghost use Rattle.std.specs.Prelude.{◌≡◌, ◌==◌, ◌+◌, ◌<◌, drop, length, map, option_copied, Some, IfOk};
ghost use Rattle.std.specs.List.{list_any};
ghost use Rattle.plan_rules.specs.Columns as c;
ghost use Rattle.plan_check.specs.Chains as h;

use ct_value::{ColTys, List, Memory, Numbers};
use phys_plan::PairLists;
use plan_shape::{NodeColumns, numbered_columns, pairs_fit, same_columns};
use rel_algebra::Pairs;

/// Inputs that are joined so far: their columns, the places of each one's key among them, and how many pairs join an input.
#[derive(Drop)]
pub(crate) struct Chain {
    pub(crate) columns: ColTys,
    pub(crate) keys: List<List<usize>>,
    pub(crate) pairs: usize,
}

/// The columns of inputs that are joined by these lists of pairs, one for each input but the first.
pub(crate) fn chain_columns(
    on: &PairLists,
    done: &NodeColumns,
    inputs: &Numbers,
) -> Result<Option<ColTys>, Memory>
    ensures { IfOk result (λ made. made ≡ h.chain_columns on.now (map (c.numbered_columns done.now) inputs.now)) }
{
    if on.is_empty() {
        return Ok(None);
    }
    if are_fed(on.len(), inputs.len()) {
        started(on, done, inputs)
    } else {
        Ok(None)
    }
}

// Whether there is one input more than lists.
fn are_fed(lists: usize, inputs: usize) -> bool
    ensures { result ≡ (inputs == lists + 1) }
{
    match inputs.checked_sub(1) {
        None => false,
        Some(further) => further == lists,
    }
}

// The columns of inputs, one more than there are lists of pairs.
fn started(on: &PairLists, done: &NodeColumns, inputs: &Numbers) -> Result<Option<ColTys>, Memory>
    requires some { 0 < length on.now }
    requires fed { length inputs.now ≡ length on.now + 1 }
    ensures { IfOk result (λ made. made ≡ h.chain_columns on.now (map (c.numbered_columns done.now) inputs.now)) }
{
    match begun(
        &on.as_slice()[0],
        numbered_columns(done, inputs.as_slice()[0]),
    )? {
        None => Ok(None),
        Some(chain) => ended(chain, on, done, inputs),
    }
}

// The first input, whose key are the left columns of the first pairs.
fn begun(pairs: &Pairs, first: Option<&ColTys>) -> Result<Option<Chain>, Memory>
    ensures { IfOk result (λ made. made ≡ h.begun_by pairs.now (option_copied first.entry)) }
{
    if pairs.is_empty() {
        return Ok(None);
    }
    let Some(columns) = same_columns(first)? else {
        return Ok(None);
    };
    let mut keys = columns.beside();
    keys.push(left_key(pairs)?)?;
    Ok(Some(Chain {
        columns,
        keys,
        pairs: pairs.len(),
    }))
}

// The columns of a chain with all further inputs.
fn ended(
    chain: Chain,
    on: &PairLists,
    done: &NodeColumns,
    inputs: &Numbers,
) -> Result<Option<ColTys>, Memory>
    requires { length inputs.now ≡ length on.now + 1 }
    ensures { IfOk result (λ made. made ≡ h.ended (Some chain) on.now (drop 1 (map (c.numbered_columns done.now) inputs.now))) }
{
    let mut chain = chain;
    for i in 0..on.len() {
        let input = numbered_columns(done, inputs.as_slice()[i + 1]);
        let Some(more) = longer(chain, &on.as_slice()[i], input)? else {
            return Ok(None);
        };
        chain = more;
    }
    Ok(Some(chain.columns))
}

// A chain with an input more.
fn longer(chain: Chain, pairs: &Pairs, input: Option<&ColTys>) -> Result<Option<Chain>, Memory>
    ensures { IfOk result (λ made. made ≡ h.longer chain pairs.now (option_copied input.entry)) }
{
    let Some(input) = input else {
        return Ok(None);
    };
    if links(&chain, input, pairs) {
        Ok(Some(with_input(chain, input, pairs)?))
    } else {
        Ok(None)
    }
}

// A chain with an input more, joined by pairs that link it.
fn with_input(chain: Chain, input: &ColTys, pairs: &Pairs) -> Result<Chain, Memory>
    ensures { IfOk result (λ made. made ≡ h.with_input chain input.now pairs.now) }
{
    let Chain {
        mut columns,
        mut keys,
        pairs: many,
    } = chain;
    keys.push(right_key(columns.len(), pairs)?)?;
    columns.append(input.dup()?)?;
    Ok(Chain {
        columns,
        keys,
        pairs: many,
    })
}

// Whether there are as many pairs as there must be, of columns that are there and have common types, each by a key column of an
// input before.
fn links(chain: &Chain, input: &ColTys, pairs: &Pairs) -> bool
    ensures { result ≡ h.links chain.now.pairs chain.now.keys chain.now.columns input.now pairs.now }
{
    pairs.len() == chain.pairs
        && pairs_fit(pairs, &chain.columns, input)
        && follow(&chain.keys, pairs)
}

// Whether the left column of each pair is, at the pair's place, a column of one of these keys.
fn follow(keys: &List<List<usize>>, pairs: &Pairs) -> bool
    ensures { result ≡ h.follow keys.now 0 pairs.now }
{
    for place in 0..pairs.len() {
        if !is_key_column(keys, place, pairs.as_slice()[place].left) {
            return false;
        }
    }
    true
}

fn is_key_column(keys: &List<List<usize>>, place: usize, column: u32) -> bool
    ensures { result ≡ list_any (h.stands_at place column) keys.now }
{
    keys.as_slice()
        .iter()
        .any(|key| stands_at(place, column, key))
}

fn stands_at(place: usize, column: u32, key: &List<usize>) -> bool
    ensures { result ≡ h.stands_at place column key.now }
{
    match key.get(place) {
        None => false,
        Some(other) => *other == column as usize,
    }
}

fn left_key(pairs: &Pairs) -> Result<List<usize>, Memory>
    ensures { IfOk result (λ key. key ≡ map h.left_column pairs.now) }
{
    let mut key = pairs.beside();
    for pair in pairs.as_slice() {
        key.push(pair.left as usize)?;
    }
    Ok(key)
}

// The right columns of pairs, behind so many.
fn right_key(width: usize, pairs: &Pairs) -> Result<List<usize>, Memory>
    ensures { IfOk result (λ key. key ≡ h.right_key width pairs.now) }
{
    let mut key = pairs.beside();
    for pair in pairs.as_slice() {
        key.push(column_behind(width, pair.right as usize)?)?;
    }
    Ok(key)
}

// No memory holds more columns than there are numbers.
fn column_behind(width: usize, column: usize) -> Result<usize, Memory>
    ensures { IfOk result (λ place. place ≡ width + column) }
{
    match width.checked_add(column) {
        None => Err(Memory),
        Some(place) => Ok(place),
    }
}
