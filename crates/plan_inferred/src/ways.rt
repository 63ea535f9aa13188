ghost use Rattle.std.specs.Prelude.{◌≡◌, option_copied, IfOk};
ghost use Rattle.plan_inferred.specs.Ways as w;

use column_sets::{has_within, same_set};
use ct_change::KindSet;
use ct_value::{Cols, Memory};
use phys_plan::KeyInfo;
use std::alloc::Global;
use upsert_keys::everywhere;

/// How an upsert sink takes the changes of the node below it (Flink documentation, "Configuration",
/// `table.exec.sink.upsert-materialize`).
#[derive(Clone, Copy, Debug, PartialEq, Eq)]
pub enum Way {
    /// Behind a materializer that the script asks for.
    Forced,
    /// As they are, new rows alone, since these tell by the sink's key which rows they replace.
    NewRows,
    /// As they are, since one row stands under each key at every moment.
    Direct,
    /// Behind a materializer, since one row stands under each key in each answer, but not at every moment.
    Materialized,
    /// Not at all, since answers may have several rows under one key.
    Refused,
}

/// The way in which an upsert sink with this key takes the changes of a node that sends these kinds, has this update key if it has one, and
/// these keys. `force` tells that the script asks for a materializer.
pub fn way_of(
    alloc: Global,
    force: bool,
    sink: &Cols,
    kinds: KindSet,
    key: Option<&Cols>,
    keys: &KeyInfo,
) -> Result<Way, Memory>
    ensures { IfOk result (λ way. way ≡ w.way_of force sink.now kinds (option_copied key.entry) keys.now) }
{
    if force {
        forced_way(alloc, sink, keys)
    } else {
        open_way(alloc, sink, kinds, key, keys)
    }
}

fn forced_way(alloc: Global, sink: &Cols, keys: &KeyInfo) -> Result<Way, Memory>
    ensures { IfOk result (λ way. way ≡ w.forced_way sink.now keys.now) }
{
    if holds_everywhere(alloc, keys, sink)? || holds_in_answers(keys, sink) {
        Ok(Way::Forced)
    } else {
        Ok(Way::Refused)
    }
}

fn open_way(
    alloc: Global,
    sink: &Cols,
    kinds: KindSet,
    key: Option<&Cols>,
    keys: &KeyInfo,
) -> Result<Way, Memory>
    ensures { IfOk result (λ way. way ≡ w.open_way sink.now kinds (option_copied key.entry) keys.now) }
{
    if tells_by(kinds, key, sink) {
        return Ok(Way::NewRows);
    }
    if holds_everywhere(alloc, keys, sink)? {
        return Ok(Way::Direct);
    }
    if holds_in_answers(keys, sink) {
        return Ok(Way::Materialized);
    }
    Ok(Way::Refused)
}

fn holds_everywhere(alloc: Global, keys: &KeyInfo, sink: &Cols) -> Result<bool, Memory>
    ensures { IfOk result (λ holds. holds ≡ w.holds_everywhere keys.now sink.now) }
{
    let sets = everywhere(alloc, keys)?;
    Ok(has_within(sets.as_slice(), sink))
}

fn holds_in_answers(keys: &KeyInfo, sink: &Cols) -> bool
    ensures { result ≡ w.holds_in_answers keys.now sink.now }
{
    has_within(keys.unique.as_slice(), sink)
}

fn tells_by(kinds: KindSet, key: Option<&Cols>, sink: &Cols) -> bool
    ensures { result ≡ w.tells_by kinds (option_copied key.entry) sink.now }
{
    match key {
        None => false,
        Some(key) => kinds.ua && same_set(key, sink),
    }
}
