//! What an operator sends, what it asks of its inputs, and whether it takes new rows alone.
ghost use Rattle.std.specs.Prelude.{◌≡◌, map, option_copied, IfOk};
ghost use Rattle.ct_change.specs.Kinds.{is_upsert};
ghost use Rattle.column_sets.specs.Places as p;
ghost use Rattle.column_sets.specs.Sets as s;
ghost use Rattle.phys_plan.specs.Columns as c;
ghost use Rattle.mode_infer.specs.Kinds as k;

use crate::kinds::{
    Flow, any_has_more, any_kinds, either, has_more_than_inserts, kind_set, plain, with_old,
};
use column_sets::{first_columns, image, is_within, same_set};
use ct_catalog::TableDef;
use ct_change::{Declared, KindSet, Update};
use ct_expr::Exprs;
use ct_value::{Cols, Memory};
use phys_plan::{Op, PairLists, left_columns, plain_columns, right_columns};
use rel_algebra::{Agg, JoinKind, Pairs};
use std::alloc::Global;

/// What an operator sends, from what its inputs send, as long as no edge leaves out the old rows.
pub fn flow_of(sources: &[TableDef], op: &Op, inputs: &[Flow]) -> Flow
    ensures { result ≡ k.flow_of sources.now op.now inputs.now }
{
    match op {
        Op::Scan { source } => plain(scan_kinds(sources.get(*source as usize))),
        Op::Filter { .. } => passed(inputs),
        Op::Project { .. } => passed(inputs),
        Op::Union => plain(any_kinds(inputs)),
        Op::Normalize { .. } => plain(kind_set(true, true, true, true)),
        Op::Group { keys, aggs } => grouped(*keys, aggs.as_slice(), inputs),
        Op::BatchGroup { keys, aggs } => grouped_in_bundles(*keys, aggs.as_slice(), inputs),
        Op::Join { kind, .. } => joined(*kind, inputs),
        Op::Semi { anti, .. } => semi_joined(*anti, inputs),
        Op::TopN { bound, ranked, .. } => top_rows(*ranked, *bound, inputs),
        Op::Materialize { .. } => plain(kind_set(true, false, true, true)),
        Op::Sink => passed(inputs),
        Op::LocalGroup { .. } => partials(inputs),
        Op::MultiJoin { .. } => plain(inner_kinds(inputs)),
        Op::SetOp { except, .. } => set_operation(*except, inputs),
    }
}

/// The columns by which an operator asks for the rows of a port: those by which the edge is to be hashed, and `None` where it is to
/// be a forward edge.
pub fn asked(alloc: Global, op: &Op, port: usize) -> Result<Option<Cols>, Memory>
    ensures { IfOk result (λ cols. cols ≡ k.asked op.now port) }
{
    match op {
        Op::Normalize { key } => Ok(Some(key.dup()?)),
        Op::Group { keys, .. } => Ok(Some(first_columns(alloc, *keys)?)),
        Op::BatchGroup { keys, .. } => Ok(Some(first_columns(alloc, *keys)?)),
        Op::Join { on, .. } => Ok(Some(side_columns(alloc, on, port)?)),
        Op::Semi { on, .. } => Ok(Some(side_columns(alloc, on, port)?)),
        Op::TopN { partition, .. } => Ok(Some(partition.dup()?)),
        Op::Materialize { key } => Ok(Some(key.dup()?)),
        Op::MultiJoin { on } => Ok(Some(chain_columns(alloc, on.as_slice(), port)?)),
        Op::SetOp { columns, .. } => Ok(Some(first_columns(alloc, *columns)?)),
        Op::Scan { .. } | Op::Filter { .. } | Op::Project { .. } => Ok(None),
        Op::Union | Op::Sink | Op::LocalGroup { .. } => Ok(None),
    }
}

/// Whether an operator judges each row by itself, or counts rows, so that it needs the old rows of updates.
pub fn needs_old_rows(op: &Op) -> bool
    ensures { result ≡ k.needs_old_rows op.now }
{
    match op {
        Op::Filter { .. } | Op::Union | Op::Group { .. } => true,
        Op::BatchGroup { .. } | Op::LocalGroup { .. } | Op::SetOp { .. } => true,
        Op::Scan { .. } | Op::Project { .. } | Op::Normalize { .. } => false,
        Op::Join { .. } | Op::Semi { .. } | Op::MultiJoin { .. } => false,
        Op::TopN { .. } | Op::Materialize { .. } | Op::Sink => false,
    }
}

/// Whether an operator takes the new rows of updates alone at a port, which are keyed by these columns, where its own edge tells updates
/// so: a join, a semi join and a Top-N where rows of one key come to one subtask, an upsert sink by its own key, and a Project that hands
/// them on by the key's image.
pub fn takes(
    alloc: Global,
    sink: &TableDef,
    op: &Op,
    port: usize,
    update: &Update,
    key: &Cols,
) -> Result<bool, Memory>
    ensures { IfOk result (λ taken. taken ≡ k.takes sink.now op.now port update.now key.now) }
{
    match op {
        Op::Project { items } => project_takes(alloc, items, update, key),
        Op::Join { on, .. } => side_takes(alloc, on, port, key),
        Op::Semi { on, .. } => side_takes(alloc, on, port, key),
        Op::TopN { partition, .. } => Ok(is_within(partition, key)),
        Op::Sink => Ok(sink_takes(sink, key)),
        Op::MultiJoin { on } => chain_takes(alloc, on, port, key),
        Op::Scan { .. } | Op::Filter { .. } | Op::Union | Op::SetOp { .. } => Ok(false),
        Op::Normalize { .. } | Op::Materialize { .. } => Ok(false),
        Op::Group { .. } | Op::BatchGroup { .. } | Op::LocalGroup { .. } => Ok(false),
    }
}

// ---- kinds

fn scan_kinds(table: Option<&TableDef>) -> KindSet
    ensures { result ≡ k.scan_kinds (option_copied table.entry) }
{
    match table {
        None => kind_set(false, false, false, false),
        Some(table) => match table.mode {
            Declared::Append => kind_set(true, false, false, false),
            Declared::Retract => kind_set(true, true, true, true),
            Declared::Upsert => kind_set(true, false, true, true),
        },
    }
}

fn passed(inputs: &[Flow]) -> Flow
    ensures { result ≡ k.with_one k.passed inputs.now }
{
    match inputs {
        [input] => plain(input.sent),
        _ => plain(kind_set(false, false, false, false)),
    }
}

fn group_kinds(keys: u32, aggs: &[Agg], below: KindSet) -> KindSet
    ensures { result ≡ k.group_kinds keys aggs.now below }
{
    match aggs {
        [] => kind_set(true, false, false, has_more_than_inserts(below)),
        [_, ..] => kind_set(true, true, true, keys != 0 && has_more_than_inserts(below)),
    }
}

fn grouped(keys: u32, aggs: &[Agg], inputs: &[Flow]) -> Flow
    ensures { result ≡ k.with_one (k.grouped keys aggs.now) inputs.now }
{
    match inputs {
        [input] => plain(group_kinds(keys, aggs, input.sent)),
        _ => plain(kind_set(false, false, false, false)),
    }
}

fn grouped_in_bundles(keys: u32, aggs: &[Agg], inputs: &[Flow]) -> Flow
    ensures { result ≡ k.with_one (k.grouped_in_bundles keys aggs.now) inputs.now }
{
    match inputs {
        [input] => plain(group_kinds(keys, aggs, input.meant)),
        _ => plain(kind_set(false, false, false, false)),
    }
}

fn partials(inputs: &[Flow]) -> Flow
    ensures { result ≡ k.with_one k.partials inputs.now }
{
    match inputs {
        [input] => Flow {
            sent: kind_set(true, false, false, false),
            meant: input.sent,
        },
        _ => plain(kind_set(false, false, false, false)),
    }
}

fn inner_kinds(inputs: &[Flow]) -> KindSet
    ensures { result ≡ k.inner_kinds (map k.sent_of inputs.now) }
{
    if any_has_more(inputs) {
        with_old(any_kinds(inputs))
    } else {
        kind_set(true, false, false, false)
    }
}

fn joined(kind: JoinKind, inputs: &[Flow]) -> Flow
    ensures { result ≡ k.with_two (k.join_kinds kind) inputs.now }
{
    match inputs {
        [left, right] => plain(join_kinds(kind, left.sent, right.sent)),
        _ => plain(kind_set(false, false, false, false)),
    }
}

fn join_kinds(kind: JoinKind, left: KindSet, right: KindSet) -> KindSet
    ensures { result ≡ k.join_kinds kind left right }
{
    match kind {
        JoinKind::Inner => pair_kinds(left, right),
        JoinKind::Left => kind_set(true, false, false, true),
        JoinKind::Right => kind_set(true, false, false, true),
        JoinKind::Full => kind_set(true, false, false, true),
    }
}

fn pair_kinds(left: KindSet, right: KindSet) -> KindSet
    ensures { result ≡ k.join_kinds JoinKind.Inner left right }
{
    if has_more_than_inserts(left) || has_more_than_inserts(right) {
        with_old(either(left, right))
    } else {
        kind_set(true, false, false, false)
    }
}

fn semi_joined(anti: bool, inputs: &[Flow]) -> Flow
    ensures { result ≡ k.with_two (k.semi_kinds anti) inputs.now }
{
    match inputs {
        [left, right] => plain(semi_kinds(anti, left.sent, right.sent)),
        _ => plain(kind_set(false, false, false, false)),
    }
}

fn semi_kinds(anti: bool, left: KindSet, right: KindSet) -> KindSet
    ensures { result ≡ k.semi_kinds anti left right }
{
    let kinds = with_old(left);
    kind_set(
        kinds.i,
        kinds.ub,
        kinds.ua,
        kinds.d || anti || has_more_than_inserts(right),
    )
}

fn top_rows(ranked: bool, bound: u32, inputs: &[Flow]) -> Flow
    ensures { result ≡ k.with_one (k.top_rows ranked bound) inputs.now }
{
    match inputs {
        [input] => plain(top_kinds(ranked, bound, input.sent)),
        _ => plain(kind_set(false, false, false, false)),
    }
}

fn top_kinds(ranked: bool, bound: u32, below: KindSet) -> KindSet
    ensures { result ≡ k.top_kinds ranked bound below }
{
    if ranked || bound == 1 {
        kind_set(true, true, true, has_more_than_inserts(below))
    } else {
        kind_set(true, false, false, true)
    }
}

fn set_operation(except: bool, inputs: &[Flow]) -> Flow
    ensures { result ≡ k.with_two (k.set_kinds except) inputs.now }
{
    match inputs {
        [left, right] => plain(set_kinds(except, left.sent, right.sent)),
        _ => plain(kind_set(false, false, false, false)),
    }
}

fn set_kinds(except: bool, left: KindSet, right: KindSet) -> KindSet
    ensures { result ≡ k.set_kinds except left right }
{
    kind_set(
        true,
        false,
        false,
        except || has_more_than_inserts(left) || has_more_than_inserts(right),
    )
}

// ---- new rows alone

fn side_takes(alloc: Global, on: &Pairs, port: usize, key: &Cols) -> Result<bool, Memory>
    ensures { IfOk result (λ taken. taken ≡ s.is_within (k.side_columns on.now port) key.now) }
{
    let cols = side_columns(alloc, on, port)?;
    Ok(is_within(&cols, key))
}

fn chain_takes(alloc: Global, on: &PairLists, port: usize, key: &Cols) -> Result<bool, Memory>
    ensures { IfOk result (λ taken. taken ≡ s.is_within (k.chain_columns on.now port) key.now) }
{
    let cols = chain_columns(alloc, on.as_slice(), port)?;
    Ok(is_within(&cols, key))
}

// A Project hands new rows alone on where its own edge tells them by the key's image.
fn project_takes(alloc: Global, items: &Exprs, update: &Update, key: &Cols) -> Result<bool, Memory>
    ensures { IfOk result (λ taken. taken ≡ k.is_after update.now (p.image (c.plain_columns items.now) key.now)) }
{
    let items = plain_columns(alloc, items.as_slice())?;
    let image = image(alloc, items.as_slice(), key)?;
    Ok(is_after(update, image.as_ref()))
}

fn is_after(update: &Update, image: Option<&Cols>) -> bool
    ensures { result ≡ k.is_after update.now (option_copied image.entry) }
{
    match update {
        Update::After(key) => same_key(image, key),
        Update::Absent => false,
        Update::Both => false,
    }
}

fn same_key(other: Option<&Cols>, key: &Cols) -> bool
    ensures { result ≡ k.same_key (option_copied other.entry) key.now }
{
    match other {
        None => false,
        Some(other) => same_set(other, key),
    }
}

// An upsert sink takes them by its own key.
fn sink_takes(sink: &TableDef, key: &Cols) -> bool
    ensures { result ≡ k.sink_takes sink.now key.now }
{
    is_upsert(sink.mode) && same_key(sink.key.as_ref(), key)
}

fn is_upsert(mode: Declared) -> bool
    ensures { result ≡ is_upsert mode }
{
    match mode {
        Declared::Append => false,
        Declared::Retract => false,
        Declared::Upsert => true,
    }
}

// ---- columns

// The columns of one side of pairs, of which port 0 is the left one.
fn side_columns(alloc: Global, on: &Pairs, port: usize) -> Result<Cols, Memory>
    ensures { IfOk result (λ cols. cols ≡ k.side_columns on.now port) }
{
    if port == 0 {
        left_columns(alloc, on.as_slice())
    } else {
        right_columns(alloc, on.as_slice())
    }
}

// The columns by which one of several inputs is joined.
fn chain_columns(alloc: Global, on: &[Pairs], port: usize) -> Result<Cols, Memory>
    ensures { IfOk result (λ cols. cols ≡ k.chain_columns on.now port) }
{
    if port == 0 {
        lefts_in(alloc, on.get(0))
    } else {
        rights_in(alloc, on.get(port - 1))
    }
}

fn lefts_in(alloc: Global, on: Option<&Pairs>) -> Result<Cols, Memory>
    ensures { IfOk result (λ cols. cols ≡ k.lefts_in (option_copied on.entry)) }
{
    match on {
        None => Ok(Cols::new(alloc)),
        Some(on) => left_columns(alloc, on.as_slice()),
    }
}

fn rights_in(alloc: Global, on: Option<&Pairs>) -> Result<Cols, Memory>
    ensures { IfOk result (λ cols. cols ≡ k.rights_in (option_copied on.entry)) }
{
    match on {
        None => Ok(Cols::new(alloc)),
        Some(on) => right_columns(alloc, on.as_slice()),
    }
}
