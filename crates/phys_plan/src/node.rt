//! What a node of a plan does, and that as text.
ghost use Rattle.std.specs.Prelude.{◌≡◌, ◌++◌, codes, option_copied, OnOk};
ghost use Rattle.std.specs.Fmt.{decimal};
ghost use Rattle.phys_plan.specs.Explained as e;

use crate::Plan;
use crate::texts::{push_called, push_cols};
use ct_catalog::TableDef;
use ct_expr::{Expr, Exprs};
use ct_value::{Bytes, Cols, List, Memory, Numbers};
use rel_algebra::{Aggs, JoinKind, Pairs, Sorts};
use std::alloc::Global;

/// Sets of columns.
pub type Keys = List<Cols>;

/// For each input but the first, the pairs by which it is joined.
pub type PairLists = List<Pairs>;

/// What a node does. Columns are counted from 0, and those of two inputs stand side by side, the left's first.
pub enum Op {
    /// Sends the changes of a table, counted from 0.
    Scan {
        source: u32,
    },
    /// Passes on the rows on which the condition is TRUE.
    Filter {
        cond: Expr,
    },
    /// Sends for each row the values of the items.
    Project {
        items: Exprs,
    },
    /// Passes on what comes to any of its ports.
    Union,
    /// Tells the changes of an upsert table in full, by its key.
    Normalize {
        key: Cols,
    },
    /// Groups by the first `keys` columns.
    Group {
        keys: u32,
        aggs: Aggs,
    },
    /// The same in bundles.
    BatchGroup {
        keys: u32,
        aggs: Aggs,
    },
    /// Joins two inputs.
    Join {
        kind: JoinKind,
        on: Pairs,
        rest: Option<Expr>,
    },
    /// Passes on the left rows that have a match on the right, or with `anti` those that have none.
    Semi {
        anti: bool,
        on: Pairs,
        rest: Option<Expr>,
    },
    /// The first `bound` rows of each partition, `ranked` with their ranks as the last column.
    TopN {
        partition: Cols,
        order: Sorts,
        bound: u32,
        ranked: bool,
    },
    /// Shows the last of the rows that stand under each key.
    Materialize {
        key: Cols,
    },
    /// Prints what comes.
    Sink,
    /// Sums up a bundle's rows by group, as partial results.
    LocalGroup {
        keys: u32,
        aggs: Aggs,
    },
    /// Joins several inputs.
    MultiJoin {
        on: PairLists,
    },
    /// The rows of the left without those of the right, or those that are in both, of so many columns.
    SetOp {
        except: bool,
        all: bool,
        columns: u32,
    },
}

// By hand, so that whoever owns an operator doesn't prove again how each kind of it is dropped.
impl Drop for Op {
    fn drop(self) {
        match self {
            Op::Scan { source: _source } => {}
            Op::Filter { cond } => drop(cond),
            Op::Project { items } => drop(items),
            Op::Union | Op::Sink => {}
            Op::Normalize { key } | Op::Materialize { key } => drop(key),
            Op::Group { keys: _keys, aggs }
            | Op::BatchGroup { keys: _keys, aggs }
            | Op::LocalGroup { keys: _keys, aggs } => drop(aggs),
            Op::Join {
                kind: _kind,
                on,
                rest,
            } => {
                drop(on);
                drop(rest);
            }
            Op::Semi {
                anti: _anti,
                on,
                rest,
            } => {
                drop(on);
                drop(rest);
            }
            Op::TopN {
                partition,
                order,
                bound: _bound,
                ranked: _ranked,
            } => {
                drop(partition);
                drop(order);
            }
            Op::MultiJoin { on } => drop(on),
            Op::SetOp {
                except: _except,
                all: _all,
                columns: _columns,
            } => {}
        }
    }
}

/// The keys of a node's output: those of each answer, those of what one subtask sends at every moment, and the sets that
/// fix the subtask.
#[derive(Debug, Drop)]
pub struct KeyInfo {
    pub unique: Keys,
    pub local: Keys,
    pub fixing: Keys,
}

/// A node, with the numbers of the nodes that feed its ports, the left input first.
#[derive(Drop)]
pub struct Node {
    pub op: Op,
    pub inputs: Numbers,
    pub keys: KeyInfo,
}

/// The nodes of a plan, numbered from 1, each after its inputs.
pub type Nodes = List<Node>;

// ---- as text

/// Puts what a node of so many inputs does behind a text.
pub(crate) fn push_operator(
    alloc: Global,
    text: &mut Bytes,
    plan: &Plan,
    op: &Op,
    inputs: usize,
) -> Result<(), Memory>
    ensures { OnOk result (text.new ≡ text.old ++ e.operator_text plan.now.sources plan.now.sink op.now inputs) }
{
    match op {
        Op::Scan { source } => push_scan(text, plan.sources.get(*source as usize)),
        Op::Filter { .. } => text.extend(b"Filter"),
        Op::Project { items } => push_counted(alloc, text, "Project", items.len()),
        Op::Union => text.extend(b"Union"),
        Op::Normalize { key } => push_keyed(alloc, text, "Normalize", key),
        Op::Group { keys, aggs } => push_group(alloc, text, "Group", *keys, aggs.len()),
        Op::BatchGroup { keys, aggs } => push_group(alloc, text, "BatchGroup", *keys, aggs.len()),
        Op::Join { kind, .. } => text.extend(join_text(*kind).as_bytes()),
        Op::Semi { anti, .. } => text.extend(semi_text(*anti).as_bytes()),
        Op::TopN { bound, ranked, .. } => push_top(alloc, text, *bound, *ranked),
        Op::Materialize { key } => push_keyed(alloc, text, "Materialize", key),
        Op::Sink => push_called(text, "Sink", plan.sink.name.as_slice()),
        Op::LocalGroup { keys, aggs } => push_group(alloc, text, "LocalGroup", *keys, aggs.len()),
        Op::MultiJoin { .. } => push_counted(alloc, text, "MultiJoin", inputs),
        Op::SetOp { except, all, .. } => text.extend(set_text(*except, *all).as_bytes()),
    }
}

fn push_scan(text: &mut Bytes, table: Option<&TableDef>) -> Result<(), Memory>
    ensures { OnOk result (text.new ≡ text.old ++ e.scan_text (option_copied table.entry)) }
{
    match table {
        None => push_called(text, "Scan", b""),
        Some(table) => push_called(text, "Scan", table.name.as_slice()),
    }
}

fn push_counted(alloc: Global, text: &mut Bytes, word: &str, count: usize) -> Result<(), Memory>
    ensures { OnOk result (text.new ≡ text.old ++ e.called word.now (decimal count)) }
{
    let count = format!(in alloc; "{count}")?;
    push_called(text, word, count.as_bytes())
}

fn push_keyed(alloc: Global, text: &mut Bytes, word: &str, key: &Cols) -> Result<(), Memory>
    ensures { OnOk result (text.new ≡ text.old ++ e.called word.now (e.numbers key.now)) }
{
    let mut cols = Bytes::new(alloc);
    push_cols(alloc, &mut cols, key.as_slice())?;
    push_called(text, word, cols.as_slice())
}

fn push_group(
    alloc: Global,
    text: &mut Bytes,
    word: &str,
    keys: u32,
    aggs: usize,
) -> Result<(), Memory>
    ensures { OnOk result (text.new ≡ text.old ++ e.called word.now (e.group_text keys aggs)) }
{
    let counts = format!(in alloc; "{keys},{aggs}")?;
    push_called(text, word, counts.as_bytes())
}

fn push_top(alloc: Global, text: &mut Bytes, bound: u32, ranked: bool) -> Result<(), Memory>
    ensures { OnOk result (text.new ≡ text.old ++ e.called (codes "TopN") (decimal bound ++ e.rank_text ranked)) }
{
    let rank = rank_text(ranked);
    let inside = format!(in alloc; "{bound}{rank}")?;
    push_called(text, "TopN", inside.as_bytes())
}

fn rank_text(ranked: bool) -> &'static str
    ensures { result.now ≡ e.rank_text ranked }
{
    if ranked { ",rank" } else { "" }
}

fn join_text(kind: JoinKind) -> &'static str
    ensures { result.now ≡ e.join_text kind }
{
    match kind {
        JoinKind::Inner => "Join(inner)",
        JoinKind::Left => "Join(left)",
        JoinKind::Right => "Join(right)",
        JoinKind::Full => "Join(full)",
    }
}

fn semi_text(anti: bool) -> &'static str
    ensures { result.now ≡ e.semi_text anti }
{
    if anti { "Anti" } else { "Semi" }
}

fn set_text(except: bool, all: bool) -> &'static str
    ensures { result.now ≡ e.set_text except all }
{
    match (except, all) {
        (false, false) => "Intersect",
        (false, true) => "IntersectAll",
        (true, false) => "Except",
        (true, true) => "ExceptAll",
    }
}
