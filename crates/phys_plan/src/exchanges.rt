//! Where a node's changes come from and go, and of which kinds they are.
ghost use Rattle.std.specs.Prelude.{◌≡◌, ◌++◌, option_copied, OnOk};
ghost use Rattle.phys_plan.specs.Parts.{name_part};
ghost use Rattle.phys_plan.specs.Explained as e;

use crate::texts::{push_cols, push_numbers};
use crate::{Edge, Exchange, Op};
use ct_change::KindSet;
use ct_value::{Bytes, Memory};
use std::alloc::Global;

/// Puts the numbers of a node's inputs, each behind so many other nodes, behind a text.
pub(crate) fn push_inputs(
    alloc: Global,
    text: &mut Bytes,
    before: u32,
    inputs: &[u32],
) -> Result<(), Memory>
    ensures { OnOk result (text.new ≡ text.old ++ e.inputs_text before inputs.now) }
{
    if inputs.is_empty() {
        return Ok(());
    }
    text.extend(b" from ")?;
    push_numbers(alloc, text, before, inputs)
}

/// Puts what is known of a node's edge behind a text.
pub(crate) fn push_edge(
    alloc: Global,
    text: &mut Bytes,
    op: &Op,
    edge: Option<&Edge>,
) -> Result<(), Memory>
    ensures { OnOk result (text.new ≡ text.old ++ e.edge_text op.now (option_copied edge.entry)) }
{
    match edge {
        None => {
            push_sent(alloc, text, op, &Exchange::Forward)?;
            push_kinds(text, NO_KINDS)
        }
        Some(edge) => {
            push_sent(alloc, text, op, &edge.exchange)?;
            push_kinds(text, edge.kinds)
        }
    }
}

const NO_KINDS: KindSet = KindSet {
    i: false,
    ub: false,
    ua: false,
    d: false,
};

// Nothing is sent on from a sink.
fn push_sent(alloc: Global, text: &mut Bytes, op: &Op, exchange: &Exchange) -> Result<(), Memory>
    ensures { OnOk result (text.new ≡ text.old ++ e.sent_text op.now exchange.now) }
{
    match op {
        Op::Sink => Ok(()),
        _ => push_exchange(alloc, text, exchange),
    }
}

fn push_exchange(alloc: Global, text: &mut Bytes, exchange: &Exchange) -> Result<(), Memory>
    ensures { OnOk result (text.new ≡ text.old ++ e.exchange_text exchange.now) }
{
    match exchange {
        Exchange::Forward => text.extend(b" forward"),
        Exchange::Hash(cols) => {
            text.extend(b" hash[")?;
            push_cols(alloc, text, cols.as_slice())?;
            text.extend(b"]")
        }
    }
}

fn push_kinds(text: &mut Bytes, kinds: KindSet) -> Result<(), Memory>
    ensures { OnOk result (text.new ≡ text.old ++ e.kinds_text kinds) }
{
    text.extend(b" changelogMode=[")?;
    push_names(text, kinds)?;
    text.extend(b"]")
}

// The names of the kinds, with commas between them.
#[tactic(auto, using(crate::proofs::Names::names_parts))]
fn push_names(text: &mut Bytes, kinds: KindSet) -> Result<(), Memory>
    ensures { OnOk result (text.new ≡ text.old ++ e.commas (e.kind_names kinds)) }
{
    push_name(text, kinds.i, false, "I")?;
    push_name(text, kinds.ub, kinds.i, "UB")?;
    push_name(text, kinds.ua, kinds.i || kinds.ub, "UA")?;
    push_name(text, kinds.d, kinds.i || kinds.ub || kinds.ua, "D")
}

// The name of a kind, where it is in the set, with a comma where others stand before it.
fn push_name(text: &mut Bytes, held: bool, behind: bool, name: &str) -> Result<(), Memory>
    ensures { OnOk result (text.new ≡ text.old ++ name_part held behind name.now) }
{
    if !held {
        return Ok(());
    }
    if behind {
        text.extend(b",")?;
    }
    text.extend(name.as_bytes())
}
