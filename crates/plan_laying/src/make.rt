//! The plan of a tree.
ghost use Rattle.std.specs.Prelude.{◌≡◌, false, IfOk, IfErr, OnOk};
ghost use Rattle.rel_algebra.specs.View.{rel_view};
ghost use Rattle.plan_rules.specs.Pieces.{bare, plan_of_tree};
ghost use Rattle.plan_laying.specs.Faults.{Says, lacks_table};

use crate::laying::Laying;
use crate::laying_fault::LayingFault;
use ct_catalog::{Sources, TableDef};
use phys_plan::{Edges, Nodes, Plan};
use rel_algebra::Rel;
use std::alloc::Global;

// The most levels to which inputs behind a first one may nest: each takes stack, and a script nests them no deeper than its parentheses.
const MOST_LEVELS: u32 = 1_000;

/// The plan that is laid of a tree over these tables, each node in so many subtasks; its last node is the sink.
/// Where `mini_batch` isn't 0, groups by keys keep bundles of so many changes, and with `two_phase` those whose calls can be summed up are taken in two
/// phases: a local group before the exchange (Flink documentation, "Performance Tuning", "MiniBatch Aggregation", "Local-Global Aggregation").
/// `NoTable` comes where a part of the tree scans a table that isn't there. Otherwise there is a plan, or memory was wanting, as where other inputs than
/// first ones nest more than 1,000 levels.
pub fn plan_of(
    alloc: Global,
    rel: &Rel,
    sources: Sources,
    sink: TableDef,
    parallelism: u32,
    mini_batch: u32,
    two_phase: bool,
) -> Result<Plan, LayingFault>
    ensures plan { IfOk result (λ plan. plan ≡ plan_of_tree sources sink parallelism (record { size = mini_batch; two_phase = two_phase }) bare (rel_view rel.now)) }
    ensures tables { OnOk result (lacks_table sources (rel_view rel.now) ≡ false) }
    ensures fault { IfErr result (λ fault. Says sources (rel_view rel.now) fault) }
{
    let mut laying = Laying {
        alloc,
        sources,
        mini_batch,
        two_phase,
        nodes: Nodes::new(alloc),
        edges: Edges::new(alloc),
    };
    let tree = laying.lay(rel, MOST_LEVELS)?;
    laying.push_sink(tree.root)?;
    let Laying {
        sources,
        nodes,
        edges,
        ..
    } = laying;
    Ok(Plan {
        sources,
        sink,
        nodes,
        edges,
        parallelism,
        mini_batch,
    })
}
