ghost use Rattle.std.specs.Prelude.{◌≡◌, ℕ, ◌<◌, ◌+◌, List as Seq, [], Some, false, length, slice_get, IfOk, OnOk};
ghost use Rattle.ct_value.specs.declared.ty.ColTy.{ColTy};
ghost use Rattle.phys_plan.specs.declared.plan.Plan.{Plan};
ghost use Rattle.stream_model.specs.Network.{Network};
ghost use Rattle.session_open.specs.Opening.{IsMade, IsOpenedAs};

use ct_change::Changes;
use ct_value::{ColTys, List, Memory};
use op_rules::PieceOperator;
use phys_plan::Plan;
use session_subtasks::Subtask;
use std::alloc::Global;

/// An operator that can be made for a node of a plan. Nodes are counted from 1; the lists have, by a node's number, the types of
/// the columns that it sends.
pub trait PlanOperator: PieceOperator + Drop {
    /// The networks as whose nodes the operators of a plan run, by the types of the columns that each node sends.
    ghost runs: { Plan → Seq (Seq ColTy) → Network → Type 0 };

    /// The operator of a node, and none where the node has no ports: then it opens with nothing.
    fn make(
        alloc: Global,
        plan: &Plan,
        columns: &List<ColTys>,
        node: u32,
    ) -> Result<Option<Self>, Memory>
        requires { (g : Network) × runs plan.now columns.now g }
        ensures { IfOk result (λ made. (g : Network) → runs plan.now columns.now g → IsMade Self.rule Self.broken Self.stands_for Self.takes_pieces g node made) };

    /// What a new operator emits as the given subtask when the job opens. It goes on taking pieces, if it does.
    fn open(&mut self, subtask: u32) -> Result<Changes, Memory>
        requires whole { Self.broken self.old ≡ false }
        requires new { Self.stands_for self.old [] }
        ensures rule_stays { Self.rule self.new ≡ Self.rule self.old }
        ensures pieces_stay { Self.takes_pieces self.new ≡ Self.takes_pieces self.old }
        ensures ok { IfOk result (λ sent. (sent ≡ (Self.rule self.old).opening subtask) × Self.stands_for self.new []) }
        ensures stays_whole { OnOk result (Self.broken self.new ≡ false) };

    /// The types of the row at which a node is out of range.
    fn range_types(
        alloc: Global,
        plan: &Plan,
        columns: &List<ColTys>,
        node: u32,
    ) -> Result<ColTys, Memory>
        requires { (g : Network) × runs plan.now columns.now g }
        ensures { IfOk result (λ types. (g : Network) → runs plan.now columns.now g → types ≡ g.range_types node) };
}

/// A subtask of a node, which holds nothing, and what it opens with.
pub(crate) fn open_node<O: PlanOperator>(
    alloc: Global,
    plan: &Plan,
    columns: &List<ColTys>,
    node: u32,
    subtask: u32,
) -> Result<(Option<Subtask<O>>, Changes), Memory>
    requires { (g : Network) × O.runs plan.now columns.now g }
    ensures { IfOk result (λ opened. (g : Network) → O.runs plan.now columns.now g → IsOpenedAs O.rule O.broken O.stands_for O.takes_pieces g node subtask opened.0 opened.1) }
{
    match O::make(alloc, plan, columns, node)? {
        None => Ok((None, Changes::new(alloc))),
        Some(op) => open_operator(alloc, op, subtask),
    }
}

// A subtask with the operator, and what it opens with.
fn open_operator<O: PlanOperator>(
    alloc: Global,
    op: O,
    subtask: u32,
) -> Result<(Option<Subtask<O>>, Changes), Memory>
    requires { (g : Network) × (v : ℕ) × IsMade O.rule O.broken O.stands_for O.takes_pieces g v (Some op) }
    ensures { IfOk result (λ opened. (g : Network) (v : ℕ) → IsMade O.rule O.broken O.stands_for O.takes_pieces g v (Some op) → IsOpenedAs O.rule O.broken O.stands_for O.takes_pieces g v subtask opened.0 opened.1) }
{
    let mut operator = op;
    let sent = operator.open(subtask)?;
    let held = Changes::new(alloc);
    Ok((Some(Subtask { operator, held }), sent))
}

/// The types of the row at which each node is out of range.
pub(crate) fn range_types_of<O: PlanOperator>(
    alloc: Global,
    plan: &Plan,
    columns: &List<ColTys>,
) -> Result<Vec<ColTys>, Memory>
    requires few { length plan.now.nodes < 999 }
    requires ready { (g : Network) × O.runs plan.now columns.now g }
    ensures many { IfOk result (λ types. length types.items ≡ length plan.now.nodes + 1) }
    ensures types { IfOk result (λ types. (g : Network) → O.runs plan.now columns.now g → (v : ℕ) (of : Seq ColTy) → slice_get types.items v ≡ Some of → of ≡ g.range_types v) }
{
    let mut types = Vec::new(alloc);
    for node in 0..plan.nodes.len() + 1 {
        types.push(O::range_types(alloc, plan, columns, node as u32)?)?;
    }
    Ok(types)
}
