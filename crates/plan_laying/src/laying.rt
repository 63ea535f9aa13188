//! What is laid of a plan, and nodes that are put behind it.
ghost use Rattle.std.specs.Prelude.{◌≡◌, [], ◌∷◌, IfOk, IfErr, OnOk};
ghost use Rattle.ct_change.specs.Changelog.{retract, upsert, kinds_of};
ghost use Rattle.phys_plan.specs.declared.edge.Exchange.TheVariants.{Forward as ToSame, Hash as ByHash};
ghost use Rattle.ct_change.specs.declared.update.Update.TheVariants.{Absent as NoUpdate, After as AfterKey};
ghost use Rattle.phys_plan.specs.declared.node.Op.TheVariants as op;
ghost use Rattle.mode_infer.specs.Kinds as k;
ghost use Rattle.plan_laying.specs.Laying.{Pushed, Sends, Shows};

use crate::laying_fault::LayingFault;
use crate::parts::{all_kinds, no_keys, two_numbers, upsert_kinds};
use ct_catalog::Sources;
use ct_change::{KindSet, Update};
use ct_value::{Cols, List, Numbers};
use mode_infer::{Flow, flow_of, plain};
use phys_plan::{Edge, Edges, Exchange, Node, Nodes, Op};
use std::alloc::Global;

/// What is laid of a plan over some tables, whose bundles hold so many changes, and whose groups in bundles are taken in two phases or in one:
/// its nodes so far, and the edges that leave them.
#[derive(Drop)]
pub struct Laying {
    pub alloc: Global,
    pub sources: Sources,
    pub mini_batch: u32,
    pub two_phase: bool,
    pub nodes: Nodes,
    pub edges: Edges,
}

/// The last node of what is laid of a tree, and the kinds that it sends as long as no edge leaves out old rows.
#[derive(Clone, Copy)]
pub struct Laid {
    pub root: u32,
    pub kinds: KindSet,
}

impl Laying {
    // Puts a node behind the others, with its edge, and answers its number. More nodes than numbers of 32 bits count as want of memory.
    pub(crate) fn push(&mut self, op: Op, inputs: Numbers, edge: Edge) -> Result<u32, LayingFault>
        ensures pushed { IfOk result (λ number. Pushed self.old self.new op inputs edge.exchange edge.kinds edge.update number) }
        ensures full { IfErr result (λ fault. fault ≡ LayingFault.Memory) }
    {
        let Ok(before) = u32::try_from(self.nodes.len()) else {
            return Err(LayingFault::Memory);
        };
        let Some(number) = before.checked_add(1) else {
            return Err(LayingFault::Memory);
        };
        self.nodes.push(Node {
            op,
            inputs,
            keys: no_keys(self.alloc),
        })?;
        self.edges.push(edge)?;
        Ok(number)
    }

    // The same of a node over inputs of these flows, whose edge carries what it sends, and both rows of an update.
    pub(crate) fn push_sending(
        &mut self,
        op: Op,
        inputs: Numbers,
        flows: &[Flow],
        exchange: Exchange,
    ) -> Result<Laid, LayingFault>
        ensures pushed { IfOk result (λ laid. Sends self.old self.new op inputs flows.now exchange laid) }
        ensures full { IfErr result (λ fault. fault ≡ LayingFault.Memory) }
    {
        let kinds = flow_of(self.sources.as_slice(), &op, flows).sent;
        let edge = Edge {
            exchange,
            kinds,
            update: Update::Both,
        };
        let root = self.push(op, inputs, edge)?;
        Ok(Laid { root, kinds })
    }

    // The same of one with a single input.
    pub(crate) fn push_one(
        &mut self,
        below: u32,
        flow: Flow,
        op: Op,
        exchange: Exchange,
    ) -> Result<Laid, LayingFault>
        ensures pushed { IfOk result (λ laid. Sends self.old self.new op (below ∷ []) (flow ∷ []) exchange laid) }
        ensures full { IfErr result (λ fault. fault ≡ LayingFault.Memory) }
    {
        let mut inputs = Numbers::new(self.alloc);
        inputs.push(below)?;
        let mut flows = List::new(self.alloc);
        flows.push(flow)?;
        self.push_sending(op, inputs, flows.as_slice(), exchange)
    }

    // The same over the root of a tree.
    pub(crate) fn push_over(
        &mut self,
        below: Laid,
        op: Op,
        exchange: Exchange,
    ) -> Result<Laid, LayingFault>
        ensures pushed { IfOk result (λ laid. Sends self.old self.new op (below.root ∷ []) (k.plain below.kinds ∷ []) exchange laid) }
        ensures full { IfErr result (λ fault. fault ≡ LayingFault.Memory) }
    {
        self.push_one(below.root, plain(below.kinds), op, exchange)
    }

    // The same over the roots of two.
    pub(crate) fn push_both(
        &mut self,
        left: Laid,
        right: Laid,
        op: Op,
        exchange: Exchange,
    ) -> Result<Laid, LayingFault>
        ensures pushed { IfOk result (λ laid. Sends self.old self.new op (left.root ∷ (right.root ∷ [])) (k.plain left.kinds ∷ (k.plain right.kinds ∷ [])) exchange laid) }
        ensures full { IfErr result (λ fault. fault ≡ LayingFault.Memory) }
    {
        let inputs = two_numbers(self.alloc, left.root, right.root)?;
        let mut flows = List::new(self.alloc);
        flows.push(plain(left.kinds))?;
        flows.push(plain(right.kinds))?;
        self.push_sending(op, inputs, flows.as_slice(), exchange)
    }

    // A scan whose edge is after-only by a key, and hashed by it.
    pub(crate) fn push_keyed_scan(&mut self, source: u32, key: &Cols) -> Result<u32, LayingFault>
        ensures pushed { IfOk result (λ number. Pushed self.old self.new (op.Scan source) [] (ByHash key.now) (kinds_of (upsert key.now)) (AfterKey key.now) number) }
        ensures full { IfErr result (λ fault. fault ≡ LayingFault.Memory) }
    {
        let edge = Edge {
            exchange: Exchange::Hash(key.dup()?),
            kinds: upsert_kinds(),
            update: Update::After(key.dup()?),
        };
        let inputs = Numbers::new(self.alloc);
        self.push(Op::Scan { source }, inputs, edge)
    }

    // The sink, over a node.
    pub(crate) fn push_sink(&mut self, below: u32) -> Result<u32, LayingFault>
        ensures pushed { IfOk result (λ number. Pushed self.old self.new op.Sink (below ∷ []) ToSame (kinds_of retract) NoUpdate number) }
        ensures full { IfErr result (λ fault. fault ≡ LayingFault.Memory) }
    {
        let mut inputs = Numbers::new(self.alloc);
        inputs.push(below)?;
        let edge = Edge {
            exchange: Exchange::Forward,
            kinds: all_kinds(),
            update: Update::Absent,
        };
        self.push(Op::Sink, inputs, edge)
    }

    // A materializer by this key over the last of the nodes, and the sink over it.
    #[tactic(auto, using(crate::proofs::laws::Laid::shows))]
    pub(crate) fn push_shown(&mut self, key: Cols) -> Result<(), LayingFault>
        ensures { OnOk result (Shows key self.old self.new) }
    {
        let Ok(root) = u32::try_from(self.nodes.len()) else {
            return Err(LayingFault::Memory);
        };
        let below = Laid {
            root,
            kinds: all_kinds(),
        };
        let shown = self.push_over(below, Op::Materialize { key }, Exchange::Forward)?;
        self.push_sink(shown.root)?;
        Ok(())
    }
}
