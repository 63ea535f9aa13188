//! The nodes of a tree, laid behind those that are laid, each behind its inputs.
ghost use Rattle.std.specs.Prelude.{◌≡◌, IfOk, IfErr};
ghost use Rattle.rel_algebra.specs.Rel.{Rel as Tree, Binary, Two, rels};
ghost use Rattle.rel_algebra.specs.Rel as r;
ghost use Rattle.rel_algebra.specs.View.{rel_view, rels_view};
ghost use Rattle.phys_plan.specs.declared.edge.Exchange.TheVariants.{Forward as ToSame};
ghost use Rattle.plan_rules.specs.Roles.{binary_way};
ghost use Rattle.plan_laying.specs.Laying.{Lays, LaysAll, Fails, FailsAll, Tops};

use crate::laying::{Laid, Laying};
use crate::laying_fault::LayingFault;
use crate::parts::all_kinds;
use crate::steps::{Step, step_of};
use crate::way::way_down;
use ct_value::{List, Numbers};
use mode_infer::{Flow, plain};
use phys_plan::{Exchange, Op};
use rel_algebra::Rel;

impl Laying {
    /// Lays the nodes of a tree, of which the root sends its rows forward, and answers the root: what is laid above it says how they go.
    /// The way up its first inputs is a loop, so that a long chain takes no stack. Its other inputs may nest so many levels; more are
    /// want of memory.
    #[cycle(tree)]
    pub(crate) fn lay(&mut self, rel: &Rel, levels: u32) -> Result<Laid, LayingFault>
        ensures laid { IfOk result (λ root. Lays self.old self.new ToSame (rel_view rel.now) root) }
        ensures fails { IfErr result (λ fault. Fails self.old (rel_view rel.now) fault) }
    {
        if levels == 0 {
            return Err(LayingFault::Memory);
        }
        let mut way = way_down(self.alloc, rel)?;
        let mut root = Laid {
            root: 0,
            kinds: all_kinds(),
        };
        'up: while let Some(top) = way.pop() {
            root = self.lay_node(top, root, levels - 1)?;
        }
        Ok(root)
    }

    // Lays the nodes of a tree behind those of its first input, if it has one, whose root is `below`.
    #[cycle(tree)]
    fn lay_node(&mut self, rel: &Rel, below: Laid, levels: u32) -> Result<Laid, LayingFault>
        ensures laid { IfOk result (λ root. Tops self.old self.new below (rel_view rel.now) root) }
        ensures fails { IfErr result (λ fault. Fails self.old (rel_view rel.now) fault) }
    {
        let step = step_of(self.mini_batch, rel)?;
        match step {
            Step::Table(source) => self.lay_scan(source),
            Step::All(inputs) => self.lay_union(inputs, levels),
            Step::One(op) => self.push_above(below, op),
            Step::Two(op, right) => self.lay_second(below, op, right, levels),
        }
    }

    // Lays the second input of an operator behind its first one, whose root is `below`, and the operator over both.
    #[cycle(tree)]
    fn lay_second(
        &mut self,
        below: Laid,
        op: Op,
        right: &Rel,
        levels: u32,
    ) -> Result<Laid, LayingFault>
        ensures laid { IfOk result (λ root. (how : Binary) (left : Tree) → op ≡ (binary_way how).op → Tops self.old self.new below (Two how left (rel_view right.now)) root) }
        ensures fails { IfErr result (λ fault. Fails self.old (rel_view right.now) fault) }
    {
        self.send_as_asked(&op, 0)?;
        let second = self.lay(right, levels)?;
        self.send_as_asked(&op, 1)?;
        self.push_both(below, second, op, Exchange::Forward)
    }

    #[cycle(tree)]
    fn lay_union(&mut self, inputs: &[Rel], levels: u32) -> Result<Laid, LayingFault>
        ensures laid { IfOk result (λ root. Lays self.old self.new ToSame (r.Union (rels (rels_view inputs.now))) root) }
        ensures fails { IfErr result (λ fault. Fails self.old (r.Union (rels (rels_view inputs.now))) fault) }
    {
        let all = self.lay_all(inputs, levels)?;
        self.push_sending(
            Op::Union,
            all.roots,
            all.flows.as_slice(),
            Exchange::Forward,
        )
    }

    // Several trees, one behind the other, with their roots and what these send.
    #[cycle(tree)]
    fn lay_all(&mut self, inputs: &[Rel], levels: u32) -> Result<LaidAll, LayingFault>
        ensures laid { IfOk result (λ all. LaysAll self.old self.new (rels (rels_view inputs.now)) all.roots all.flows) }
        ensures fails { IfErr result (λ fault. FailsAll self.old (rels (rels_view inputs.now)) fault) }
    {
        let mut roots = Numbers::new(self.alloc);
        let mut flows = List::new(self.alloc);
        for input in inputs {
            let laid = self.lay(input, levels)?;
            roots.push(laid.root)?;
            flows.push(plain(laid.kinds))?;
        }
        Ok(LaidAll { roots, flows })
    }
}

// The roots of several trees, and what they send.
#[derive(Drop)]
pub(crate) struct LaidAll {
    pub(crate) roots: Numbers,
    pub(crate) flows: List<Flow>,
}
