//! Operators over inputs that are laid, whose edges go as the operators ask.
ghost use Rattle.std.specs.Prelude.{◌≡◌, IfOk, IfErr, OnOk};
ghost use Rattle.mode_infer.specs.Kinds.{asked, by_columns};
ghost use Rattle.rel_algebra.specs.Rel.{Rel, Unary, One};
ghost use Rattle.phys_plan.specs.declared.node.Op.TheVariants as op;
ghost use Rattle.plan_rules.specs.Roles.{unary_way};
ghost use Rattle.plan_laying.specs.Laying.{Above, Phased, Resent, Tops};
ghost use Rattle.plan_laying.specs.Steps.{local_of};

use crate::laying::{Laid, Laying};
use crate::laying_fault::LayingFault;
use crate::parts::{exchange_of, send_last};
use ct_change::KindSet;
use ct_value::Memory;
use mode_infer::Flow;
use phys_plan::{Exchange, Op};
use plan_shape::have_parts;
use rel_algebra::Aggs;

impl Laying {
    /// The last edge goes as this operator asks for the rows of a port.
    pub(crate) fn send_as_asked(&mut self, op: &Op, port: usize) -> Result<(), LayingFault>
        ensures resent { OnOk result (Resent (by_columns (asked op.now port)) self.old self.new) }
        ensures full { IfErr result (λ fault. fault ≡ LayingFault.Memory) }
    {
        let exchange = exchange_of(self.alloc, op, port)?;
        send_last(&mut self.edges, exchange)?;
        Ok(())
    }

    /// An operator over the last node: a group that is taken in two phases merges the partial rows of a local group.
    pub(crate) fn push_above(&mut self, below: Laid, op: Op) -> Result<Laid, LayingFault>
        ensures laid { IfOk result (λ laid. (how : Unary) (input : Rel) → op ≡ (unary_way how).op self.old.mini_batch → Tops self.old self.new below (One how input) laid) }
        ensures full { IfErr result (λ fault. fault ≡ LayingFault.Memory) }
    {
        let local = self.local_group(&op, below.kinds)?;
        match local {
            Some(local) => self.push_phases(below, local, op),
            None => self.push_whole(below, op),
        }
    }

    // The local group below an operator over changes of these kinds, if it is a group that is taken in two phases.
    fn local_group(&self, op: &Op, kinds: KindSet) -> Result<Option<Op>, Memory>
        ensures { IfOk result (λ local. local ≡ local_of self.now.two_phase op.now kinds) }
    {
        match op {
            Op::BatchGroup { keys, aggs } => self.parts_of(*keys, aggs, kinds),
            _ => Ok(None),
        }
    }

    fn parts_of(&self, keys: u32, aggs: &Aggs, kinds: KindSet) -> Result<Option<Op>, Memory>
        ensures { IfOk result (λ local. local ≡ local_of self.now.two_phase (op.BatchGroup keys aggs.now) kinds) }
    {
        if self.two_phase && have_parts(kinds, aggs.as_slice()) {
            let aggs = aggs.dup()?;
            Ok(Some(Op::LocalGroup { keys, aggs }))
        } else {
            Ok(None)
        }
    }

    fn push_phases(&mut self, below: Laid, local: Op, op: Op) -> Result<Laid, LayingFault>
        ensures phased { IfOk result (λ laid. Phased self.old self.new below local op laid) }
        ensures full { IfErr result (λ fault. fault ≡ LayingFault.Memory) }
    {
        let exchange = exchange_of(self.alloc, &op, 0)?;
        let part = self.push_over(below, local, exchange)?;
        let partial = Flow {
            sent: part.kinds,
            meant: below.kinds,
        };
        self.push_one(part.root, partial, op, Exchange::Forward)
    }

    fn push_whole(&mut self, below: Laid, op: Op) -> Result<Laid, LayingFault>
        ensures above { IfOk result (λ laid. Above self.old self.new below op laid) }
        ensures full { IfErr result (λ fault. fault ≡ LayingFault.Memory) }
    {
        self.send_as_asked(&op, 0)?;
        self.push_over(below, op, Exchange::Forward)
    }
}
