ghost use Rattle.std.specs.Prelude.{◌≡◌, [], true, false, IfOk, OnOk, OnErr};

use crate::AnyMode;
use ct_change::{Change, Changes, Steps};
use ct_value::Memory;
use op_group::Group;
use op_join::Join;
use op_local::LocalGroup;
use op_merge::MergeGroup;
use op_row::{FilterOp, NormalizeOp, ProjectOp, UnionOp};
use op_rules::{OpFault, Operator, PieceOperator};
use op_semi::SemiJoin;
use op_setops::SetOp;
use op_sink::{Materialize, SinkWriter};
use op_topn::TopN;
use session_core::RelayOperator;
use std::sync::ledger::Ledger;

/// An operator of any of the kinds that a plan has.
pub enum AnyOperator {
    Filter(FilterOp),
    Project(ProjectOp),
    Union(UnionOp),
    Normalize(NormalizeOp<AnyMode>),
    Group(Group<AnyMode, AnyMode>),
    Local(LocalGroup<AnyMode>),
    Merge(MergeGroup<AnyMode>),
    Join(Join<AnyMode, AnyMode>),
    Semi(SemiJoin<AnyMode, AnyMode>),
    SetOp(SetOp),
    TopN(TopN<AnyMode, AnyMode>),
    Materialize(Materialize),
    Sink(SinkWriter),
}

// By hand, so that whoever owns a session doesn't prove again how each kind of operator is dropped.
impl Drop for AnyOperator {
    fn drop(self) {
        match self {
            AnyOperator::Filter(operator) => drop(operator),
            AnyOperator::Project(operator) => drop(operator),
            AnyOperator::Union(operator) => drop(operator),
            AnyOperator::Normalize(operator) => drop(operator),
            AnyOperator::Group(operator) => drop(operator),
            AnyOperator::Local(operator) => drop(operator),
            AnyOperator::Merge(operator) => drop(operator),
            AnyOperator::Join(operator) => drop(operator),
            AnyOperator::Semi(operator) => drop(operator),
            AnyOperator::SetOp(operator) => drop(operator),
            AnyOperator::TopN(operator) => drop(operator),
            AnyOperator::Materialize(operator) => drop(operator),
            AnyOperator::Sink(operator) => drop(operator),
        }
    }
}

impl Operator for AnyOperator {
    ghost use Rattle.session_open.specs.declared.any.AnyOperator.TheVariants.{Filter, Project, Union, Normalize, Group as Grouped, Local as Parted, Merge as Merged, Join as Joined, Semi, SetOp as Operated, TopN as Top, Materialize as Shown, Sink};

    ghost rule = { elim [
      | Filter o ↦ ⟦<FilterOp as Operator>⟧.rule o
      | Project o ↦ ⟦<ProjectOp as Operator>⟧.rule o
      | Union o ↦ ⟦<UnionOp as Operator>⟧.rule o
      | Normalize o ↦ ⟦<NormalizeOp<AnyMode> as Operator>⟧.rule o
      | Grouped o ↦ ⟦<Group<AnyMode, AnyMode> as Operator>⟧.rule o
      | Parted o ↦ ⟦<LocalGroup<AnyMode> as Operator>⟧.rule o
      | Merged o ↦ ⟦<MergeGroup<AnyMode> as Operator>⟧.rule o
      | Joined o ↦ ⟦<Join<AnyMode, AnyMode> as Operator>⟧.rule o
      | Semi o ↦ ⟦<SemiJoin<AnyMode, AnyMode> as Operator>⟧.rule o
      | Operated o ↦ ⟦<SetOp as Operator>⟧.rule o
      | Top o ↦ ⟦<TopN<AnyMode, AnyMode> as Operator>⟧.rule o
      | Shown o ↦ ⟦<Materialize as Operator>⟧.rule o
      | Sink o ↦ ⟦<SinkWriter as Operator>⟧.rule o
    ] };

    ghost broken = { elim [
      | Filter o ↦ ⟦<FilterOp as Operator>⟧.broken o
      | Project o ↦ ⟦<ProjectOp as Operator>⟧.broken o
      | Union o ↦ ⟦<UnionOp as Operator>⟧.broken o
      | Normalize o ↦ ⟦<NormalizeOp<AnyMode> as Operator>⟧.broken o
      | Grouped o ↦ ⟦<Group<AnyMode, AnyMode> as Operator>⟧.broken o
      | Parted o ↦ ⟦<LocalGroup<AnyMode> as Operator>⟧.broken o
      | Merged o ↦ ⟦<MergeGroup<AnyMode> as Operator>⟧.broken o
      | Joined o ↦ ⟦<Join<AnyMode, AnyMode> as Operator>⟧.broken o
      | Semi o ↦ ⟦<SemiJoin<AnyMode, AnyMode> as Operator>⟧.broken o
      | Operated o ↦ ⟦<SetOp as Operator>⟧.broken o
      | Top o ↦ ⟦<TopN<AnyMode, AnyMode> as Operator>⟧.broken o
      | Shown o ↦ ⟦<Materialize as Operator>⟧.broken o
      | Sink o ↦ ⟦<SinkWriter as Operator>⟧.broken o
    ] };

    ghost stands_for = { elim [
      | Filter o ↦ ⟦<FilterOp as Operator>⟧.stands_for o
      | Project o ↦ ⟦<ProjectOp as Operator>⟧.stands_for o
      | Union o ↦ ⟦<UnionOp as Operator>⟧.stands_for o
      | Normalize o ↦ ⟦<NormalizeOp<AnyMode> as Operator>⟧.stands_for o
      | Grouped o ↦ ⟦<Group<AnyMode, AnyMode> as Operator>⟧.stands_for o
      | Parted o ↦ ⟦<LocalGroup<AnyMode> as Operator>⟧.stands_for o
      | Merged o ↦ ⟦<MergeGroup<AnyMode> as Operator>⟧.stands_for o
      | Joined o ↦ ⟦<Join<AnyMode, AnyMode> as Operator>⟧.stands_for o
      | Semi o ↦ ⟦<SemiJoin<AnyMode, AnyMode> as Operator>⟧.stands_for o
      | Operated o ↦ ⟦<SetOp as Operator>⟧.stands_for o
      | Top o ↦ ⟦<TopN<AnyMode, AnyMode> as Operator>⟧.stands_for o
      | Shown o ↦ ⟦<Materialize as Operator>⟧.stands_for o
      | Sink o ↦ ⟦<SinkWriter as Operator>⟧.stands_for o
    ] };

    fn opening(&mut self, subtask: u32) -> Result<Changes, Memory> {
        self.start(subtask)
    }

    fn consume<L: Ledger>(
        &mut self,
        port: u32,
        change: Change,
        to: &mut Changes,
        steps: &mut Steps<L>,
    ) -> Result<(), OpFault> {
        match self {
            AnyOperator::Filter(o) => o.consume(port, change, to, steps),
            AnyOperator::Project(o) => o.consume(port, change, to, steps),
            AnyOperator::Union(o) => o.consume(port, change, to, steps),
            AnyOperator::Normalize(o) => o.consume(port, change, to, steps),
            AnyOperator::Group(o) => o.consume(port, change, to, steps),
            AnyOperator::Local(o) => o.consume(port, change, to, steps),
            AnyOperator::Merge(o) => o.consume(port, change, to, steps),
            AnyOperator::Join(o) => o.consume(port, change, to, steps),
            AnyOperator::Semi(o) => o.consume(port, change, to, steps),
            AnyOperator::SetOp(o) => o.consume(port, change, to, steps),
            AnyOperator::TopN(o) => o.consume(port, change, to, steps),
            AnyOperator::Materialize(o) => o.consume(port, change, to, steps),
            AnyOperator::Sink(o) => o.consume(port, change, to, steps),
        }
    }

    fn is_broken(&self) -> bool {
        match self {
            AnyOperator::Filter(o) => o.is_broken(),
            AnyOperator::Project(o) => o.is_broken(),
            AnyOperator::Union(o) => o.is_broken(),
            AnyOperator::Normalize(o) => o.is_broken(),
            AnyOperator::Group(o) => o.is_broken(),
            AnyOperator::Local(o) => o.is_broken(),
            AnyOperator::Merge(o) => o.is_broken(),
            AnyOperator::Join(o) => o.is_broken(),
            AnyOperator::Semi(o) => o.is_broken(),
            AnyOperator::SetOp(o) => o.is_broken(),
            AnyOperator::TopN(o) => o.is_broken(),
            AnyOperator::Materialize(o) => o.is_broken(),
            AnyOperator::Sink(o) => o.is_broken(),
        }
    }
}

impl PieceOperator for AnyOperator {
    ghost use Rattle.session_open.specs.declared.any.AnyOperator.TheVariants.{Filter, Project, Union, Normalize, Group as Grouped, Local as Parted, Merge as Merged, Join as Joined, Semi, SetOp as Operated, TopN as Top, Materialize as Shown, Sink};
    ghost use Rattle.std.specs.Prelude.{false};

    ghost takes_pieces = { elim [
      | Filter o ↦ false
      | Project o ↦ false
      | Union o ↦ false
      | Normalize o ↦ false
      | Grouped o ↦ ⟦<Group<AnyMode, AnyMode> as PieceOperator>⟧.takes_pieces o
      | Parted o ↦ ⟦<LocalGroup<AnyMode> as PieceOperator>⟧.takes_pieces o
      | Merged o ↦ ⟦<MergeGroup<AnyMode> as PieceOperator>⟧.takes_pieces o
      | Joined o ↦ false
      | Semi o ↦ false
      | Operated o ↦ false
      | Top o ↦ false
      | Shown o ↦ false
      | Sink o ↦ false
    ] };

    fn take_piece<L: Ledger>(
        &mut self,
        changes: Changes,
        steps: &mut Steps<L>,
    ) -> Result<Changes, OpFault> {
        match self {
            AnyOperator::Group(o) => o.take_piece(changes, steps),
            AnyOperator::Local(o) => o.take_piece(changes, steps),
            AnyOperator::Merge(o) => o.take_piece(changes, steps),
            AnyOperator::Filter(_) => unreachable!(),
            AnyOperator::Project(_) => unreachable!(),
            AnyOperator::Union(_) => unreachable!(),
            AnyOperator::Normalize(_) => unreachable!(),
            AnyOperator::Join(_) => unreachable!(),
            AnyOperator::Semi(_) => unreachable!(),
            AnyOperator::SetOp(_) => unreachable!(),
            AnyOperator::TopN(_) => unreachable!(),
            AnyOperator::Materialize(_) => unreachable!(),
            AnyOperator::Sink(_) => unreachable!(),
        }
    }
}

impl RelayOperator for AnyOperator {
    fn relays(&self) -> bool {
        match self {
            AnyOperator::Sink(o) => o.relays(),
            AnyOperator::Filter(_) => false,
            AnyOperator::Project(_) => false,
            AnyOperator::Union(_) => false,
            AnyOperator::Normalize(_) => false,
            AnyOperator::Group(_) => false,
            AnyOperator::Local(_) => false,
            AnyOperator::Merge(_) => false,
            AnyOperator::Join(_) => false,
            AnyOperator::Semi(_) => false,
            AnyOperator::SetOp(_) => false,
            AnyOperator::TopN(_) => false,
            AnyOperator::Materialize(_) => false,
        }
    }
}

impl AnyOperator {
    // What a new operator emits as the given subtask when the job opens.
    pub(crate) fn start(&mut self, subtask: u32) -> Result<Changes, Memory>
        requires whole { ⟦<AnyOperator as Operator>⟧.broken self.old ≡ false }
        requires new { ⟦<AnyOperator as Operator>⟧.stands_for self.old [] }
        ensures rule_stays { ⟦<AnyOperator as Operator>⟧.rule self.new ≡ ⟦<AnyOperator as Operator>⟧.rule self.old }
        ensures pieces_stay { ⟦<AnyOperator as PieceOperator>⟧.takes_pieces self.new ≡ ⟦<AnyOperator as PieceOperator>⟧.takes_pieces self.old }
        ensures ok { IfOk result (λ sent. (sent ≡ (⟦<AnyOperator as Operator>⟧.rule self.old).opening subtask) × ⟦<AnyOperator as Operator>⟧.stands_for self.new []) }
        ensures stays_whole { OnOk result (⟦<AnyOperator as Operator>⟧.broken self.new ≡ false) }
        ensures breaks { OnErr result (⟦<AnyOperator as Operator>⟧.broken self.new ≡ true) }
    {
        match self {
            AnyOperator::Filter(o) => o.opening(subtask),
            AnyOperator::Project(o) => o.opening(subtask),
            AnyOperator::Union(o) => o.opening(subtask),
            AnyOperator::Normalize(o) => o.opening(subtask),
            AnyOperator::Group(o) => o.opening(subtask),
            AnyOperator::Local(o) => o.opening(subtask),
            AnyOperator::Merge(o) => o.opening(subtask),
            AnyOperator::Join(o) => o.opening(subtask),
            AnyOperator::Semi(o) => o.opening(subtask),
            AnyOperator::SetOp(o) => o.opening(subtask),
            AnyOperator::TopN(o) => o.opening(subtask),
            AnyOperator::Materialize(o) => o.opening(subtask),
            AnyOperator::Sink(o) => o.opening(subtask),
        }
    }
}
