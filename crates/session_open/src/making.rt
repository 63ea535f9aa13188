ghost use Rattle.std.specs.Prelude.{◌≡◌, [], get_or, length, option_map, true, unwrap_or, IfOk};
ghost use Rattle.ct_expr.specs.View.{expr_view, exprs_view};
ghost use Rattle.emission_rules.specs.Changes.{after_key};
ghost use Rattle.emission_rules.specs.Filter.{filter_rule};
ghost use Rattle.emission_rules.specs.Project.{project_rule};
ghost use Rattle.emission_rules.specs.Union.{union_rule};
ghost use Rattle.emission_rules.specs.Normalize.{normalize_rule, TellsKey};
ghost use Rattle.emission_rules.specs.Materialize.{materialize_rule};
ghost use Rattle.emission_rules.specs.SetOps.{set_rule};
ghost use Rattle.emission_rules.specs.Sink.{sink_rule};
ghost use Rattle.emission_rules.specs.Grouping.{group_rule, IsSound as GroupsWell};
ghost use Rattle.emission_rules.specs.Joining.{joins, matched, join_rule};
ghost use Rattle.emission_rules.specs.Ranking.{topn_rule, IsSound as RanksWell};
ghost use Rattle.phys_plan.specs.Reading.{numbered, first_input};
ghost use Rattle.plan_rules.specs.Around.{second};
ghost use Rattle.plan_rules.specs.Behaviours.{behaviour, bundled_rule, BundlesWell, Suits};
ghost use Rattle.plan_rules.specs.Columns.{AreColumns, columns_at};
ghost use Rattle.ct_change.specs.Changelog.{Mode};
ghost use Rattle.phase_rules.specs.LocalGrouping.{SumsUp, local_rule};
ghost use Rattle.phase_rules.specs.Merging.{merge_rule};
ghost use Rattle.op_merge.specs.Groups.{CanMerge};
ghost use Rattle.plan_rules.specs.Plans.{bundle_of, update_in};
ghost use Rattle.plan_rules.specs.Doings.{around_of};
ghost use Rattle.session_open.specs.Made.{IsMadeBy, IsNewOperator, joining_of};
ghost use Rattle.session_open.specs.Modes.{mode_in};
ghost use Rattle.session_open.specs.Running.{IsBuiltPlan, second_input};

use crate::edges::{after_of, sink_key, told_to, written_at};
use crate::inputs::{Input, both_inputs, only_input};
use crate::locals::{Local, local_below};
use crate::numbers::{count_of, node_at};
use crate::types::range_types_of;
use crate::{AnyMode, AnyOperator, PlanOperator};
use ct_change::Changes;
use ct_expr::{Expr, Exprs, dup_exprs};
use ct_value::{ColTys, Cols, List, Memory, Numbers};
use op_group::Group;
use op_join::Join;
use op_local::LocalGroup;
use op_merge::MergeGroup;
use op_row::{FilterOp, NormalizeOp, ProjectOp, UnionOp};
use op_rules::{Operator, PieceOperator};
use op_semi::SemiJoin;
use op_setops::SetOp;
use op_sink::{Materialize, SinkWriter};
use op_topn::TopN;
use phys_plan::{Node, Op, Plan};
use rel_algebra::{Aggs, JoinKind, Pairs, Sorts};
use std::alloc::Global;

impl PlanOperator for AnyOperator {
    ghost runs = { λ plan columns g. IsBuiltPlan plan columns g };

    fn make(
        alloc: Global,
        plan: &Plan,
        columns: &List<ColTys>,
        node: u32,
    ) -> Result<Option<Self>, Memory> {
        match node_at(plan, node) {
            None => Ok(None),
            Some(of) => operator_of(alloc, plan, columns, node, of),
        }
    }

    fn open(&mut self, subtask: u32) -> Result<Changes, Memory> {
        self.start(subtask)
    }

    fn range_types(
        alloc: Global,
        plan: &Plan,
        columns: &List<ColTys>,
        node: u32,
    ) -> Result<ColTys, Memory> {
        match node_at(plan, node) {
            None => Ok(ColTys::new(alloc)),
            Some(of) => range_types_of(alloc, columns, of),
        }
    }
}

// The operator of a node, and none where the node has no rule.
fn operator_of(
    alloc: Global,
    plan: &Plan,
    columns: &List<ColTys>,
    number: u32,
    node: &Node,
) -> Result<Option<AnyOperator>, Memory>
    requires suits { Suits node.now.op (around_of plan.now number node.now.inputs) }
    requires columns { get_or columns.now (first_input node.now.inputs) [] ≡ (around_of plan.now number node.now.inputs).columns }
    requires all { AreColumns columns.now (columns_at plan.now.sources plan.now.nodes) }
    requires others { get_or columns.now (second_input node.now.inputs) [] ≡ (second (around_of plan.now number node.now.inputs)).columns }
    ensures { IfOk result (λ made. IsMadeBy (behaviour node.now.op (around_of plan.now number node.now.inputs)) (bundle_of plan.now.mini_batch node.now.op) made) }
{
    match &node.op {
        Op::Filter { cond } => Ok(Some(filter_by(alloc, cond)?)),
        Op::Project { items } => Ok(Some(project_to(alloc, plan, &node.inputs, items)?)),
        Op::Union => Ok(Some(union_of(alloc, &node.inputs)?)),
        Op::Normalize { key } => {
            let own = written_at(alloc, plan, number)?;
            Ok(Some(normalize_by(alloc, key, own)?))
        }
        Op::Group { keys, aggs } => {
            let input = only_input(alloc, plan, columns, &node.inputs)?;
            let own = written_at(alloc, plan, number)?;
            Ok(Some(group_by(alloc, input, own, *keys, aggs)?))
        }
        Op::BatchGroup { keys, aggs } => {
            let inputs = &node.inputs;
            let made = bundled_by(alloc, plan, columns, number, inputs, *keys, aggs)?;
            Ok(Some(made))
        }
        Op::LocalGroup { keys, aggs } => {
            let input = only_input(alloc, plan, columns, &node.inputs)?;
            Ok(Some(local_by(alloc, input, *keys, aggs)?))
        }
        Op::Join { kind, on, rest } => {
            let sides = both_inputs(alloc, plan, columns, &node.inputs)?;
            Ok(Some(join_by(alloc, sides, *kind, on, rest)?))
        }
        Op::Semi { anti, on, rest } => {
            let sides = both_inputs(alloc, plan, columns, &node.inputs)?;
            Ok(Some(semi_by(alloc, sides, *anti, on, rest)?))
        }
        Op::SetOp { except, all, .. } => Ok(Some(set_op_of(alloc, *except, *all))),
        Op::TopN {
            partition,
            order,
            bound,
            ranked,
        } => {
            let input = only_input(alloc, plan, columns, &node.inputs)?;
            let own = written_at(alloc, plan, number)?;
            let made = top_by(alloc, input, own, partition, order, *bound, *ranked)?;
            Ok(Some(made))
        }
        Op::Materialize { key } => Ok(Some(materialize_by(alloc, key)?)),
        Op::Sink => Ok(Some(sink_of(alloc, plan, &node.inputs)?)),
        _ => Ok(None),
    }
}

fn filter_by(alloc: Global, cond: &Expr) -> Result<AnyOperator, Memory>
    ensures { IfOk result (λ made. IsNewOperator made (filter_rule (record { condition = expr_view cond.now }))) }
{
    Ok(AnyOperator::Filter(FilterOp::new(alloc, cond.dup()?)))
}

fn project_to(
    alloc: Global,
    plan: &Plan,
    inputs: &Numbers,
    items: &Exprs,
) -> Result<AnyOperator, Memory>
    ensures { IfOk result (λ made. IsNewOperator made (project_rule (record { items = exprs_view items.now; after = after_key (update_in (numbered plan.now.edges (first_input inputs.now))) }))) }
{
    let items = dup_exprs(items)?;
    let after = after_of(plan, inputs)?;
    Ok(AnyOperator::Project(ProjectOp::new(alloc, items, after)?))
}

fn union_of(alloc: Global, inputs: &Numbers) -> Result<AnyOperator, Memory>
    ensures { IfOk result (λ made. IsNewOperator made (union_rule (record { inputs = length inputs.now }))) }
{
    let count = count_of(inputs)?;
    Ok(AnyOperator::Union(UnionOp::new(alloc, count)))
}

fn normalize_by(alloc: Global, key: &Cols, own: AnyMode) -> Result<AnyOperator, Memory>
    requires { TellsKey key.now (mode_in own) }
    ensures { IfOk result (λ made. IsNewOperator made (normalize_rule (record { key = key.now; output = mode_in own }))) }
{
    let made = NormalizeOp::new(alloc, key.dup()?, own)?;
    Ok(AnyOperator::Normalize(made))
}

fn group_by(
    alloc: Global,
    input: Input,
    own: AnyMode,
    keys: u32,
    aggs: &Aggs,
) -> Result<AnyOperator, Memory>
    requires { GroupsWell (record { keys = keys; aggs = aggs.now; columns = input.types; input = mode_in input.mode; output = mode_in own }) }
    ensures new { IfOk result (λ made. IsNewOperator made (group_rule (record { keys = keys; aggs = aggs.now; columns = input.types; input = mode_in input.mode; output = mode_in own }))) }
    ensures pieces { IfOk result (λ made. ⟦<AnyOperator as PieceOperator>⟧.takes_pieces made ≡ true) }
{
    let made = Group::new(alloc, keys, aggs.dup()?, input.types, input.mode, own)?;
    Ok(AnyOperator::Group(made))
}

// A group in bundles, over rows, or over what a local group sends.
fn bundled_by(
    alloc: Global,
    plan: &Plan,
    columns: &List<ColTys>,
    number: u32,
    inputs: &Numbers,
    keys: u32,
    aggs: &Aggs,
) -> Result<AnyOperator, Memory>
    requires suits { BundlesWell keys aggs.now (around_of plan.now number inputs.now) (around_of plan.now number inputs.now).partial }
    requires columns { AreColumns columns.now (columns_at plan.now.sources plan.now.nodes) }
    ensures new { IfOk result (λ made. IsNewOperator made (bundled_rule keys aggs.now (around_of plan.now number inputs.now) (around_of plan.now number inputs.now).partial)) }
    ensures pieces { IfOk result (λ made. ⟦<AnyOperator as PieceOperator>⟧.takes_pieces made ≡ true) }
{
    let own = written_at(alloc, plan, number)?;
    match local_below(alloc, plan, columns, inputs)? {
        None => {
            let input = only_input(alloc, plan, columns, inputs)?;
            group_by(alloc, input, own, keys, aggs)
        }
        Some(local) => Ok(merging_by(alloc, local, own)),
    }
}

fn merging_by(alloc: Global, local: Local, own: AnyMode) -> AnyOperator
    requires { (input : Mode) × CanMerge (record { local = record { keys = local.keys; aggs = local.aggs; columns = local.types; input = input }; output = mode_in own }) }
    ensures new { (input : Mode) → IsNewOperator result (merge_rule (record { local = record { keys = local.keys; aggs = local.aggs; columns = local.types; input = input }; output = mode_in own })) }
    ensures pieces { ⟦<AnyOperator as PieceOperator>⟧.takes_pieces result ≡ true }
{
    AnyOperator::Merge(MergeGroup::new(alloc, local.keys, local.aggs, local.types, own))
}

fn local_by(alloc: Global, input: Input, keys: u32, aggs: &Aggs) -> Result<AnyOperator, Memory>
    requires { SumsUp (record { keys = keys; aggs = aggs.now; columns = input.types; input = mode_in input.mode }) }
    ensures new { IfOk result (λ made. IsNewOperator made (local_rule (record { keys = keys; aggs = aggs.now; columns = input.types; input = mode_in input.mode }))) }
    ensures pieces { IfOk result (λ made. ⟦<AnyOperator as PieceOperator>⟧.takes_pieces made ≡ true) }
{
    let aggs = aggs.dup()?;
    Ok(AnyOperator::Local(LocalGroup::new(alloc, keys, aggs, input.types, input.mode)))
}

fn join_by(
    alloc: Global,
    sides: (Input, Input),
    kind: JoinKind,
    on: &Pairs,
    rest: &Option<Expr>,
) -> Result<AnyOperator, Memory>
    ensures { IfOk result (λ made. IsNewOperator made (join_rule (joining_of (joins kind) on.now (option_map expr_view rest.now) sides))) }
{
    let (left, right) = sides;
    let (on, rest) = (on.dup()?, dup_rest(rest)?);
    let made = Join::new(
        alloc,
        kind,
        on,
        rest,
        left.types,
        right.types,
        left.mode,
        right.mode,
    )?;
    Ok(AnyOperator::Join(made))
}

fn semi_by(
    alloc: Global,
    sides: (Input, Input),
    anti: bool,
    on: &Pairs,
    rest: &Option<Expr>,
) -> Result<AnyOperator, Memory>
    ensures { IfOk result (λ made. IsNewOperator made (join_rule (joining_of (matched anti) on.now (option_map expr_view rest.now) sides))) }
{
    let (left, right) = sides;
    let (on, rest) = (on.dup()?, dup_rest(rest)?);
    let made = SemiJoin::new(
        alloc,
        anti,
        on,
        rest,
        left.types,
        right.types,
        left.mode,
        right.mode,
    )?;
    Ok(AnyOperator::Semi(made))
}

fn set_op_of(alloc: Global, except: bool, all: bool) -> AnyOperator
    ensures { IsNewOperator result (set_rule (record { except = except; all = all })) }
{
    AnyOperator::SetOp(SetOp::new(alloc, except, all))
}

fn top_by(
    alloc: Global,
    input: Input,
    own: AnyMode,
    partition: &Cols,
    order: &Sorts,
    bound: u32,
    ranked: bool,
) -> Result<AnyOperator, Memory>
    requires { RanksWell (record { partition = partition.now; order = order.now; bound = bound; ranked = ranked; columns = input.types; input = mode_in input.mode; output = mode_in own }) }
    ensures { IfOk result (λ made. IsNewOperator made (topn_rule (record { partition = partition.now; order = order.now; bound = bound; ranked = ranked; columns = input.types; input = mode_in input.mode; output = mode_in own }))) }
{
    let (partition, order) = (partition.dup()?, order.dup()?);
    let (types, mode) = (input.types, input.mode);
    let made = TopN::new(alloc, partition, order, bound, ranked, types, mode, own)?;
    Ok(AnyOperator::TopN(made))
}

// An equal condition, if there is one.
fn dup_rest(rest: &Option<Expr>) -> Result<Option<Expr>, Memory>
    ensures { IfOk result (λ copy. option_map expr_view copy ≡ option_map expr_view rest.now) }
{
    match rest {
        None => Ok(None),
        Some(condition) => Ok(Some(condition.dup()?)),
    }
}

fn materialize_by(alloc: Global, key: &Cols) -> Result<AnyOperator, Memory>
    ensures { IfOk result (λ made. IsNewOperator made (materialize_rule key.now)) }
{
    let made = Materialize::new(alloc, key.dup()?)?;
    Ok(AnyOperator::Materialize(made))
}

fn sink_of(alloc: Global, plan: &Plan, inputs: &Numbers) -> Result<AnyOperator, Memory>
    ensures { IfOk result (λ made. IsNewOperator made (sink_rule (record { declared = plan.now.sink.mode; after = after_key (update_in (numbered plan.now.edges (first_input inputs.now))); key = unwrap_or plan.now.sink.key [] }))) }
{
    let (update, key) = (told_to(plan, inputs)?, sink_key(alloc, plan)?);
    let made = SinkWriter::new(alloc, plan.sink.mode, update, key)?;
    Ok(AnyOperator::Sink(made))
}
