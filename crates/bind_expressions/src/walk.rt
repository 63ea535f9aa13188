//! The walk of trees: operands from the left, and then the node itself.
ghost use Rattle.bind_names.specs.declared.fault.BindFault.TheVariants as f;
ghost use Rattle.std.specs.Prelude.{◌≡◌, ◌+◌, suc, length, true, false, cond, Ok, Err, option_map, IfOk, OnOk, IsErrOf};
ghost use Rattle.ct_value.specs.declared.codes.ScriptCode.{ScriptCode};
ghost use Rattle.ct_value.specs.declared.ty.Ty.TheVariants.{Text as Texts};
ghost use Rattle.ct_value.specs.declared.value.Value.TheVariants.{Text as Words};
ghost use Rattle.sql_syntax.specs.Tree.{optional_over, optional_tree, some_over, sort_list, trees as tree_list, sum_tails, product_tails, tree_whens};
ghost use Rattle.sql_syntax.specs.View.{view, trees_view, args_view, over_view, sorts_view, sum_tails_view, product_tails_view, whens_view};
ghost use Rattle.query_answer.specs.Calls.{calls, all_calls, args_calls, optional_calls, when_calls};
ghost use Rattle.query_answer.specs.Literals.{is_short};
ghost use Rattle.binding.specs.Nodes as n;
ghost use Rattle.binding.specs.Expressions as e;
ghost use Rattle.binding.specs.Expressions.{bound, all_bound, args_bound, optional_bound, order_bound, otherwise_bound, product_bound, sum_bound, unless_null, whens_bound, window_bound};
ghost use Rattle.bind_nodes.specs.Views.{bound_view, bounds_view, branches_view, form_view};
ghost use Rattle.bind_expressions.specs.Reach.{leaf_of, group_leaf};
ghost use Rattle.bind_expressions.specs.Walk.{node};

use crate::reach::{Reach, named, numbered, ungrouped};
use crate::{Group, is_distinct, key_of, plus};
use bind_names::{
    BindFault, CallRefs, Lookup, aggregate_of, function_of, is_null, is_short, number_of, push_all,
    push_args, push_calls, push_optional, push_whens,
};
use bind_nodes::{
    Bound, Bounds, Branch, Branches, CallForm, added, between, call, case, cast_to, compare,
    conjunction, disjunction, in_list, like, literal, multiplied, negated_if, negation, null_test,
    signed,
};
use ct_catalog::type_of;
use ct_value::{Boxed, Memory, ScriptCode, Text, Ty, Value};
use sql_syntax::{Args, Over, ProductTails, SortList, SumTails, Tree, TreeWhens, Trees};
use std::alloc::Global;

/// The number of the aggregate call behind those of a tree, whose first one would be the `number`-th.
#[tactic(auto, using(crate::proofs::Counts::seen))]
pub fn after(alloc: Global, number: u32, tree: &Tree) -> Result<u32, Memory>
    ensures { IfOk result (λ next. next ≡ number + length (calls (view tree.now))) }
{
    let mut found = CallRefs::new(alloc);
    push_calls(&mut found, tree)?;
    plus(number, found.len())
}

#[tactic(auto, using(crate::proofs::Counts::seen))]
fn after_args(alloc: Global, number: u32, args: &Args) -> Result<u32, Memory>
    ensures { IfOk result (λ next. next ≡ number + length (args_calls (args_view args.now))) }
{
    let mut found = CallRefs::new(alloc);
    push_args(&mut found, args)?;
    plus(number, found.len())
}

#[tactic(auto, using(crate::proofs::Counts::seen))]
fn after_optional(alloc: Global, number: u32, tree: &Option<Boxed<Tree>>) -> Result<u32, Memory>
    ensures { IfOk result (λ next. next ≡ number + length (optional_calls (optional_tree (option_map view tree.now)))) }
{
    let mut found = CallRefs::new(alloc);
    push_optional(&mut found, tree)?;
    plus(number, found.len())
}

#[tactic(auto, using(crate::proofs::Counts::seen))]
pub(crate) fn after_all(alloc: Global, number: u32, trees: &Trees) -> Result<u32, Memory>
    ensures { IfOk result (λ next. next ≡ number + length (all_calls (tree_list (trees_view trees.now)))) }
{
    let mut found = CallRefs::new(alloc);
    push_all(&mut found, trees)?;
    plus(number, found.len())
}

#[tactic(auto, using(crate::proofs::Counts::seen))]
fn after_whens(alloc: Global, number: u32, whens: &TreeWhens) -> Result<u32, Memory>
    ensures { IfOk result (λ next. next ≡ number + length (when_calls (tree_whens (whens_view whens.now)))) }
{
    let mut found = CallRefs::new(alloc);
    push_whens(&mut found, whens)?;
    plus(number, found.len())
}

/// What a tree is bound to, or the first refusal. Aggregate calls are counted from `number`.
#[cycle(bind)]
#[tactic(auto, using(crate::proofs::Nodes::led, crate::proofs::Nodes::led_err, crate::proofs::Nodes::of_node))]
pub fn bind(alloc: Global, reach: &Reach<'_>, number: u32, tree: &Tree) -> Result<Bound, BindFault>
    ensures ok { IfOk result (λ x. bound (leaf_of reach.now) number (view tree.now) ≡ Ok (bound_view x)) }
    ensures refused { (code : ScriptCode) → IsErrOf result (f.Refused code) → bound (leaf_of reach.now) number (view tree.now) ≡ Err code }
{
    match whole(alloc, reach, number, tree)? {
        Some(bound) => Ok(bound),
        None => bind_node(alloc, reach, number, tree),
    }
}

// What a whole node is bound to; `None` where its operands decide.
#[cycle(bind)]
#[tactic(auto, unfolding(crate::specs::Reach::leaf_of))]
fn whole(
    alloc: Global,
    reach: &Reach<'_>,
    number: u32,
    tree: &Tree,
) -> Result<Option<Bound>, BindFault>
    ensures ok { IfOk result (λ o. leaf_of reach.now number (view tree.now) ≡ Ok (option_map bound_view o)) }
    ensures refused { (code : ScriptCode) → IsErrOf result (f.Refused code) → leaf_of reach.now number (view tree.now) ≡ Err code }
{
    match reach {
        Reach::Rows(look) => named(alloc, *look, tree),
        Reach::Groups(group) => in_group(alloc, group, number, tree),
    }
}

// What a whole node is bound to in a group: a call of an aggregate is a column behind the keys, and any other node is the first
// GROUP BY expression that it equals.
#[cycle(bind)]
#[tactic(auto, unfolding(sql_syntax::specs::View::view, crate::specs::Reach::leaf_of))]
fn in_group(
    alloc: Global,
    group: &Group<'_>,
    number: u32,
    tree: &Tree,
) -> Result<Option<Bound>, BindFault>
    ensures ok { IfOk result (λ o. group_leaf group.now number (view tree.now) ≡ Ok (option_map bound_view o)) }
    ensures refused { (code : ScriptCode) → IsErrOf result (f.Refused code) → group_leaf group.now number (view tree.now) ≡ Err code }
{
    match tree {
        Tree::Call {
            name,
            args,
            filter,
            over,
        } => match aggregate_of(function_of(name), over) {
            None => key_of(alloc, group, tree),
            Some(call) => {
                let rows = Reach::Rows(Lookup::Own(group.scope));
                let operands = bind_args(alloc, &rows, 0, args)?;
                let filter = bind_optional(alloc, &rows, 0, filter)?;
                let column = numbered(alloc, &group.keys, number, call, args, &operands, &filter)?;
                Ok(Some(column))
            }
        },
        Tree::Name { of, name, quoted } => match key_of(alloc, group, tree)? {
            Some(key) => Ok(Some(key)),
            None => ungrouped(alloc, group.scope, of, name, *quoted),
        },
        _ => key_of(alloc, group, tree),
    }
}

// A node whose operands decide.
#[cycle(bind)]
#[tactic(auto, using(crate::proofs::Exits::in_query_1, crate::proofs::Exits::in_query_2), unfolding(sql_syntax::specs::View::view))]
fn bind_node(alloc: Global, reach: &Reach<'_>, number: u32, tree: &Tree) -> Result<Bound, BindFault>
    ensures ok { IfOk result (λ x. node (leaf_of reach.now) number (view tree.now) ≡ Ok (bound_view x)) }
    ensures refused { (code : ScriptCode) → IsErrOf result (f.Refused code) → node (leaf_of reach.now) number (view tree.now) ≡ Err code }
{
    match tree {
        Tree::Or(trees) => {
            let bounds = bind_all(alloc, reach, number, trees)?;
            disjunction(alloc, bounds)
        }
        Tree::And(trees) => {
            let bounds = bind_all(alloc, reach, number, trees)?;
            conjunction(alloc, bounds)
        }
        Tree::Not(value) => {
            let value = bind(alloc, reach, number, value)?;
            negation(alloc, value)
        }
        Tree::Compare { op, left, right } => {
            let next = after(alloc, number, left)?;
            let left = bind(alloc, reach, number, left)?;
            let right = bind(alloc, reach, next, right)?;
            compare(alloc, *op, left, right)
        }
        Tree::IsNull { value, negated } => {
            let value = bind(alloc, reach, number, value)?;
            let test = null_test(alloc, value)?;
            negated_if(alloc, *negated, test)
        }
        Tree::Between {
            value,
            low,
            high,
            negated,
        } => {
            let next = after(alloc, number, value)?;
            let last = after(alloc, next, low)?;
            let value = bind(alloc, reach, number, value)?;
            let low = bind(alloc, reach, next, low)?;
            let high = bind(alloc, reach, last, high)?;
            let test = between(alloc, value, low, high)?;
            negated_if(alloc, *negated, test)
        }
        Tree::InList {
            value,
            items,
            negated,
        } => {
            let next = after(alloc, number, value)?;
            let value = bind(alloc, reach, number, value)?;
            let items = bind_all(alloc, reach, next, items)?;
            let test = in_list(alloc, value, items)?;
            negated_if(alloc, *negated, test)
        }
        Tree::InQuery { value, .. } => {
            bind(alloc, reach, number, value)?;
            Err(BindFault::Refused(ScriptCode::Unsupported))
        }
        Tree::Like {
            value,
            pattern,
            negated,
        } => {
            let next = after(alloc, number, value)?;
            let value = bind(alloc, reach, number, value)?;
            let pattern = bind(alloc, reach, next, pattern)?;
            let test = like(alloc, value, pattern)?;
            negated_if(alloc, *negated, test)
        }
        Tree::Sum { first, rest } => {
            refuse_long(rest.len())?;
            let next = after(alloc, number, first)?;
            let first = bind(alloc, reach, number, first)?;
            bind_sum(alloc, reach, next, first, rest)
        }
        Tree::Product { first, rest } => {
            refuse_long(rest.len())?;
            let next = after(alloc, number, first)?;
            let first = bind(alloc, reach, number, first)?;
            bind_product(alloc, reach, next, first, rest)
        }
        Tree::Sign { minus, value } => {
            let value = bind(alloc, reach, number, value)?;
            signed(alloc, *minus, value)
        }
        Tree::Number(text) => bind_nodes::number(alloc, number_of(text)),
        Tree::Str(text) => text_bound(alloc, text),
        Tree::Bool(truth) => literal(alloc, Value::Bool(*truth), Ty::Bool),
        Tree::Null => Err(BindFault::Refused(ScriptCode::TypeMismatch)),
        Tree::Name { .. } => Err(BindFault::Refused(ScriptCode::UnknownColumn)),
        Tree::Call {
            name,
            args,
            filter,
            over,
        } => {
            let next = after_args(alloc, number, args)?;
            let last = after_optional(alloc, next, filter)?;
            let operands = bind_args(alloc, reach, number, args)?;
            bind_optional(alloc, reach, next, filter)?;
            bind_window_if(alloc, reach, last, over)?;
            let form = call_form(args, filter, over);
            call(alloc, function_of(name), form, operands)
        }
        Tree::Cast { value, ty } => {
            let value = bind_or_null(alloc, reach, number, value)?;
            cast_to(alloc, type_of(ty), value)
        }
        Tree::Paren(value) => bind(alloc, reach, number, value),
        Tree::Exists(_) | Tree::Sub(_) => Err(BindFault::Refused(ScriptCode::Unsupported)),
        Tree::Case { whens, otherwise } => {
            let next = after_whens(alloc, number, whens)?;
            let branches = bind_whens(alloc, reach, number, whens)?;
            let otherwise = bind_otherwise(alloc, reach, next, otherwise)?;
            case(alloc, branches, otherwise)
        }
    }
}

// A chain has at most 512 operands; these stand behind the first one.
fn refuse_long(others: usize) -> Result<(), BindFault>
    ensures ok { OnOk result (e.is_long (suc others) ≡ false) }
    ensures refused { (code : ScriptCode) → IsErrOf result (f.Refused code) → (e.is_long (suc others) ≡ true) × (code ≡ ScriptCode.Unsupported) }
{
    if others >= 512 {
        return Err(BindFault::Refused(ScriptCode::Unsupported));
    }
    Ok(())
}

fn text_bound(alloc: Global, text: &Text) -> Result<Bound, BindFault>
    ensures ok { IfOk result (λ x. cond (is_short text.now) (n.literal (Words text.now) Texts) (Err ScriptCode.Unsupported) ≡ Ok (bound_view x)) }
    ensures refused { (code : ScriptCode) → IsErrOf result (f.Refused code) → cond (is_short text.now) (n.literal (Words text.now) Texts) (Err ScriptCode.Unsupported) ≡ Err code }
{
    if !is_short(text) {
        return Err(BindFault::Refused(ScriptCode::Unsupported));
    }
    let text = text.dup()?;
    literal(alloc, Value::Text(text), Ty::Text)
}

// What stands at a call besides its operands.
#[tactic(auto, unfolding(sql_syntax::specs::View::args_view))]
fn call_form(args: &Args, filter: &Option<Boxed<Tree>>, over: &Option<Over>) -> CallForm
    ensures { form_view result ≡ e.form_of (args_view args.now) (optional_tree (option_map view filter.now)) (optional_over (option_map over_view over.now)) }
{
    CallForm {
        distinct: is_distinct(args),
        filter: filter.is_some(),
        over: over.is_some(),
    }
}

// Each tree in turn.
#[cycle(bind)]
pub(crate) fn bind_all(
    alloc: Global,
    reach: &Reach<'_>,
    number: u32,
    trees: &Trees,
) -> Result<Bounds, BindFault>
    ensures ok { IfOk result (λ xs. all_bound (leaf_of reach.now) number (tree_list (trees_view trees.now)) ≡ Ok (bounds_view xs)) }
    ensures refused { (code : ScriptCode) → IsErrOf result (f.Refused code) → all_bound (leaf_of reach.now) number (tree_list (trees_view trees.now)) ≡ Err code }
{
    let mut bounds = Bounds::with_capacity(alloc, trees.len())?;
    let mut number = number;
    for tree in trees.as_slice() {
        let next = after(alloc, number, tree)?;
        bounds.push(bind(alloc, reach, number, tree)?)?;
        number = next;
    }
    Ok(bounds)
}

// The terms behind the first one.
#[cycle(bind)]
fn bind_sum(
    alloc: Global,
    reach: &Reach<'_>,
    number: u32,
    first: Bound,
    tails: &SumTails,
) -> Result<Bound, BindFault>
    ensures ok { IfOk result (λ x. sum_bound (leaf_of reach.now) number (bound_view first) (sum_tails (sum_tails_view tails.now)) ≡ Ok (bound_view x)) }
    ensures refused { (code : ScriptCode) → IsErrOf result (f.Refused code) → sum_bound (leaf_of reach.now) number (bound_view first) (sum_tails (sum_tails_view tails.now)) ≡ Err code }
{
    let mut all = first;
    let mut number = number;
    for tail in tails.as_slice() {
        let next = after(alloc, number, &tail.value)?;
        let value = bind(alloc, reach, number, &tail.value)?;
        all = added(alloc, tail.word, all, value)?;
        number = next;
    }
    Ok(all)
}

// The factors behind the first one.
#[cycle(bind)]
fn bind_product(
    alloc: Global,
    reach: &Reach<'_>,
    number: u32,
    first: Bound,
    tails: &ProductTails,
) -> Result<Bound, BindFault>
    ensures ok { IfOk result (λ x. product_bound (leaf_of reach.now) number (bound_view first) (product_tails (product_tails_view tails.now)) ≡ Ok (bound_view x)) }
    ensures refused { (code : ScriptCode) → IsErrOf result (f.Refused code) → product_bound (leaf_of reach.now) number (bound_view first) (product_tails (product_tails_view tails.now)) ≡ Err code }
{
    let mut all = first;
    let mut number = number;
    for tail in tails.as_slice() {
        let next = after(alloc, number, &tail.value)?;
        let value = bind(alloc, reach, number, &tail.value)?;
        all = multiplied(alloc, tail.word, all, value)?;
        number = next;
    }
    Ok(all)
}

// The branches of a CASE.
#[cycle(bind)]
fn bind_whens(
    alloc: Global,
    reach: &Reach<'_>,
    number: u32,
    whens: &TreeWhens,
) -> Result<Branches, BindFault>
    ensures ok { IfOk result (λ xs. whens_bound (leaf_of reach.now) number (tree_whens (whens_view whens.now)) ≡ Ok (branches_view xs)) }
    ensures refused { (code : ScriptCode) → IsErrOf result (f.Refused code) → whens_bound (leaf_of reach.now) number (tree_whens (whens_view whens.now)) ≡ Err code }
{
    let mut branches = Branches::with_capacity(alloc, whens.len())?;
    let mut number = number;
    for when in whens.as_slice() {
        let next = after(alloc, number, &when.cond)?;
        let last = after(alloc, next, &when.result)?;
        let cond = bind(alloc, reach, number, &when.cond)?;
        let outcome = bind_or_null(alloc, reach, next, &when.result)?;
        branches.push(Branch {
            cond,
            result: outcome,
        })?;
        number = last;
    }
    Ok(branches)
}

// `None` for the literal NULL.
#[cycle(bind)]
fn bind_or_null(
    alloc: Global,
    reach: &Reach<'_>,
    number: u32,
    tree: &Tree,
) -> Result<Option<Bound>, BindFault>
    ensures ok { IfOk result (λ o. unless_null (view tree.now) (bound (leaf_of reach.now) number (view tree.now)) ≡ Ok (option_map bound_view o)) }
    ensures refused { (code : ScriptCode) → IsErrOf result (f.Refused code) → unless_null (view tree.now) (bound (leaf_of reach.now) number (view tree.now)) ≡ Err code }
{
    if is_null(tree) {
        return Ok(None);
    }
    let bound = bind(alloc, reach, number, tree)?;
    Ok(Some(bound))
}

// The result of an ELSE, where there is one.
#[cycle(bind)]
fn bind_otherwise(
    alloc: Global,
    reach: &Reach<'_>,
    number: u32,
    otherwise: &Option<Boxed<Tree>>,
) -> Result<Option<Option<Bound>>, BindFault>
    ensures ok { IfOk result (λ o. otherwise_bound (leaf_of reach.now) number (optional_tree (option_map view otherwise.now)) ≡ Ok (option_map (option_map bound_view) o)) }
    ensures refused { (code : ScriptCode) → IsErrOf result (f.Refused code) → otherwise_bound (leaf_of reach.now) number (optional_tree (option_map view otherwise.now)) ≡ Err code }
{
    match otherwise {
        None => Ok(None),
        Some(tree) => {
            let outcome = bind_or_null(alloc, reach, number, tree)?;
            Ok(Some(outcome))
        }
    }
}

// A condition of FILTER, where there is one.
#[cycle(bind)]
pub(crate) fn bind_optional(
    alloc: Global,
    reach: &Reach<'_>,
    number: u32,
    tree: &Option<Boxed<Tree>>,
) -> Result<Option<Bound>, BindFault>
    ensures ok { IfOk result (λ o. optional_bound (leaf_of reach.now) number (optional_tree (option_map view tree.now)) ≡ Ok (option_map bound_view o)) }
    ensures refused { (code : ScriptCode) → IsErrOf result (f.Refused code) → optional_bound (leaf_of reach.now) number (optional_tree (option_map view tree.now)) ≡ Err code }
{
    match tree {
        None => Ok(None),
        Some(tree) => {
            let bound = bind(alloc, reach, number, tree)?;
            Ok(Some(bound))
        }
    }
}

// The operands of OVER, if there is one.
#[cycle(bind)]
fn bind_window_if(
    alloc: Global,
    reach: &Reach<'_>,
    number: u32,
    over: &Option<Over>,
) -> Result<Bounds, BindFault>
    ensures ok { IfOk result (λ xs. window_bound (leaf_of reach.now) number (optional_over (option_map over_view over.now)) ≡ Ok (bounds_view xs)) }
    ensures refused { (code : ScriptCode) → IsErrOf result (f.Refused code) → window_bound (leaf_of reach.now) number (optional_over (option_map over_view over.now)) ≡ Err code }
{
    match over {
        None => Ok(Bounds::new(alloc)),
        Some(over) => bind_window(alloc, reach, number, over),
    }
}

// PARTITION BY, then ORDER BY.
#[cycle(bind)]
fn bind_window(
    alloc: Global,
    reach: &Reach<'_>,
    number: u32,
    over: &Over,
) -> Result<Bounds, BindFault>
    ensures ok { IfOk result (λ xs. window_bound (leaf_of reach.now) number (some_over (over_view over.now)) ≡ Ok (bounds_view xs)) }
    ensures refused { (code : ScriptCode) → IsErrOf result (f.Refused code) → window_bound (leaf_of reach.now) number (some_over (over_view over.now)) ≡ Err code }
{
    let next = after_all(alloc, number, &over.partition)?;
    bind_all(alloc, reach, number, &over.partition)?;
    let bounds = bind_order(alloc, reach, next, &over.order)?;
    Ok(bounds)
}

// The trees of an ORDER BY.
#[cycle(bind)]
pub(crate) fn bind_order(
    alloc: Global,
    reach: &Reach<'_>,
    number: u32,
    sorts: &SortList,
) -> Result<Bounds, BindFault>
    ensures ok { IfOk result (λ xs. order_bound (leaf_of reach.now) number (sort_list (sorts_view sorts.now)) ≡ Ok (bounds_view xs)) }
    ensures refused { (code : ScriptCode) → IsErrOf result (f.Refused code) → order_bound (leaf_of reach.now) number (sort_list (sorts_view sorts.now)) ≡ Err code }
{
    let mut bounds = Bounds::with_capacity(alloc, sorts.len())?;
    let mut number = number;
    for sort in sorts.as_slice() {
        let next = after(alloc, number, &sort.value)?;
        let value = bind(alloc, reach, number, &sort.value)?;
        bounds.push(value)?;
        number = next;
    }
    Ok(bounds)
}

// The operands of a call.
#[cycle(bind)]
#[tactic(auto, unfolding(sql_syntax::specs::View::args_view, sql_syntax::specs::View::view))]
pub(crate) fn bind_args(
    alloc: Global,
    reach: &Reach<'_>,
    number: u32,
    args: &Args,
) -> Result<Bounds, BindFault>
    ensures ok { IfOk result (λ xs. args_bound (leaf_of reach.now) number (args_view args.now) ≡ Ok (bounds_view xs)) }
    ensures refused { (code : ScriptCode) → IsErrOf result (f.Refused code) → args_bound (leaf_of reach.now) number (args_view args.now) ≡ Err code }
{
    match args {
        Args::Empty | Args::Star => Ok(Bounds::new(alloc)),
        Args::List { values, .. } => bind_all(alloc, reach, number, values),
    }
}
