//! The trees right below a tree.
ghost use Rattle.std.specs.Prelude.{◌≡◌, ◌∷◌, ◌++◌, [], option_map, MatchOption};
ghost use Rattle.sql_syntax.specs.Parts.{left, few_left, series_left, seen};
ghost use Rattle.sql_syntax.specs.Tree.{optional_over, optional_tree, sort_list, tree_whens};
ghost use Rattle.sql_syntax.specs.View.{args_view, over_view, sorts_view, view, whens_view};
ghost use Rattle.sql_syntax.specs.Walks.{args_parts, optional_parts, over_parts, parts, sort_parts, when_parts};

use crate::{Args, Over, ProductTail, Sort, SumTail, Tree, TreeWhen, TreeWhens};
use ct_value::Boxed;

// Up to three trees.
#[derive(Clone, Copy)]
enum Few<'a> {
    None,
    One(&'a Tree),
    Two(&'a Tree, &'a Tree),
    Three(&'a Tree, &'a Tree, &'a Tree),
}

// A list in which trees stand.
#[derive(Clone, Copy)]
enum Series<'a> {
    Trees(&'a [Tree]),
    Sums(&'a [SumTail]),
    Products(&'a [ProductTail]),
    Whens(&'a [TreeWhen]),
}

/// The trees right below a tree, in the order in which they are written.
#[derive(Drop)]
pub struct Parts<'a> {
    few: Few<'a>,
    series: Series<'a>,
    last: Option<&'a Tree>,
    partition: &'a [Tree],
    order: &'a [Sort],
}

/// The trees right below a tree, in the order in which they are written. Those of a query below it are the query's.
#[tactic(auto, unfolding(crate::specs::View::view, crate::specs::View::sum_view, crate::specs::View::product_view, crate::specs::View::when_view, crate::specs::View::args_view, crate::specs::View::over_view, crate::specs::Walks::parts))]
pub fn parts_of(tree: &Tree) -> Parts<'_>
    ensures { left result ≡ parts (view tree.now) }
{
    match tree {
        Tree::Or(trees) | Tree::And(trees) => begun(Few::None, Series::Trees(trees.as_slice())),
        Tree::Not(value) | Tree::Paren(value) => begun(Few::One(value), Series::Trees(&[])),
        Tree::IsNull { value, .. } => begun(Few::One(value), Series::Trees(&[])),
        Tree::Sign { value, .. } => begun(Few::One(value), Series::Trees(&[])),
        Tree::InQuery { value, .. } => begun(Few::One(value), Series::Trees(&[])),
        Tree::Cast { value, .. } => begun(Few::One(value), Series::Trees(&[])),
        Tree::Compare { left, right, .. } => begun(Few::Two(left, right), Series::Trees(&[])),
        Tree::Like { value, pattern, .. } => begun(Few::Two(value, pattern), Series::Trees(&[])),
        Tree::Between {
            value,
            low,
            high,
            ..
        } => begun(Few::Three(value, low, high), Series::Trees(&[])),
        Tree::InList { value, items, .. } => begun(
            Few::One(value),
            Series::Trees(items.as_slice()),
        ),
        Tree::Sum { first, rest } => begun(Few::One(first), Series::Sums(rest.as_slice())),
        Tree::Product { first, rest } => begun(Few::One(first), Series::Products(rest.as_slice())),
        Tree::Call {
            args,
            filter,
            over,
            ..
        } => of_call(args, filter, over),
        Tree::Case { whens, otherwise } => of_case(whens, otherwise),
        Tree::Exists(_) | Tree::Sub(_) | Tree::Null => begun(Few::None, Series::Trees(&[])),
        Tree::Number(_) | Tree::Str(_) => begun(Few::None, Series::Trees(&[])),
        Tree::Bool(_) | Tree::Name { .. } => begun(Few::None, Series::Trees(&[])),
    }
}

// These trees, and then those of a list.
#[tactic(auto, using(crate::proofs::laws::Parts::nothing_behind), unfolding(crate::specs::Parts::left))]
fn begun<'a>(few: Few<'a>, series: Series<'a>) -> Parts<'a>
    ensures { left result ≡ few_left few.entry ++ series_left series.entry }
{
    Parts {
        few,
        series,
        last: None,
        partition: &[],
        order: &[],
    }
}

fn lent(tree: &Option<Boxed<Tree>>) -> Option<&Tree>
    ensures { option_map seen result ≡ option_map view tree.now }
{
    match tree {
        None => None,
        Some(tree) => Some(tree),
    }
}

#[tactic(auto, unfolding(crate::specs::View::view, crate::specs::View::args_view))]
fn of_args(args: &Args) -> Series<'_>
    ensures { series_left result ≡ args_parts (args_view args.now) }
{
    match args {
        Args::Empty | Args::Star => Series::Trees(&[]),
        Args::List { values, .. } => Series::Trees(values.as_slice()),
    }
}

#[tactic(auto, using(crate::proofs::laws::Parts::of_over), unfolding(crate::specs::Parts::left))]
fn of_call<'a>(args: &'a Args, filter: &'a Option<Boxed<Tree>>, over: &'a Option<Over>) -> Parts<'a>
    ensures { left result ≡ args_parts (args_view args.now) ++ (optional_parts (optional_tree (option_map view filter.now)) ++ over_parts (optional_over (option_map over_view over.now))) }
{
    let series = of_args(args);
    let last = lent(filter);
    match over {
        None => Parts {
            few: Few::None,
            series,
            last,
            partition: &[],
            order: &[],
        },
        Some(over) => Parts {
            few: Few::None,
            series,
            last,
            partition: over.partition.as_slice(),
            order: over.order.as_slice(),
        },
    }
}

#[tactic(auto, unfolding(crate::specs::Parts::left))]
fn of_case<'a>(whens: &'a TreeWhens, otherwise: &'a Option<Boxed<Tree>>) -> Parts<'a>
    ensures { left result ≡ when_parts (tree_whens (whens_view whens.now)) ++ optional_parts (optional_tree (option_map view otherwise.now)) }
{
    Parts {
        few: Few::None,
        series: Series::Whens(whens.as_slice()),
        last: lent(otherwise),
        partition: &[],
        order: &[],
    }
}

// The first of these trees, and the others.
fn split_few<'a>(few: Few<'a>) -> Option<(&'a Tree, Few<'a>)>
    ensures { MatchOption result (few_left few.entry ≡ []) (λ r. few_left few.entry ≡ seen r.0 ∷ few_left r.1) }
{
    match few {
        Few::None => None,
        Few::One(first) => Some((first, Few::None)),
        Few::Two(first, second) => Some((first, Few::One(second))),
        Few::Three(first, second, third) => Some((first, Few::Two(second, third))),
    }
}

// The first tree in a list, what stands beside it in its item, and the other items.
#[tactic(auto, using(crate::proofs::laws::Parts::first_sum, crate::proofs::laws::Parts::first_product, crate::proofs::laws::Parts::first_when))]
fn split_series<'a>(series: Series<'a>) -> Option<(&'a Tree, Few<'a>, Series<'a>)>
    ensures { MatchOption result (series_left series.entry ≡ []) (λ r. series_left series.entry ≡ seen r.0 ∷ (few_left r.1 ++ series_left r.2)) }
{
    match series {
        Series::Trees(trees) => {
            let (first, others) = trees.split_first()?;
            Some((first, Few::None, Series::Trees(others)))
        }
        Series::Sums(tails) => {
            let (first, others) = tails.split_first()?;
            Some((&first.value, Few::None, Series::Sums(others)))
        }
        Series::Products(tails) => {
            let (first, others) = tails.split_first()?;
            Some((&first.value, Few::None, Series::Products(others)))
        }
        Series::Whens(whens) => {
            let (first, others) = whens.split_first()?;
            Some((&first.cond, Few::One(&first.result), Series::Whens(others)))
        }
    }
}

// The first tree of an ORDER BY, and the items behind it.
#[tactic(auto, using(crate::proofs::laws::Parts::first_sort))]
fn split_order(order: &[Sort]) -> Option<(&Tree, &[Sort])>
    ensures { MatchOption result (sort_parts (sort_list (sorts_view order.now)) ≡ []) (λ r. sort_parts (sort_list (sorts_view order.now)) ≡ seen r.0 ∷ sort_parts (sort_list (sorts_view r.1.now))) }
{
    let (first, others) = order.split_first()?;
    Some((&first.value, others))
}

impl<'a> Iterator for Parts<'a> {
    ghost use Rattle.std.specs.Iterator.{YieldsFirstBy, item_count};
    ghost use Rattle.sql_syntax.specs.Parts.{left, seen};

    type Item = &'a Tree;

    ghost next_gives = { YieldsFirstBy seen left };

    ghost remaining = { item_count left };

    #[tactic(auto, using(crate::proofs::laws::Parts::first_in_few, crate::proofs::laws::Parts::first_in_series, crate::proofs::laws::Parts::first_in_order), unfolding(crate::specs::Parts::left))]
    fn next(&mut self) -> Option<&'a Tree> {
        if let Some((tree, few)) = split_few(self.few) {
            self.few = few;
            return Some(tree);
        }
        if let Some((tree, few, series)) = split_series(self.series) {
            self.few = few;
            self.series = series;
            return Some(tree);
        }
        if let Some(tree) = self.last {
            self.last = None;
            return Some(tree);
        }
        if let Some((tree, others)) = self.partition.split_first() {
            self.partition = others;
            return Some(tree);
        }
        let (tree, others) = split_order(self.order)?;
        self.order = others;
        Some(tree)
    }
}
