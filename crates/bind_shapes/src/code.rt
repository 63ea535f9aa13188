ghost use Rattle.std.specs.Prelude.{◌≡◌, ◌∷◌, ◌++◌, [], option_map, IfOk, OnOk};
ghost use Rattle.sql_syntax.specs.Tree.{optional_tree, trees as tree_list, sum_tails, product_tails, tree_whens};
ghost use Rattle.sql_syntax.specs.View.{view, trees_view, args_view, over_view, sum_tails_view, product_tails_view, whens_view};
ghost use Rattle.query_answer.specs.Names.{find};
ghost use Rattle.query_answer.specs.Functions.{function_of};
ghost use Rattle.query_answer.specs.Shapes.{shape, all_shapes, sum_shapes, product_shapes, when_shapes, otherwise_shape, args_shapes, column_shape, column_word, type_word, function_word, one_shape, agg_number, args_number, compare_number, sum_number, product_number, flag};
ghost use Rattle.bind_shapes.specs.Codes.{code, codes, word};

use bind_names::{find, function_of};
use ct_catalog::type_of;
use ct_value::{Boxed, CompareOp, List, Memory, Text, Ty};
use query_answer::{Found, Function, Scope};
use rel_algebra::AggCall;
use sql_syntax::{
    Args, Over, ProductTails, ProductWord, SumTails, SumWord, Tree, TreeWhens, Trees,
};
use std::alloc::Global;

/// A shape, written as numbers.
pub type Code = List<u64>;

/// The shape of a tree over the columns in reach.
pub fn shape_code(alloc: Global, scope: &Scope, tree: &Tree) -> Result<Code, Memory>
    ensures { IfOk result (λ found. found ≡ code (shape (find scope.now) (view tree.now))) }
{
    let mut written = Code::new(alloc);
    write_shape(&mut written, scope, tree)?;
    Ok(written)
}

/// The shape of the column at a place.
pub fn column_code(alloc: Global, place: u32) -> Result<Code, Memory>
    ensures { IfOk result (λ found. found ≡ code (column_shape place)) }
{
    let mut written = Code::new(alloc);
    write_pair(&mut written, 1, place)?;
    written.push(0)?;
    Ok(written)
}

// What a node says itself: its kind alone.
fn write_kind(written: &mut Code, kind: u32) -> Result<(), Memory>
    ensures { OnOk result (written.new ≡ written.old ++ word (kind ∷ [])) }
{
    written.push(u64::from(kind) + 1)?;
    written.push(0)
}

// What a node says itself: its kind, and one number more.
fn write_pair(written: &mut Code, kind: u32, detail: u32) -> Result<(), Memory>
    ensures { OnOk result (written.new ≡ written.old ++ word (kind ∷ detail ∷ [])) }
{
    written.push(u64::from(kind) + 1)?;
    written.push(u64::from(detail) + 1)?;
    written.push(0)
}

// A kind, and the bytes of a text.
fn write_text(written: &mut Code, kind: u32, text: &Text) -> Result<(), Memory>
    ensures { OnOk result (written.new ≡ written.old ++ word (kind ∷ text.now)) }
{
    written.push(u64::from(kind) + 1)?;
    for byte in text.as_slice() {
        written.push(u64::from(*byte) + 1)?;
    }
    written.push(0)
}

fn flag(truth: bool) -> u32
    ensures { result ≡ flag truth }
{
    if truth { 1 } else { 0 }
}

fn compare_number(op: CompareOp) -> u32
    ensures { result ≡ compare_number op }
{
    match op {
        CompareOp::Eq => 0,
        CompareOp::Ne => 1,
        CompareOp::Lt => 2,
        CompareOp::Le => 3,
        CompareOp::Gt => 4,
        CompareOp::Ge => 5,
    }
}

fn sum_number(word: SumWord) -> u32
    ensures { result ≡ sum_number word }
{
    match word {
        SumWord::Plus => 0,
        SumWord::Minus => 1,
        SumWord::Concat => 2,
    }
}

fn product_number(word: ProductWord) -> u32
    ensures { result ≡ product_number word }
{
    match word {
        ProductWord::Times => 0,
        ProductWord::Divide => 1,
        ProductWord::Modulo => 2,
    }
}

fn agg_number(call: AggCall) -> u32
    ensures { result ≡ agg_number call }
{
    match call {
        AggCall::CountAll => 0,
        AggCall::Count => 1,
        AggCall::CountDistinct => 2,
        AggCall::Sum => 3,
        AggCall::Min => 4,
        AggCall::Max => 5,
        AggCall::Avg => 6,
    }
}

#[tactic(auto, unfolding(sql_syntax::specs::View::args_view))]
fn args_number(args: &Args) -> u32
    ensures { result ≡ args_number (args_view args.now) }
{
    match args {
        Args::Empty => 0,
        Args::Star => 1,
        Args::List { distinct, .. } => { if *distinct { 3 } else { 2 } }
    }
}

// A name is the column that it finds.
fn write_column(written: &mut Code, found: Found) -> Result<(), Memory>
    ensures { OnOk result (written.new ≡ written.old ++ word (column_word found)) }
{
    match found {
        Found::Absent | Found::Several => write_kind(written, 0),
        Found::At(place, _) => write_pair(written, 1, place),
    }
}

// A CAST, and the type that it names.
fn write_cast(written: &mut Code, ty: Option<Ty>) -> Result<(), Memory>
    ensures { OnOk result (written.new ≡ written.old ++ word (20 ∷ type_word ty)) }
{
    match ty {
        None => write_pair(written, 20, 0),
        Some(Ty::Bool) => write_pair(written, 20, 1),
        Some(Ty::Int) => write_pair(written, 20, 2),
        Some(Ty::BigInt) => write_pair(written, 20, 3),
        Some(Ty::Decimal { p, s }) => {
            written.push(21)?;
            written.push(5)?;
            written.push(u64::from(p) + 1)?;
            written.push(u64::from(s) + 1)?;
            written.push(0)
        }
        Some(Ty::Text) => write_pair(written, 20, 5),
    }
}

// What a call says itself.
#[tactic(auto, unfolding(sql_syntax::specs::View::args_view))]
fn write_call(
    written: &mut Code,
    name: &Text,
    args: &Args,
    filter: bool,
    over: bool,
) -> Result<(), Memory>
    ensures { OnOk result (written.new ≡ written.old ++ word (2 ∷ args_number (args_view args.now) ∷ flag filter ∷ flag over ∷ function_word (function_of name.now))) }
{
    written.push(3)?;
    written.push(u64::from(args_number(args)) + 1)?;
    written.push(u64::from(flag(filter)) + 1)?;
    written.push(u64::from(flag(over)) + 1)?;
    write_function(written, function_of(name))
}

// A function is what its name means.
fn write_function(written: &mut Code, function: Function) -> Result<(), Memory>
    ensures { OnOk result (written.new ≡ written.old ++ word (function_word function)) }
{
    match function {
        Function::Aggregate(call) => write_pair(written, 0, agg_number(call)),
        Function::Coalesce => write_kind(written, 1),
        Function::NullIf => write_kind(written, 2),
        Function::CharLength => write_kind(written, 3),
        Function::RowNumber => write_kind(written, 4),
        Function::Changing => write_kind(written, 5),
        Function::Unknown => write_kind(written, 6),
    }
}

// A part, and the mark before it.
#[cycle(shape)]
fn write_part(written: &mut Code, scope: &Scope, tree: &Tree) -> Result<(), Memory>
    ensures { OnOk result (written.new ≡ written.old ++ 1 ∷ code (shape (find scope.now) (view tree.now))) }
{
    written.push(1)?;
    write_shape(written, scope, tree)
}

// The only part.
#[cycle(shape)]
fn write_only(written: &mut Code, scope: &Scope, tree: &Tree) -> Result<(), Memory>
    ensures { OnOk result (written.new ≡ written.old ++ codes (one_shape (shape (find scope.now) (view tree.now)))) }
{
    write_part(written, scope, tree)?;
    written.push(0)
}

#[cycle(shape)]
#[tactic(auto, unfolding(sql_syntax::specs::View::view, sql_syntax::specs::View::sum_view, sql_syntax::specs::View::product_view, sql_syntax::specs::View::when_view, sql_syntax::specs::View::args_view, sql_syntax::specs::View::over_view))]
fn write_shape(written: &mut Code, scope: &Scope, tree: &Tree) -> Result<(), Memory>
    ensures { OnOk result (written.new ≡ written.old ++ code (shape (find scope.now) (view tree.now))) }
{
    match tree {
        Tree::Or(trees) => {
            write_kind(written, 3)?;
            write_all(written, scope, trees)
        }
        Tree::And(trees) => {
            write_kind(written, 4)?;
            write_all(written, scope, trees)
        }
        Tree::Not(value) => {
            write_kind(written, 5)?;
            write_only(written, scope, value)
        }
        Tree::Exists(_) => write_leaf(written, 6),
        Tree::Compare { op, left, right } => {
            write_pair(written, 7, compare_number(*op))?;
            write_part(written, scope, left)?;
            write_only(written, scope, right)
        }
        Tree::IsNull { value, negated } => {
            write_pair(written, 8, flag(*negated))?;
            write_only(written, scope, value)
        }
        Tree::Between {
            value,
            low,
            high,
            negated,
        } => {
            write_pair(written, 9, flag(*negated))?;
            write_part(written, scope, value)?;
            write_part(written, scope, low)?;
            write_only(written, scope, high)
        }
        Tree::InList {
            value,
            items,
            negated,
        } => {
            write_pair(written, 10, flag(*negated))?;
            write_part(written, scope, value)?;
            write_all(written, scope, items)
        }
        Tree::InQuery { .. } => write_leaf(written, 11),
        Tree::Like {
            value,
            pattern,
            negated,
        } => {
            write_pair(written, 12, flag(*negated))?;
            write_part(written, scope, value)?;
            write_only(written, scope, pattern)
        }
        Tree::Sum { first, rest } => {
            write_kind(written, 13)?;
            write_part(written, scope, first)?;
            write_sum(written, scope, rest)
        }
        Tree::Product { first, rest } => {
            write_kind(written, 14)?;
            write_part(written, scope, first)?;
            write_product(written, scope, rest)
        }
        Tree::Sign { minus, value } => {
            write_pair(written, 15, flag(*minus))?;
            write_only(written, scope, value)
        }
        Tree::Number(text) => write_literal(written, 16, text),
        Tree::Str(text) => write_literal(written, 17, text),
        Tree::Bool(truth) => {
            write_pair(written, 18, flag(*truth))?;
            written.push(0)
        }
        Tree::Null => write_leaf(written, 19),
        Tree::Name { of, name, .. } => {
            write_column(written, find(scope, of, name)?)?;
            written.push(0)
        }
        Tree::Call {
            name,
            args,
            filter,
            over,
        } => {
            write_call(written, name, args, filter.is_some(), over.is_some())?;
            write_args(written, scope, args)
        }
        Tree::Cast { value, ty } => {
            write_cast(written, type_of(ty))?;
            write_only(written, scope, value)
        }
        Tree::Paren(value) => write_shape(written, scope, value),
        Tree::Sub(_) => write_leaf(written, 21),
        Tree::Case { whens, otherwise } => {
            write_pair(written, 22, flag(otherwise.is_some()))?;
            written.push(1)?;
            write_otherwise(written, scope, otherwise)?;
            write_whens(written, scope, whens)
        }
    }
}

// A node without parts.
fn write_leaf(written: &mut Code, kind: u32) -> Result<(), Memory>
    ensures { OnOk result (written.new ≡ written.old ++ (word (kind ∷ []) ++ 0 ∷ [])) }
{
    write_kind(written, kind)?;
    written.push(0)
}

fn write_literal(written: &mut Code, kind: u32, text: &Text) -> Result<(), Memory>
    ensures { OnOk result (written.new ≡ written.old ++ (word (kind ∷ text.now) ++ 0 ∷ [])) }
{
    write_text(written, kind, text)?;
    written.push(0)
}

#[cycle(shape)]
fn write_all(written: &mut Code, scope: &Scope, trees: &Trees) -> Result<(), Memory>
    ensures { OnOk result (written.new ≡ written.old ++ codes (all_shapes (find scope.now) (tree_list (trees_view trees.now)))) }
{
    for tree in trees.as_slice() {
        write_part(written, scope, tree)?;
    }
    written.push(0)
}

#[cycle(shape)]
fn write_sum(written: &mut Code, scope: &Scope, tails: &SumTails) -> Result<(), Memory>
    ensures { OnOk result (written.new ≡ written.old ++ codes (sum_shapes (find scope.now) (sum_tails (sum_tails_view tails.now)))) }
{
    for tail in tails.as_slice() {
        written.push(1)?;
        write_kind(written, sum_number(tail.word))?;
        write_only(written, scope, &tail.value)?;
    }
    written.push(0)
}

#[cycle(shape)]
fn write_product(written: &mut Code, scope: &Scope, tails: &ProductTails) -> Result<(), Memory>
    ensures { OnOk result (written.new ≡ written.old ++ codes (product_shapes (find scope.now) (product_tails (product_tails_view tails.now)))) }
{
    for tail in tails.as_slice() {
        written.push(1)?;
        write_kind(written, product_number(tail.word))?;
        write_only(written, scope, &tail.value)?;
    }
    written.push(0)
}

#[cycle(shape)]
fn write_whens(written: &mut Code, scope: &Scope, whens: &TreeWhens) -> Result<(), Memory>
    ensures { OnOk result (written.new ≡ written.old ++ codes (when_shapes (find scope.now) (tree_whens (whens_view whens.now)))) }
{
    for when in whens.as_slice() {
        write_part(written, scope, &when.cond)?;
        write_part(written, scope, &when.result)?;
    }
    written.push(0)
}

#[cycle(shape)]
fn write_otherwise(
    written: &mut Code,
    scope: &Scope,
    otherwise: &Option<Boxed<Tree>>,
) -> Result<(), Memory>
    ensures { OnOk result (written.new ≡ written.old ++ code (otherwise_shape (find scope.now) (optional_tree (option_map view otherwise.now)))) }
{
    match otherwise {
        None => {
            written.push(0)?;
            written.push(0)
        }
        Some(tree) => write_shape(written, scope, tree),
    }
}

#[cycle(shape)]
#[tactic(auto, unfolding(sql_syntax::specs::View::args_view, sql_syntax::specs::View::view))]
fn write_args(written: &mut Code, scope: &Scope, args: &Args) -> Result<(), Memory>
    ensures { OnOk result (written.new ≡ written.old ++ codes (args_shapes (find scope.now) (args_view args.now))) }
{
    match args {
        Args::Empty | Args::Star => written.push(0),
        Args::List { values, .. } => write_all(written, scope, values),
    }
}
