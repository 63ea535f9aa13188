//! Names that are looked for in trees.
ghost use Rattle.std.specs.Prelude.{◌≡◌};
ghost use Rattle.sql_syntax.specs.Tree.{trees as tree_list};
ghost use Rattle.sql_syntax.specs.View.{view, trees_view};
ghost use Rattle.query_answer.specs.Mentions as m;
ghost use Rattle.query_answer.specs.Names.{find};
ghost use Rattle.query_answer.specs.Outside as o;
ghost use Rattle.bind_names.specs.Sought.{is_sought, reads};

use crate::names::{is_called, is_named};
use ct_value::Text;
use query_answer::Scope;
use sql_syntax::{Tree, Trees, parts_of};

/// The name of a rank, whose query may have an alias: `bare` tells whether it is read without the alias before it, `sourced` with it.
#[derive(Clone, Copy)]
pub struct RankName<'a> {
    pub alias: &'a Option<Text>,
    pub name: &'a Text,
    pub bare: bool,
    pub sourced: bool,
}

/// The names that are looked for.
#[derive(Clone, Copy)]
pub enum Sought<'a> {
    /// Those that none of these columns has.
    Foreign(&'a Scope),
    Rank(RankName<'a>),
}

// Whether none of the columns has this name.
#[tactic(auto, using(crate::proofs::Foreigns::named, crate::proofs::Foreigns::not_named, crate::proofs::Foreigns::all_tried))]
fn is_absent(own: &Scope, of: &Option<Text>, name: &Text) -> bool
    ensures { result ≡ o.is_absent (find own.now of.now name.now) }
{
    for column in own.as_slice() {
        if is_named(of, name, column) {
            return false;
        }
    }
    true
}

fn reads(rank: &RankName<'_>, of: &Option<Text>, name: &Text) -> bool
    ensures { result ≡ reads rank.now of.now name.now }
{
    match of {
        None => rank.bare && rank.name.is(name.as_slice()),
        Some(source) => rank.sourced
            && is_called(source, rank.alias)
            && rank.name.is(name.as_slice()),
    }
}

fn is_sought(sought: &Sought<'_>, of: &Option<Text>, name: &Text) -> bool
    ensures { result ≡ is_sought sought.now of.now name.now }
{
    match sought {
        Sought::Foreign(own) => is_absent(own, of, name),
        Sought::Rank(rank) => reads(rank, of, name),
    }
}

/// Whether a tree has a name that none of a subquery's own columns has. What a query within it names is that query's own.
pub fn looks_outside(own: &Scope, tree: &Tree) -> bool
    ensures { result ≡ o.looks_outside own.now (view tree.now) }
{
    mentions(&Sought::Foreign(own), tree)
}

// Whether a tree is such a name.
#[tactic(auto, unfolding(sql_syntax::specs::View::view))]
fn is_such(sought: &Sought<'_>, tree: &Tree) -> bool
    ensures { result ≡ m.is_such (is_sought sought.now) (view tree.now) }
{
    match tree {
        Tree::Name { of, name, .. } => is_sought(sought, of, name),
        _ => false,
    }
}

/// Whether a tree has such a name, outside of the queries in it.
#[tactic(auto, using(crate::proofs::SoughtParts::such, crate::proofs::SoughtParts::not_such, crate::proofs::SoughtParts::first_has, crate::proofs::SoughtParts::first_lacks, crate::proofs::SoughtParts::nothing_has, sql_syntax::proofs::laws::Walks::first_weighs, sql_syntax::proofs::laws::Walks::others_weigh, sql_syntax::proofs::laws::Walks::parts_weigh))]
pub fn mentions(sought: &Sought<'_>, tree: &Tree) -> bool
    ensures { result ≡ m.in_tree (is_sought sought.now) (view tree.now) }
{
    if is_such(sought, tree) {
        return true;
    }
    for part in parts_of(tree) {
        if mentions(sought, part) {
            return true;
        }
    }
    false
}

/// Whether one of the trees has such a name.
pub fn any_mentions(sought: &Sought<'_>, trees: &Trees) -> bool
    ensures { result ≡ m.in_trees (is_sought sought.now) (tree_list (trees_view trees.now)) }
{
    for tree in trees.as_slice() {
        if mentions(sought, tree) {
            return true;
        }
    }
    false
}
