//! The conjuncts of a condition, as they are written.
ghost use Rattle.std.specs.Prelude.{◌≡◌, ◌++◌, ◌∷◌, [], map, OnOk};
ghost use Rattle.sql_syntax.specs.View.{view};
ghost use Rattle.query_answer.specs.Answer.{conjuncts};
ghost use Rattle.bind_forms.specs.Lists.{conjuncts_of};
ghost use Rattle.bind_forms.specs.Views.{conjunct_view};

use ct_value::{List, Memory};
use sql_syntax::{Tree, Trees};

/// A conjunct.
#[derive(Drop)]
pub struct Conjunct<'a> {
    pub tree: &'a Tree,
}

/// Conjuncts, in the order in which they are written.
pub type Conjuncts<'a> = List<Conjunct<'a>>;

/// Puts the top-level conjuncts of a condition behind those that were found.
#[cycle(conjuncts)]
#[tactic(auto, unfolding(sql_syntax::specs::View::view))]
pub fn push_conjuncts<'a>(found: &mut Conjuncts<'a>, tree: &'a Tree) -> Result<(), Memory>
    ensures { OnOk result (map conjunct_view found.new ≡ map conjunct_view found.old ++ conjuncts (view tree.now)) }
{
    match tree {
        Tree::And(trees) => push_all(found, trees),
        Tree::Paren(value) => push_conjuncts(found, value),
        _ => push_one(found, tree),
    }
}

#[cycle(conjuncts)]
fn push_all<'a>(found: &mut Conjuncts<'a>, trees: &'a Trees) -> Result<(), Memory>
    ensures { OnOk result (map conjunct_view found.new ≡ map conjunct_view found.old ++ conjuncts_of trees.now) }
{
    for tree in trees.as_slice() {
        push_conjuncts(found, tree)?;
    }
    Ok(())
}

// A tree that is one conjunct.
fn push_one<'a>(found: &mut Conjuncts<'a>, tree: &'a Tree) -> Result<(), Memory>
    ensures { OnOk result (map conjunct_view found.new ≡ map conjunct_view found.old ++ view tree.now ∷ []) }
{
    found.push(Conjunct { tree })
}
