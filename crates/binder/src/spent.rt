//! Which conjunct is spent, tree by tree.
ghost use Rattle.std.specs.Prelude.{◌≡◌, length, IfOk};
ghost use Rattle.sql_syntax.specs.View.{view};
ghost use Rattle.query_answer.specs.Answer.{conjuncts};
ghost use Rattle.binder.specs.Steps.{spent_behind, spent_here};

use bind_forms::{Conjuncts, push_conjuncts};
use ct_value::Memory;
use sql_syntax::Tree;
use std::alloc::Global;

fn count(alloc: Global, tree: &Tree) -> Result<usize, Memory>
    ensures { IfOk result (λ n. n ≡ length (conjuncts (view tree.now))) }
{
    let mut found = Conjuncts::new(alloc);
    push_conjuncts(&mut found, tree)?;
    Ok(found.len())
}

/// Which conjunct of a tree is spent, and which of those behind it, where one is, counted from 0.
pub(crate) fn split_spent(
    alloc: Global,
    spent: Option<usize>,
    tree: &Tree,
) -> Result<(Option<usize>, Option<usize>), Memory>
    ensures here { IfOk result (λ p. p.0 ≡ spent_here spent (view tree.now)) }
    ensures behind { IfOk result (λ p. p.1 ≡ spent_behind spent (view tree.now)) }
{
    let Some(place) = spent else {
        return Ok((None, None));
    };
    let count = count(alloc, tree)?;
    if place < count {
        return Ok((Some(place), None));
    }
    Ok((None, Some(place - count)))
}
