ghost use Rattle.std.specs.Prelude.{◌≡◌, ℕ, List as Seq, Some, IfOk};
ghost use Rattle.std.specs.BTreeMap.{get};
ghost use Rattle.std.specs.Cmp.{eq_by_cmp_equiv, partial_equiv_from_equiv, po};
ghost use Rattle.std.specs.Cmp.Lexicographic.{slice_cmp, nat_list_cmp_total};
ghost use Rattle.std.specs.Ordering.{nat_cmp, eq_by_cmp};
ghost use Rattle.std.proofs.Common.{refl};
ghost use Rattle.sql_syntax.specs.View.{trees_view};
ghost use Rattle.query_answer.specs.Names.{find};
ghost use Rattle.query_answer.specs.Shapes.{Shape, place_of};
ghost use Rattle.bind_shapes.specs.Codes.{code, codes_of, place_in};

use crate::code::{Code, shape_code};
use ct_value::{List, Memory};
use query_answer::Scope;
use sql_syntax::Trees;
use std::alloc::Global;
use std::cmp::Ordering;
use std::collections::BTreeMap;
use std::marker::Model;

type Codes = List<Code>;

/// A shape among others, in the order of their numbers.
#[derive(Drop)]
pub struct Key {
    code: Code,
}

impl Model for Key {
    ghost use Rattle.std.specs.Prelude.{List, ℕ};

    ghost Value = { List ℕ };

    ghost view = { λ k. k.code };
}

impl PartialEq for Key {
    ghost eq = { eq_by_cmp (slice_cmp nat_cmp) };

    ghost laws = { partial_equiv_from_equiv (eq_by_cmp_equiv nat_list_cmp_total) };

    fn eq(&self, other: &Key) -> bool {
        self.cmp(other).is_eq()
    }
}

impl Eq for Key {
    ghost laws = { eq_by_cmp_equiv nat_list_cmp_total };
}

impl PartialOrd for Key {
    ghost partial_cmp = { λ a b. Some (slice_cmp nat_cmp a b) };

    ghost laws = { po nat_list_cmp_total (λ a b. refl) };

    fn partial_cmp(&self, other: &Key) -> Option<Ordering> {
        Some(self.cmp(other))
    }
}

impl Ord for Key {
    ghost cmp = { slice_cmp nat_cmp };

    ghost total = { nat_list_cmp_total };

    ghost matches_partial_cmp = { λ a b. refl };

    ghost matches_eq = { λ a b. refl };

    fn cmp(&self, other: &Key) -> Ordering {
        self.code.as_slice().cmp(other.code.as_slice())
    }
}

/// The places of trees, counted from 0, by their shapes.
pub type Places = BTreeMap<Key, usize>;

/// Where each shape stands among those of trees: at the first one's place, where several are equal.
#[tactic(auto, using(crate::proofs::Same::placed))]
pub fn places_of(alloc: Global, scope: &Scope, trees: &Trees) -> Result<Places, Memory>
    ensures { IfOk result (λ places. (x : Shape) → get (slice_cmp nat_cmp) places (code x) ≡ place_of (find scope.now) (trees_view trees.now) x) }
{
    let codes = codes_of(alloc, scope, trees)?;
    let places = by_code(alloc, codes)?;
    Ok(places)
}

fn codes_of(alloc: Global, scope: &Scope, trees: &Trees) -> Result<Codes, Memory>
    ensures { IfOk result (λ codes. codes ≡ codes_of (find scope.now) (trees_view trees.now)) }
{
    let mut codes = Codes::with_capacity(alloc, trees.len())?;
    for tree in trees.as_slice() {
        codes.push(shape_code(alloc, scope, tree)?)?;
    }
    Ok(codes)
}

// From the last one, so that the first one's place is what stays.
fn by_code(alloc: Global, codes: Codes) -> Result<Places, Memory>
    ensures { IfOk result (λ places. (word : Seq ℕ) → get (slice_cmp nat_cmp) places word ≡ place_in 0 codes word) }
{
    let mut left = codes;
    let mut places = Places::new(alloc);
    'left: while let Some(code) = left.pop() {
        places.insert(Key { code }, left.len())?;
    }
    Ok(places)
}

/// The place of a shape, where it is among them.
pub fn place(places: &Places, code: Code) -> Option<usize>
    ensures { result ≡ get (slice_cmp nat_cmp) places.now code }
{
    places.get(&Key { code }).copied()
}
