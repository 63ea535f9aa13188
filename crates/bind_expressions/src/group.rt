ghost use Rattle.std.specs.Prelude.{◌≡◌};
ghost use Rattle.sql_syntax.specs.View.{trees_view};
ghost use Rattle.query_answer.specs.Names.{find};
ghost use Rattle.std.specs.BTreeMap.{get};
ghost use Rattle.std.specs.Cmp.Lexicographic.{slice_cmp};
ghost use Rattle.std.specs.Ordering.{nat_cmp};
ghost use Rattle.query_answer.specs.Shapes.{Shape, place_of};
ghost use Rattle.bind_shapes.specs.Codes.{code};

use bind_nodes::Bounds;
use bind_shapes::Places;
use query_answer::Scope;
use sql_syntax::Trees;

/// The GROUP BY expressions of a select, over the columns in reach: as they are written, bound, and by their shapes.
#[derive(Drop)]
pub struct Group<'a> {
    pub scope: &'a Scope,
    pub trees: &'a Trees,
    pub keys: Bounds,
    pub places: Places,
    ghost placed: { (x : Shape) → get (slice_cmp nat_cmp) places (code x) ≡ place_of (find scope.now) (trees_view trees.now) x },
}
