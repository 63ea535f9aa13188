ghost use Rattle.std.specs.Prelude.{◌≡◌};
ghost use Rattle.std.specs.Cmp.Lexicographic.{slice_cmp};

use std::cmp::Ordering;

// The order of two lists: the first pair that differs decides, and else the lengths do. It is for few items: the order of
// slices, which answers the same, passes many by groups, and that costs more to begin than few items cost.
pub(crate) fn compare_each<T: Ord>(left: &[T], right: &[T]) -> Ordering
    ensures { result ≡ slice_cmp T.cmp left.now right.now }
{
    let both = left.len().min(right.len());
    for i in 0..both {
        let found = left[i].cmp(&right[i]);
        if found.is_ne() {
            return found;
        }
    }
    left.len().cmp(&right.len())
}
