//! The order of groups in a map.
ghost use Rattle.std.specs.List.Sorted.{IsStrictlySortedBy};
ghost use Rattle.std.specs.Map.{keys_of};
ghost use Rattle.std.specs.Ordering.{nat_cmp};
ghost use Rattle.std.specs.Cmp.Lexicographic.{slice_cmp};

use std::collections::BTreeMap;

/// Does nothing. Its clause says that the names in a map ascend, which callers know of no map that they have.
pub fn names_ascend<V>(map: &BTreeMap<Vec<u8>, V>)
    ensures { IsStrictlySortedBy (λ x y. slice_cmp nat_cmp x.items y.items) (keys_of map.now.entries) }
{
    let _ = map.len();
}
