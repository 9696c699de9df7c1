//! Laws of totals: the contract of a function that does nothing, so that a caller can use it.
ghost use Rattle.std.specs.Prelude.{ℕ, ◌≡◌, ◌<◌, ◌≤◌};
ghost use Rattle.core_compact.specs.CompactState.{Compact, IsCompact};
ghost use Rattle.core_laws.specs.declared.TheConstants.{MAX_THETA};
ghost use Rattle.core_slots.specs.Entry.{tuple_key};
ghost use Rattle.core_slots.specs.declared.entry.TupleEntry.{TupleEntry};
ghost use Rattle.totals.specs.Bounds.{GREATEST, IsNearTotal, total_bounds};
ghost use Rattle.totals.specs.Totals.{IsTotalOf, sum_of, total_of};

/// A total is at least the sum of the retained sums, and that sum itself if it is exact.
pub fn totals_are_consistent()
    ensures { (s : Compact (TupleEntry ℕ)) → IsCompact tuple_key s → IsTotalOf s.entries (total_of s) }
{}

/// Each total that is near (`IsNearTotal`), at least the sum of the retained sums, and below 2^128 is within the bounds.
pub fn near_total_is_within()
    ensures lower { (z : ℕ) (s : Compact (TupleEntry ℕ)) (n : ℕ)
        → 0 < s.theta
        → sum_of s.entries ≤ n
        → IsNearTotal z s.entries s.theta n
        → (total_bounds z s).lower ≤ n }
    ensures upper { (z : ℕ) (s : Compact (TupleEntry ℕ)) (n : ℕ)
        → 0 < s.theta
        → n ≤ GREATEST
        → IsNearTotal z s.entries s.theta n
        → n ≤ (total_bounds z s).upper }
{}

/// The estimated total is within its bounds, if it is below 2^128.
pub fn total_is_within()
    ensures lower { (z : ℕ) (s : Compact (TupleEntry ℕ))
        → 0 < s.theta
        → s.theta ≤ MAX_THETA
        → (total_bounds z s).lower ≤ (total_of s).total }
    ensures upper { (z : ℕ) (s : Compact (TupleEntry ℕ))
        → 0 < s.theta
        → (total_of s).total ≤ GREATEST
        → (total_of s).total ≤ (total_bounds z s).upper }
{}

/// If theta is the greatest, both bounds are the sum of the retained sums.
pub fn exact_total_is_its_bounds()
    ensures lower { (z : ℕ) (s : Compact (TupleEntry ℕ))
        → s.theta ≡ MAX_THETA
        → (total_bounds z s).lower ≡ sum_of s.entries }
    ensures upper { (z : ℕ) (s : Compact (TupleEntry ℕ))
        → s.theta ≡ MAX_THETA
        → sum_of s.entries ≤ GREATEST
        → (total_bounds z s).upper ≡ sum_of s.entries }
{}
