//! Laws of the bounds: each is the contract of a function that does nothing, so that a caller can use it.
ghost use Rattle.std.specs.Prelude.{◌≡◌, ℕ, ◌+◌, ◌*◌, ◌<◌, ◌≤◌};
ghost use Rattle.core_laws.specs.declared.TheConstants.{MAX_THETA};
ghost use Rattle.estimates.specs.Bounds.{IsNear, ceil_sqrt, count_bounds, root_sum};
ghost use Rattle.estimates.specs.Fraction.{nearest};

use core_laws::MAX_THETA;

/// A root rounded up is the least whole number whose square is at least the number.
pub fn root_is_least()
    ensures enough { (n : ℕ) → n ≤ ceil_sqrt n * ceil_sqrt n }
    ensures least { (n m : ℕ) → n ≤ m * m → ceil_sqrt n ≤ m }
{}

/// Each count that is near, and at least the number of retained entries, is within the bounds. A count is near
/// (`IsNear`) if the number of retained entries is within z standard deviations of the number that is expected for
/// it.
pub fn near_is_within()
    ensures lower { (z r t n : ℕ) → 0 < t → r ≤ n → IsNear z r t n → (count_bounds z r t).lower ≤ n }
    ensures upper { (z r t n : ℕ) → 0 < t → IsNear z r t n → n ≤ (count_bounds z r t).upper }
{}

/// A count that is near for some standard deviations is near for more.
pub fn near_for_more()
    ensures { (z more r t n : ℕ) → z ≤ more → IsNear z r t n → IsNear more r t n }
{}

/// Rounding widens the bounds by less than two on either side: a count that is at least two inside both is near. The
/// premise, a theta of at least half the sum of the roots, holds for estimates up to 8 * 10^9 from 16 entries, and up
/// to 10^11 from 4096.
pub fn inside_is_near()
    ensures { (z r t n : ℕ)
        → 0 < t
        → root_sum z r t ≤ 2 * t
        → (count_bounds z r t).lower + 2 ≤ n
        → n + 2 ≤ (count_bounds z r t).upper
        → IsNear z r t n }
{}

/// The estimate is within the bounds, as a fraction and rounded to the nearest whole number.
pub fn estimate_is_within()
    ensures from_lower { (z r t : ℕ) → 0 < t → t ≤ MAX_THETA → (count_bounds z r t).lower * t ≤ r * MAX_THETA }
    ensures to_upper { (z r t : ℕ) → 0 < t → r * MAX_THETA ≤ (count_bounds z r t).upper * t }
    ensures from_lower_rounded { (z r t : ℕ)
        → 0 < t
        → t ≤ MAX_THETA
        → (count_bounds z r t).lower ≤ nearest (r * MAX_THETA) t }
    ensures to_upper_rounded { (z r t : ℕ) → 0 < t → nearest (r * MAX_THETA) t ≤ (count_bounds z r t).upper }
{}

/// The lower bound is at least the number of retained entries, since these were seen.
pub fn retained_is_within()
    ensures { (z r t : ℕ) → r ≤ (count_bounds z r t).lower }
{}

/// If theta is the greatest, both bounds are the number of retained entries.
pub fn exact_is_its_bounds()
    ensures { (z r : ℕ) → count_bounds z r MAX_THETA ≡ record { lower = r; upper = r } }
{}

/// Below a smaller theta the upper bound is above the number of retained entries, so it is above 0 if none is
/// retained.
pub fn upper_is_above_retained()
    ensures { (z r t : ℕ) → 0 < z → 0 < t → t < MAX_THETA → r < (count_bounds z r t).upper }
{}
