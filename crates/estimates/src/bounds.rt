//! Bounds of a sketch's count.
ghost use Rattle.std.specs.Prelude.{◌≡◌, ◌<◌, ◌≤◌, ◌^◌};
ghost use Rattle.core_laws.specs.declared.TheConstants.{MAX_THETA};
ghost use Rattle.estimates.specs.Bounds.{deviation_count, ceil_sqrt, count_bounds};

use core_laws::MAX_THETA;

/// How many standard deviations the bounds allow. If hashes are random, the true count is within the bounds in about
/// 68, 95 and 99.7 of 100 sketches; that isn't proved.
#[derive(Debug, Clone, Copy, PartialEq, Eq)]
pub enum Deviations {
    One,
    Two,
    Three,
}

impl Deviations {
    /// The number of standard deviations: 1, 2 or 3.
    fn count(self) -> u128
        ensures { result ≡ deviation_count self }
    {
        match self {
            Deviations::One => 1,
            Deviations::Two => 2,
            Deviations::Three => 3,
        }
    }
}

/// The whole numbers from `lower` to `upper`, both included.
#[derive(Debug, Clone, Copy, PartialEq, Eq)]
pub struct Interval {
    pub lower: u128,
    pub upper: u128,
}

/// The least whole number whose square is at least `number`.
fn ceil_sqrt(number: u128) -> u128
    requires { number < 2 ^ 98 }
    ensures value { result ≡ ceil_sqrt number }
    ensures small { result ≤ 2 ^ 49 }
{
    let root = number.isqrt();
    if root * root < number { root + 1 } else { root }
}

/// Bounds of the number of distinct values that a sketch has seen, by its retained entries, fewer than 2^32, and its
/// theta, from 1 to `MAX_THETA`: the ends of the Wilson score interval, rounded outwards. The lower bound is at least
/// the number of retained entries. Both are that number if theta is `MAX_THETA`; pass `MAX_THETA` for an empty
/// sketch.
pub fn count_bounds(retained: usize, theta: u64, deviations: Deviations) -> Interval
    requires limited { retained < 2 ^ 32 }
    requires low { 0 < theta }
    requires high { theta ≤ MAX_THETA }
    ensures { result ≡ count_bounds (deviation_count deviations) retained theta }
{
    let number = deviations.count();
    let spread = number * number * (MAX_THETA - theta) as u128;
    let scaled = retained as u128 * MAX_THETA as u128;
    let reach = ceil_sqrt(spread) * ceil_sqrt(spread + 4 * scaled);
    let middle = 2 * scaled + spread;
    let unit = 2 * theta as u128;
    Interval {
        lower: (middle.saturating_sub(reach) / unit).max(retained as u128),
        upper: (middle + reach).div_ceil(unit),
    }
}
