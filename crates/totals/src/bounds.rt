//! Bounds of the total of the values of a stream, from a sketch of sums.
ghost use Rattle.std.specs.Prelude.{◌≡◌, ◌<◌, ◌≤◌, ◌+◌, ◌*◌, ◌-◌, ◌/◌, ◌^◌, ℕ, List, min};
ghost use Rattle.std.specs.Int.{div_ceil};
ghost use Rattle.core_laws.specs.declared.TheConstants.{MAX_THETA};
ghost use Rattle.core_slots.specs.declared.entry.TupleEntry.{TupleEntry};
ghost use Rattle.estimates.specs.Bounds.{ceil_sqrt, deviation_count};
ghost use Rattle.totals.specs.Bounds.{GREATEST, greatest_in, root_of, squares_of, total_bounds};
ghost use Rattle.totals.specs.Totals.{sum_of};

use crate::total::sum_of;
use core_laws::MAX_THETA;
use estimates::{Deviations, Interval};
use std::alloc::Allocator;
use tuple_sketches::{CompactTupleSketch, TupleSketchIter};

/// The number of standard deviations.
fn count_of(deviations: Deviations) -> u128
    ensures { result ≡ deviation_count deviations }
{
    match deviations {
        Deviations::One => 1,
        Deviations::Two => 2,
        Deviations::Three => 3,
    }
}

/// The sum of the squares of the summaries of entries, or 2^128 - 1 if it is greater.
fn squares_of(entries: TupleSketchIter<'_, u64>) -> u128
    ensures { result ≡ min (squares_of entries.entry.rest) GREATEST }
{
    let mut squares = 0u128;
    for entry in entries {
        let summary = *entry.summary() as u128;
        squares = squares.saturating_add(summary * summary);
    }
    squares
}

/// The least whole number whose square is at least `number`.
fn ceil_sqrt(number: u128) -> u128
    ensures { result ≡ ceil_sqrt number }
{
    let root = number.isqrt();
    if root * root < number { root + 1 } else { root }
}

/// The greatest summary of entries; 0 if there are none.
fn greatest_of(entries: TupleSketchIter<'_, u64>) -> u64
    ensures { result ≡ greatest_in entries.entry.rest }
{
    let mut greatest = 0u64;
    for entry in entries {
        greatest = greatest.max(*entry.summary());
    }
    greatest
}

/// The root of the sum of the squares of summaries, rounded up. If the squares are 2^128 - 1 or more, a wider one: that of
/// the sum of the summaries times the greatest of them, which is no less.
fn root_of(squares: u128, sum: u128, greatest: u64) -> u128
    ensures { (es : List (TupleEntry ℕ))
        → squares ≡ min (squares_of es) GREATEST
        → sum ≡ sum_of es
        → greatest ≡ greatest_in es
        → result ≡ root_of es }
{
    if squares < u128::MAX {
        ceil_sqrt(squares)
    } else {
        let wide = ceil_sqrt(sum).saturating_mul(ceil_sqrt(greatest as u128));
        wide.min(sum)
    }
}

/// A number times another, at most `MAX_THETA`, over theta, from 1 to `MAX_THETA`, rounded down.
fn scaled_down(number: u128, by: u128, theta: u64) -> u128
    requires low { 0 < theta }
    requires high { theta ≤ MAX_THETA }
    requires limited { by ≤ MAX_THETA }
    requires small { number < 2 ^ 64 * theta }
    ensures { result ≡ number * by / theta }
{
    let under = theta as u128;
    number / under * by + number % under * by / under
}

/// A number times another, at most `MAX_THETA`, over theta, from 1 to `MAX_THETA`, rounded up.
fn scaled_up(number: u128, by: u128, theta: u64) -> u128
    requires low { 0 < theta }
    requires high { theta ≤ MAX_THETA }
    requires limited { by ≤ MAX_THETA }
    requires small { number < 2 ^ 64 * theta }
    ensures { result ≡ div_ceil (number * by) theta }
{
    let under = theta as u128;
    number / under * by + (number % under * by).div_ceil(under)
}

/// Bounds of the total of the values of a stream, from a sketch of sums of it: the estimated total, less and plus so many
/// standard deviations of Horvitz and Thompson's estimate (1952), rounded outwards. The lower one is at least the sum of
/// the retained sums, and both are this sum if no key was dropped. They say nothing of what a few dropped keys with most
/// of the total would add, and both are 0 if no retained key has a sum above 0.
pub fn total_bounds<A: Allocator>(
    sketch: &CompactTupleSketch<u64, A>,
    deviations: Deviations,
) -> Interval
    ensures { result ≡ total_bounds (deviation_count deviations) sketch.now }
{
    let theta = sketch.theta64();
    let sum = sum_of(sketch.iter());
    let squares = squares_of(sketch.iter());
    let root = root_of(squares, sum, greatest_of(sketch.iter()));
    let spread = ceil_sqrt((MAX_THETA - theta) as u128 * MAX_THETA as u128);
    let reach = count_of(deviations).saturating_mul(scaled_up(root, spread, theta));
    let all = MAX_THETA as u128;
    Interval {
        lower: scaled_down(sum, all, theta).saturating_sub(reach).max(sum),
        upper: scaled_up(sum, all, theta).saturating_add(reach),
    }
}
