//! The estimated total of the values of a stream, from a sketch of sums.
ghost use Rattle.std.specs.Prelude.{◌≡◌, ◌<◌, ◌≤◌, ◌*◌, ◌-◌, ◌^◌, length};
ghost use Rattle.totals.specs.Totals.{IsTotalOf, lines_total, sum_of, total_of};

use crate::laws::totals_are_consistent;
use core_laws::MAX_THETA;
use estimates::nearest_total;
use std::alloc::Allocator;
use tuple_sketches::{CompactTupleSketch, TupleSketchIter};

/// The estimated total of the values of a stream, from a sketch of sums. `total_of` returns one.
#[derive(Debug, Clone, Copy, PartialEq, Eq)]
pub struct Total {
    /// The estimated total of the values of all keys, rounded to the nearest whole number; a half is rounded up.
    pub total: u128,
    /// Whether theta is `MAX_THETA`: then no key was dropped, and the total is the sum of the retained sums.
    pub exact: bool,
    /// How many keys the sketch retains, fewer than 2^32.
    pub retained: usize,
    /// The theta of the sketch, from 1 to `MAX_THETA`.
    pub theta: u64,
}

/// The sum of the summaries of entries, below 2^96. There must be fewer than 2^32 entries, as in every sketch.
pub fn sum_of(entries: TupleSketchIter<'_, u64>) -> u128
    requires limited { length entries.rest < 2 ^ 32 }
    ensures sum { result ≡ sum_of entries.entry.rest }
    ensures limited { result ≤ (2 ^ 64 - 1) * length entries.entry.rest }
{
    let mut sum = 0u128;
    for entry in entries {
        sum += *entry.summary() as u128;
    }
    sum
}

/// The estimated total of the values of a stream, from a sketch of sums of it. It is at least the sum of the retained
/// sums, and that sum itself if it is exact.
pub fn total_of<A: Allocator>(sketch: &CompactTupleSketch<u64, A>) -> Total
    ensures value { result ≡ total_of sketch.now }
    ensures consistent { IsTotalOf sketch.now.entries result }
{
    totals_are_consistent();
    let retained = sketch.num_retained();
    let theta = sketch.theta64();
    Total {
        total: nearest_total(sum_of(sketch.iter()), theta),
        exact: theta == MAX_THETA,
        retained,
        theta,
    }
}

/// The total of the numbers of lines, and the number of their keys. `lines_total` returns one.
#[derive(Debug, Clone, Copy, PartialEq, Eq)]
pub struct LinesTotal {
    /// The exact total of the numbers of all lines, below 2^128.
    pub total: u128,
    /// The estimated number of keys, rounded to the nearest whole number; a half is rounded up.
    pub keys: u128,
    /// Whether the number of keys is exact: the sketch dropped no key.
    pub exact: bool,
    /// How many keys the sketch retains, fewer than 2^32.
    pub retained: usize,
    /// The theta of the sketch, from 1 to `MAX_THETA`.
    pub theta: u64,
}

/// The total of lines, which is passed on, and the number of their keys, by the sketch of their sums.
pub fn lines_total<A: Allocator>(sketch: &CompactTupleSketch<u64, A>, total: u128) -> LinesTotal
    ensures { result ≡ lines_total sketch.now total }
{
    let retained = sketch.num_retained();
    let theta = sketch.theta64();
    LinesTotal {
        total,
        keys: nearest_total(retained as u128, theta),
        exact: theta == MAX_THETA,
        retained,
        theta,
    }
}
