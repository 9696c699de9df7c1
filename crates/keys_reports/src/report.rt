//! Reports: the estimate of a sketch, with its bounds.
ghost use Rattle.std.specs.Prelude.{◌≡◌};
ghost use Rattle.core_laws.specs.Values.{fraction_of};
ghost use Rattle.core_state.specs.Updatable.{sketch_value};
ghost use Rattle.estimates.specs.Bounds.{deviation_count};
ghost use Rattle.keys_reports.specs.Reports.{IsConsistent, is_exact, report_of, rounded};

use core_laws::MAX_THETA;
use estimates::{Deviations, Interval, count_bounds, nearest};
use std::alloc::Allocator;
use theta_sketches::{CompactThetaSketch, ThetaSketch};

/// The estimated number of distinct values of a stream, with bounds, from one sketch. `report_of` returns one.
#[derive(Debug, Clone, Copy, PartialEq, Eq)]
pub struct Report {
    /// The estimated number of distinct values, rounded to the nearest whole number; a half is rounded up.
    pub estimate: u128,
    /// Bounds of the number of distinct values.
    pub interval: Interval,
    /// Whether the sketch is empty or its theta is `MAX_THETA`: then estimate and bounds are the number of retained
    /// entries.
    pub exact: bool,
    /// How many entries the sketch retains, fewer than 2^32.
    pub retained: usize,
    /// The theta of the sketch, from 1 to `MAX_THETA`.
    pub theta: u64,
}

/// Whether a sketch is empty or its theta is `MAX_THETA`.
fn is_exact<A: Allocator>(sketch: &CompactThetaSketch<A>) -> bool
    ensures { result ≡ is_exact sketch.now }
{
    sketch.is_empty() || sketch.theta64() == MAX_THETA
}

/// The report on the stream of a sketch, with bounds of these standard deviations. The estimate is within the bounds.
/// If the report isn't exact, the upper bound is above the number of retained entries, also if there are none.
pub fn report_of<A: Allocator>(sketch: &CompactThetaSketch<A>, deviations: Deviations) -> Report
    ensures made { result ≡ report_of (deviation_count deviations) sketch.now }
    ensures consistent { IsConsistent result }
{
    let retained = sketch.num_retained();
    let theta = sketch.theta64();
    let (over, under) = sketch.estimate_fraction();
    Report {
        estimate: nearest(over, under),
        interval: count_bounds(retained, theta, deviations),
        exact: is_exact(sketch),
        retained,
        theta,
    }
}

/// The estimate of a sketch so far, rounded to the nearest whole number; a half is rounded up.
pub fn estimate_so_far<A: Allocator>(sketch: &ThetaSketch<A>) -> u128
    ensures { result ≡ rounded (fraction_of (sketch_value sketch.now)) }
{
    let (over, under) = sketch.estimate_fraction();
    nearest(over, under)
}
