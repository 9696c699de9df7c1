//! Reports on a part of the values of a stream.
ghost use Rattle.std.specs.Prelude.{◌≡◌, ◌<◌, ◌≤◌, ◌^◌, ℕ, length};
ghost use Rattle.core_compact.specs.CompactState.{Compact};
ghost use Rattle.core_laws.specs.declared.TheConstants.{MAX_THETA};
ghost use Rattle.core_state.specs.Fraction.{compact_fraction};
ghost use Rattle.estimates.specs.Bounds.{deviation_count};
ghost use Rattle.keys_reports.specs.Reports.{report_of};

use crate::report::Report;
use core_laws::MAX_THETA;
use estimates::{Deviations, count_bounds, count_fraction, nearest};

/// The estimated number of values of which this many are retained below a theta, as a fraction: 0 over 1 for an empty
/// sketch.
fn part_fraction(is_empty: bool, retained: usize, theta: u64) -> (u128, u128)
    requires limited { retained < 2 ^ 32 }
    requires low { 0 < theta }
    requires high { theta ≤ MAX_THETA }
    ensures fraction { (s : Compact ℕ)
        → s.empty ≡ is_empty
        → s.theta ≡ theta
        → length s.entries ≡ retained
        → result ≡ compact_fraction s }
    ensures not_zero { 0 < result.1 }
    ensures small { result.0 < 2 ^ 96 }
    ensures bounded { result.1 < 2 ^ 64 }
{
    count_fraction(is_empty, retained, theta)
}

/// The report on a part of the values of a stream, such as those that occur twice: from the number of them that a
/// sketch retains, fewer than 2^32, and the sketch's theta, from 1 to `MAX_THETA`. Any sketch that retains this many
/// values below this theta has the same report.
pub fn report_of_part(is_empty: bool, retained: usize, theta: u64, deviations: Deviations) -> Report
    requires limited { retained < 2 ^ 32 }
    requires low { 0 < theta }
    requires high { theta ≤ MAX_THETA }
    ensures { (s : Compact ℕ)
        → s.empty ≡ is_empty
        → s.theta ≡ theta
        → length s.entries ≡ retained
        → result ≡ report_of (deviation_count deviations) s }
{
    let (over, under) = part_fraction(is_empty, retained, theta);
    Report {
        estimate: nearest(over, under),
        interval: count_bounds(retained, theta, deviations),
        exact: is_empty || theta == MAX_THETA,
        retained,
        theta,
    }
}
