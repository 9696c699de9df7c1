//! The estimate of a total: a sum of what a sketch retains, times `MAX_THETA` over its theta.
ghost use Rattle.std.specs.Prelude.{◌≡◌, ◌<◌, ◌≤◌, ◌*◌, ◌^◌};
ghost use Rattle.core_laws.specs.declared.TheConstants.{MAX_THETA};
ghost use Rattle.estimates.specs.Fraction.{decimal_of, nearest};
ghost use Rattle.estimates.specs.declared.fraction.TheConstants.{MAX_PLACES};

use crate::fraction::Decimal;
use core_laws::MAX_THETA;

/// A sum times `MAX_THETA` over theta, rounded to the nearest whole number; a half is rounded up. Theta is from 1 to
/// `MAX_THETA`, and the sum below 2^64 times theta, as in every sketch.
pub fn nearest_total(sum: u128, theta: u64) -> u128
    requires low { 0 < theta }
    requires high { theta ≤ MAX_THETA }
    requires small { sum < 2 ^ 64 * theta }
    ensures { result ≡ nearest (sum * MAX_THETA) theta }
{
    let under = theta as u128;
    let greatest = MAX_THETA as u128;
    let rest = sum % under * greatest;
    sum / under * greatest + (2 * rest + under) / (2 * under)
}

/// A sum times `MAX_THETA` over theta as a decimal number with `places` decimals, from 0 to 19, rounded down. Theta is
/// from 1 to `MAX_THETA`, and the sum below 2^64 times theta, as in every sketch.
pub fn total_decimal(sum: u128, theta: u64, places: u32) -> Decimal
    requires low { 0 < theta }
    requires high { theta ≤ MAX_THETA }
    requires small { sum < 2 ^ 64 * theta }
    requires limited { places ≤ MAX_PLACES }
    ensures { result ≡ decimal_of (sum * MAX_THETA, theta) places }
{
    let under = theta as u128;
    let greatest = MAX_THETA as u128;
    let rest = sum % under * greatest;
    Decimal {
        whole: sum / under * greatest + rest / under,
        decimals: rest % under * 10u128.pow(places) / under,
        places,
    }
}
