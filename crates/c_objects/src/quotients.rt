//! Fractions as decimal numbers and as whole ones, as they are written for C.
ghost use Rattle.std.specs.Prelude.{◌≡◌, ◌≤◌, IsSome};
ghost use Rattle.estimates.specs.declared.fraction.TheConstants.{MAX_PLACES};
ghost use Rattle.c_objects.specs.Bounds.{is_state, numerator};
ghost use Rattle.c_objects.specs.Quotients.{WritesNumber, WritesParts, WritesText, parts_of, rounded_of};
ghost use Rattle.c_objects.specs.Totals.{is_total, total_fraction};

use crate::bounds::{Wide, is_state, joined, split};
use crate::numerals::put_decimal;
use crate::status::{INVALID_ARGUMENT, OK};
use estimates::{MAX_PLACES, estimate_decimal, nearest, nearest_total, total_decimal};
use theta_sketches::MAX_THETA;

/// The estimate of a state with `places` decimals, rounded down: its whole part, and its decimals as one number below
/// 10^`places`. `None` if no sketch has such a state or there are more than 19 decimals.
pub fn estimate_parts(retained: u64, theta: u64, places: u32) -> Option<(u128, u64)>
    ensures parts { result ≡ parts_of (is_state retained theta) (numerator retained, theta) places }
    ensures limited { IsSome result → places ≤ MAX_PLACES }
{
    if !is_state(retained, theta) || MAX_PLACES < places {
        return None;
    }
    let estimate = estimate_decimal(
        (retained as u128 * MAX_THETA as u128, theta as u128),
        places,
    );
    let whole = estimate.whole();
    let decimals = estimate.decimals() as u64;
    Some((whole, decimals))
}

/// The estimate of the total of all values with `places` decimals, likewise. `None` if theta isn't from 1 to
/// `MAX_THETA`, the total isn't below 2^64 times theta (that of every sketch is), or there are more than 19 decimals.
pub fn total_parts(total: &Wide, theta: u64, places: u32) -> Option<(u128, u64)>
    ensures parts { result
        ≡ parts_of (is_total total.now.low total.now.high theta) (total_fraction total.now.low total.now.high theta)
        places }
    ensures limited { IsSome result → places ≤ MAX_PLACES }
{
    if theta <= total.high || MAX_THETA < theta || MAX_PLACES < places {
        return None;
    }
    let number = joined(total);
    let estimate = total_decimal(number, theta, places);
    let whole = estimate.whole();
    let decimals = estimate.decimals() as u64;
    Some((whole, decimals))
}

/// The nearest whole number to the estimate of a state; a half is rounded up. `None` if no sketch has such a state.
pub fn estimate_rounded(retained: u64, theta: u64) -> Option<u128>
    ensures { result ≡ rounded_of (is_state retained theta) (numerator retained, theta) }
{
    if !is_state(retained, theta) {
        return None;
    }
    let over = retained as u128 * MAX_THETA as u128;
    Some(nearest(over, theta as u128))
}

/// The nearest whole number to the estimate of the total of all values; a half is rounded up. `None` if theta isn't
/// from 1 to `MAX_THETA` or the total isn't below 2^64 times theta.
pub fn total_rounded(total: &Wide, theta: u64) -> Option<u128>
    ensures { result
        ≡ rounded_of (is_total total.now.low total.now.high theta)
        (total_fraction total.now.low total.now.high theta) }
{
    if theta <= total.high || MAX_THETA < theta {
        return None;
    }
    let number = joined(total);
    Some(nearest_total(number, theta))
}

/// Writes the parts of a decimal number. The status is `INVALID_ARGUMENT` if there are none; then nothing is written.
pub fn put_parts(parts: Option<(u128, u64)>, whole: &mut Wide, decimals: &mut u64) -> u32
    ensures { WritesParts parts whole.old decimals.old result whole.new decimals.new }
{
    match parts {
        Some((front, behind)) => {
            *whole = split(front);
            *decimals = behind;
            OK
        }
        None => INVALID_ARGUMENT,
    }
}

/// Puts a decimal number, as text, into a buffer. The status is `INVALID_ARGUMENT` if there is none; then nothing is
/// written.
pub fn put_parts_text(
    parts: Option<(u128, u64)>,
    places: u32,
    text: &mut [u8],
    length: &mut u64,
) -> u32
    requires limited { IsSome parts → places ≤ MAX_PLACES }
    ensures { WritesText parts places text.old length.old result text.new length.new }
{
    match parts {
        Some((front, behind)) => put_decimal(front, behind, places, text, length),
        None => INVALID_ARGUMENT,
    }
}

/// Writes a whole number. The status is `INVALID_ARGUMENT` if there is none; then nothing is written.
pub fn put_wide(number: Option<u128>, out: &mut Wide) -> u32
    ensures { WritesNumber number out.old result out.new }
{
    match number {
        Some(found) => {
            *out = split(found);
            OK
        }
        None => INVALID_ARGUMENT,
    }
}
