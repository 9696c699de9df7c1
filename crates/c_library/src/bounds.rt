//! Estimates and bounds of a count, from the numbers of a sketch's state.
ghost use Rattle.std.specs.Prelude.{◌≡◌};
ghost use Rattle.c_objects.specs.Bounds.{wide, is_state, numerator, WritesBounds};
ghost use Rattle.c_objects.specs.Quotients.{WritesNumber, WritesParts, WritesText, parts_of, rounded_of};

use c_objects::bounds::{Wide, deviations_of, is_state, split};
use c_objects::quotients::{estimate_parts, estimate_rounded, put_parts, put_parts_text, put_wide};
use c_objects::state::State;
use c_objects::status::{INVALID_ARGUMENT, OK};
use estimates::count_bounds;
use theta_sketches::MAX_THETA;

/// Writes the numerator of the estimate of a state, the fraction retained * `MAX_THETA` / theta; its denominator is
/// theta.
#[unsafe(no_mangle)]
pub extern "C" fn kcp_estimate_numerator(retained: u64, out: &mut Wide)
    ensures { out.new ≡ wide (numerator retained) }
{
    *out = split(retained as u128 * MAX_THETA as u128);
}

/// Writes the estimate of a state rounded down to `places` decimals, from 0 to 19: its whole part, and the decimals
/// as one number below 10^`places`.
///
/// Refused with `INVALID_ARGUMENT` unless `retained` is below 2^32, theta is from 1 to `MAX_THETA` and `places` is at
/// most 19. Other states that no sketch has are not refused.
#[unsafe(no_mangle)]
pub extern "C" fn kcp_estimate_decimal(
    retained: u64,
    theta: u64,
    places: u32,
    whole: &mut Wide,
    decimals: &mut u64,
) -> u32
    ensures { WritesParts (parts_of (is_state retained theta) (numerator retained, theta) places)
        whole.old decimals.old result whole.new decimals.new }
{
    put_parts(estimate_parts(retained, theta, places), whole, decimals)
}

/// Writes the estimate of a state as text with `places` decimals, rounded down and without a final 0 byte: at most 49
/// bytes. Refused as `kcp_estimate_decimal` is.
#[unsafe(no_mangle)]
pub extern "C" fn kcp_estimate_text(
    state: &State,
    places: u32,
    text: &mut [u8],
    length: &mut u64,
) -> u32
    ensures { WritesText
        (parts_of (is_state state.now.retained state.now.theta) (numerator state.now.retained, state.now.theta)
        places)
        places text.old length.old result text.new length.new }
{
    let parts = estimate_parts(state.retained, state.theta, places);
    put_parts_text(parts, places, text, length)
}

/// Writes the nearest whole number to the estimate of a state; a half is rounded up. Refused with `INVALID_ARGUMENT`
/// unless `retained` is below 2^32 and theta from 1 to `MAX_THETA`.
#[unsafe(no_mangle)]
pub extern "C" fn kcp_estimate_rounded(retained: u64, theta: u64, out: &mut Wide) -> u32
    ensures { WritesNumber (rounded_of (is_state retained theta) (numerator retained, theta)) out.old result out.new }
{
    put_wide(estimate_rounded(retained, theta), out)
}

/// Writes bounds of the number of distinct values by 1, 2 or 3 standard deviations: the ends of the Wilson score
/// interval, rounded outwards. If hashes are random, the number is within them in about 68, 95 or 99.7 of 100
/// sketches; that isn't proved.
///
/// Refused with `INVALID_ARGUMENT` unless `retained` is below 2^32, theta is from 1 to `MAX_THETA`, and `deviations` is
/// 1, 2 or 3.
#[unsafe(no_mangle)]
pub extern "C" fn kcp_count_bounds(
    retained: u64,
    theta: u64,
    deviations: u32,
    lower: &mut Wide,
    upper: &mut Wide,
) -> u32
    ensures { WritesBounds retained theta deviations lower.old upper.old result lower.new upper.new }
{
    if !is_state(retained, theta) {
        return INVALID_ARGUMENT;
    }
    let Some(deviations) = deviations_of(deviations) else {
        return INVALID_ARGUMENT;
    };
    let bounds = count_bounds(retained as usize, theta, deviations);
    *lower = split(bounds.lower);
    *upper = split(bounds.upper);
    OK
}
