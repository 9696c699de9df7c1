//! Estimates and bounds of a count, from the numbers of a sketch's state.
ghost use Rattle.std.specs.Prelude.{◌≡◌, ◌+◌, ◌*◌, ◌^◌, ◌<◌, option_map};
ghost use Rattle.estimates.specs.Bounds.{deviation_count};
ghost use Rattle.c_objects.specs.Bounds.{wide, is_state, valid_deviations};
ghost use Rattle.c_objects.specs.Totals.{joined_halves};

use estimates::Deviations;
use theta_sketches::MAX_THETA;

/// A number of 128 bits: `low + 2^64 * high`.
#[repr(C)]
#[derive(Clone, Copy)]
pub struct Wide {
    /// The number modulo 2^64.
    pub low: u64,
    /// The number divided by 2^64, rounded down.
    pub high: u64,
}

/// A number of 128 bits, in its two halves.
pub fn split(number: u128) -> Wide
    ensures { result ≡ wide number }
{
    Wide {
        low: (number % 18446744073709551616) as u64,
        high: (number / 18446744073709551616) as u64,
    }
}

/// The number of two halves.
pub fn joined(halves: &Wide) -> u128
    ensures value { result ≡ joined_halves halves.now.low halves.now.high }
    ensures below { result < 2 ^ 64 * (halves.now.high + 1) }
{
    halves.low as u128 + 18446744073709551616 * halves.high as u128
}

/// Whether some sketch may have this state: fewer than 2^32 retained hashes, and a theta from 1 to `MAX_THETA`.
pub fn is_state(retained: u64, theta: u64) -> bool
    ensures { result ≡ is_state retained theta }
{
    retained < 4294967296 && 0 < theta && theta <= MAX_THETA
}

/// One, two or three standard deviations, by their number; `None` for any other number.
pub fn deviations_of(number: u32) -> Option<Deviations>
    ensures { option_map deviation_count result ≡ valid_deviations number }
{
    match number {
        1 => Some(Deviations::One),
        2 => Some(Deviations::Two),
        3 => Some(Deviations::Three),
        _ => None,
    }
}
