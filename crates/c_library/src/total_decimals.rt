//! What totals of sums estimate.
ghost use Rattle.c_objects.specs.Quotients.{WritesNumber, WritesParts, WritesText, parts_of, rounded_of};
ghost use Rattle.c_objects.specs.Totals.{is_total, total_fraction};

use c_objects::bounds::Wide;
use c_objects::quotients::{put_parts, put_parts_text, put_wide, total_parts, total_rounded};

/// Writes the estimate of the total of all values, total * `MAX_THETA` / theta, rounded down to `places` decimals, as
/// `kcp_estimate_decimal` writes an estimate; theta is that of the sketch's state.
///
/// Refused with `INVALID_ARGUMENT` unless theta is from 1 to `MAX_THETA`, the total is below 2^64 * theta, as that of
/// every sketch is, and `places` is at most 19.
#[unsafe(no_mangle)]
pub extern "C" fn kcp_total_decimal(
    total: &Wide,
    theta: u64,
    places: u32,
    whole: &mut Wide,
    decimals: &mut u64,
) -> u32
    ensures { WritesParts
        (parts_of (is_total total.now.low total.now.high theta) (total_fraction total.now.low total.now.high theta)
        places)
        whole.old decimals.old result whole.new decimals.new }
{
    put_parts(total_parts(total, theta, places), whole, decimals)
}

/// Writes the estimate of the total of all values as text with `places` decimals, rounded down and without a final 0
/// byte: at most 59 bytes. Refused as `kcp_total_decimal` is.
#[unsafe(no_mangle)]
pub extern "C" fn kcp_total_text(
    total: &Wide,
    theta: u64,
    places: u32,
    text: &mut [u8],
    length: &mut u64,
) -> u32
    ensures { WritesText
        (parts_of (is_total total.now.low total.now.high theta) (total_fraction total.now.low total.now.high theta)
        places)
        places text.old length.old result text.new length.new }
{
    put_parts_text(total_parts(total, theta, places), places, text, length)
}

/// Writes the nearest whole number to the estimate of the total of all values; a half is rounded up. Refused with
/// `INVALID_ARGUMENT` unless theta is from 1 to `MAX_THETA` and the total below 2^64 * theta.
#[unsafe(no_mangle)]
pub extern "C" fn kcp_total_rounded(total: &Wide, theta: u64, out: &mut Wide) -> u32
    ensures { WritesNumber
        (rounded_of (is_total total.now.low total.now.high theta) (total_fraction total.now.low total.now.high theta))
        out.old result out.new }
{
    put_wide(total_rounded(total, theta), out)
}
