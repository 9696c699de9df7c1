//! Settings of new objects.
ghost use Rattle.std.specs.Prelude.{◌≡◌, ◌≤◌, ◌<◌, ◌^◌, option_map};
ghost use Rattle.core_laws.specs.declared.TheConstants.{MAX_LG_K};
ghost use Rattle.core_table.specs.ResizeFactor.{lg_of};
ghost use Rattle.c_objects.specs.Settings.{valid_factor, valid_order, valid_mode, WritesSeedHash};

use crate::status::{INVALID_ARGUMENT, OK};
use core_laws::MAX_LG_K;
use sketch_base::{ErrorKind, compute_seed_hash};
use theta_sketches::ResizeFactor;
use tuple_sketches::SummaryMode;

/// The resize factor of a number, 1, 2, 4 or 8; `None` for any other number.
pub fn factor_of(number: u32) -> Option<ResizeFactor>
    ensures { option_map (λ f. 2 ^ lg_of f) result ≡ valid_factor number }
{
    match number {
        1 => Some(ResizeFactor::X1),
        2 => Some(ResizeFactor::X2),
        4 => Some(ResizeFactor::X4),
        8 => Some(ResizeFactor::X8),
        _ => None,
    }
}

/// A binary logarithm of nominal entries as a byte. One that no union has, above `MAX_LG_K`, becomes another such.
pub(crate) fn bounded_lg_k(lg_k: u32) -> u8
    ensures valid { lg_k ≤ MAX_LG_K → result ≡ lg_k }
    ensures great { MAX_LG_K < lg_k → MAX_LG_K < result }
{
    if lg_k > MAX_LG_K as u32 {
        MAX_LG_K + 1
    } else {
        lg_k as u8
    }
}

/// Whether a number asks for an ordered sketch: 0 asks for none, 1 for one; `None` for any other number.
pub fn order_of(number: u32) -> Option<bool>
    ensures { result ≡ valid_order number }
{
    match number {
        0 => Some(false),
        1 => Some(true),
        _ => None,
    }
}

/// The sum of the values of a key.
pub const SUM: u32 = 0;

/// The least value of a key.
pub const MIN: u32 = 1;

/// The greatest value of a key.
pub const MAX: u32 = 2;

/// The mode of a number, which is `SUM`, `MIN` or `MAX`; `None` for any other number.
pub fn mode_of(number: u32) -> Option<SummaryMode>
    ensures { result ≡ valid_mode number }
{
    if number == SUM {
        Some(SummaryMode::Sum)
    } else if number == MIN {
        Some(SummaryMode::Min)
    } else if number == MAX {
        Some(SummaryMode::Max)
    } else {
        None
    }
}

/// Writes the hash of a seed, from 1 to 65535. The status is `OK`, or `INVALID_ARGUMENT` if that hash is 0.
pub fn put_seed_hash(seed: u64, out: &mut u32) -> u32
    ensures { WritesSeedHash seed out.old result out.new }
{
    match compute_seed_hash(seed, ErrorKind::InvalidArgument) {
        Ok(hash) => {
            *out = hash as u32;
            OK
        }
        Err(_) => INVALID_ARGUMENT,
    }
}
