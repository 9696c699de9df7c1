//! How many keys have their sum in each bin: 1, 2, 3 to 4, 5 to 8, and so on.
ghost use Rattle.std.specs.Prelude.{◌≡◌, ◌<◌, ◌^◌, length};
ghost use Rattle.core_compact.specs.CompactState.{IsCompact};
ghost use Rattle.core_slots.specs.Entry.{tuple_key};
ghost use Rattle.keys_sums.specs.Bins.{least_of, greatest_of, is_in, greatest, sums_in, keys_in};

use std::alloc::Allocator;
use tuple_sketches::CompactTupleSketch;

/// How many bins have all sums of 64 bits but 0, each in exactly one of them (`laws::numbers_are_in_one_bin`).
pub const BINS: u32 = 65;

/// The least number of a bin, which is below `BINS`: 1 of bin 0, and 2^(`bin` - 1) + 1 of the others.
pub fn least_of(bin: u32) -> u128
    requires { bin < 65 }
    ensures { result ≡ least_of bin }
{
    if bin == 0 {
        1
    } else {
        (1u128 << (bin - 1)) + 1
    }
}

/// The greatest number of a bin, which is below `BINS`: 2^`bin`.
pub fn greatest_of(bin: u32) -> u128
    requires { bin < 65 }
    ensures { result ≡ greatest_of bin }
{
    1u128 << bin
}

/// Whether a bin has a number.
fn is_in(bin: u32, number: u64) -> bool
    requires { bin < 65 }
    ensures { result ≡ is_in bin number }
{
    least_of(bin) <= number as u128 && number as u128 <= greatest_of(bin)
}

/// The greatest sum that a sketch retains, or 0 if it retains none.
pub fn greatest_sum<A: Allocator>(sketch: &CompactTupleSketch<u64, A>) -> u64
    ensures { result ≡ greatest (sums_in sketch.now) }
{
    let mut most = 0u64;
    for entry in sketch.iter() {
        most = most.max(*entry.summary());
    }
    most
}

/// How many keys of a sketch have their sum in a bin, which is below `BINS`: fewer than 2^32.
pub fn count_in<A: Allocator>(sketch: &CompactTupleSketch<u64, A>, bin: u32) -> usize
    requires { bin < 65 }
    ensures counted { result ≡ length (keys_in bin sketch.now).entries }
    ensures limited { result < 2 ^ 32 }
    ensures sound { IsCompact tuple_key sketch.now }
{
    let mut count = 0usize;
    for entry in sketch.iter() {
        if is_in(bin, *entry.summary()) {
            count = count.saturating_add(1);
        }
    }
    count
}
