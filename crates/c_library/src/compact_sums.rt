//! Compact tuple sketches whose summaries are sums of 64 bits.
ghost use Rattle.std.specs.Prelude.{◌≡◌, true, None, option_map, length};
ghost use Rattle.c_objects.specs.Bounds.{is_state, wide};
ghost use Rattle.c_objects.specs.Buffer.{WritesOf};
ghost use Rattle.c_objects.specs.Flaws.{FindsIf, IsSumsFinding};
ghost use Rattle.c_handles.specs.Calls.{Fills, FillsFrom, WritesValue, WritesSome};
ghost use Rattle.c_objects.specs.CompactSums.{IsSumsReadFrom, IsSumsReadRefusal, compact_sums_state};
ghost use Rattle.c_objects.specs.CompactSums.{IsWholeSums, IsWholeSumsRefusal};
ghost use Rattle.c_objects.specs.CompactSums.{IsCompactSumsImage, IsCopyOfSums, compact_total, CopiesEntries};
ghost use Rattle.c_objects.specs.Settings.{order_number};
ghost use Rattle.c_objects.specs.Status.{IsMemoryRefusal};

use c_handles::handles::CompactSumsHandle;
use c_handles::readers::CompactSumsReader;
use c_objects::bounds::Wide;
use c_objects::compact_sums::put_entries_of;
use c_objects::flaws::Finding;
use c_objects::state::State;
use c_objects::status::INVALID_ARGUMENT;
use std::alloc::Global;

/// Reads the sketch that the bytes begin with, under this seed, as `kcp_compact_read` does.
#[unsafe(no_mangle)]
pub extern "C" fn kcp_compact_sums_read(
    alloc: Global,
    sums: &mut CompactSumsHandle,
    image: &[u8],
    seed: u64,
) -> u32
    ensures { Fills (IsSumsReadFrom image.now seed) (IsSumsReadRefusal image.now seed) sums.old.value result
        sums.new.value }
{
    sums.owned().read(alloc, image, seed)
}

/// Reads the sketch that the bytes are, all of them, under this seed, as `kcp_compact_read_whole` does.
#[unsafe(no_mangle)]
pub extern "C" fn kcp_compact_sums_read_whole(
    alloc: Global,
    sums: &mut CompactSumsHandle,
    image: &[u8],
    seed: u64,
    found: &mut Finding,
) -> u32
    ensures read { Fills (IsWholeSums image.now seed) (IsWholeSumsRefusal image.now seed) sums.old.value result
        sums.new.value }
    ensures found { FindsIf (IsSumsFinding image.now seed) found.old result found.new }
{
    sums.owned().read_whole(alloc, image, seed, found)
}

/// Frees the sketch of a handle, if it has one.
#[unsafe(no_mangle)]
pub extern "C" fn kcp_compact_sums_free(alloc: Global, sums: &mut CompactSumsHandle)
    ensures { sums.new.value ≡ None }
{
    sums.owned().free(alloc);
}

/// Copies a sketch into another handle. Refused with `OUT_OF_MEMORY`.
#[unsafe(no_mangle)]
pub extern "C" fn kcp_compact_sums_clone(
    alloc: Global,
    sums: &mut CompactSumsReader,
    out: &mut CompactSumsHandle,
) -> u32
    ensures { FillsFrom IsCopyOfSums (λ _. IsMemoryRefusal) sums.old.value out.old.value result out.new.value }
{
    sums.reader().copy(alloc, out.owned())
}

/// Writes the sketch's state, as `kcp_theta_state` does.
#[unsafe(no_mangle)]
pub extern "C" fn kcp_compact_sums_state(sums: &mut CompactSumsReader, out: &mut State) -> u32
    ensures state { WritesValue (option_map compact_sums_state sums.old.value) out.old result out.new }
    ensures usable { result ≡ 0 → is_state out.new.retained out.new.theta ≡ true }
{
    sums.reader().state(out)
}

/// Writes the sketch's image, as `kcp_sums_image` does.
#[unsafe(no_mangle)]
pub extern "C" fn kcp_compact_sums_image(
    sums: &mut CompactSumsReader,
    out: &mut [u8],
    length: &mut u64,
) -> u32
    ensures { WritesOf IsCompactSumsImage (λ _. IsMemoryRefusal) sums.old.value out.old length.old result
        out.new length.new }
{
    sums.reader().image(out, length)
}

/// Writes the hashes of the sketch and their sums, in the order of the image, to two arrays of `room` numbers each,
/// and their number to `*count`.
///
/// If room is less, the status is `TOO_SMALL`, the arrays are as before, and `*count` is the room that is needed.
#[unsafe(no_mangle)]
pub extern "C" fn kcp_compact_sums_entries(
    sums: &mut CompactSumsReader,
    hashes: &mut [u64],
    values: &mut [u64],
    count: &mut u64,
) -> u32
    ensures { CopiesEntries sums.old.value hashes.old values.old count.old result hashes.new values.new
        count.new }
{
    match sums.reader().get() {
        Some(object) => put_entries_of(object, hashes, values, count),
        None => INVALID_ARGUMENT,
    }
}

/// Writes the total of a sketch, as `kcp_sums_total` does.
#[unsafe(no_mangle)]
pub extern "C" fn kcp_compact_sums_total(sums: &mut CompactSumsReader, out: &mut Wide) -> u32
    ensures { WritesValue (option_map (λ s. wide (compact_total s)) sums.old.value) out.old result out.new }
{
    sums.reader().total(out)
}

/// Writes the hash of the sketch's seed, of 16 bits, as `kcp_compact_seed_hash` does.
#[unsafe(no_mangle)]
pub extern "C" fn kcp_compact_sums_seed_hash(sums: &mut CompactSumsReader, out: &mut u32) -> u32
    ensures { WritesValue (option_map (λ s. s.sketch.seed_hash) sums.old.value) out.old result out.new }
{
    sums.reader().seed_hash(out)
}

/// Writes 1 if the sketch is ordered, and otherwise 0, as `kcp_compact_is_ordered` does.
#[unsafe(no_mangle)]
pub extern "C" fn kcp_compact_sums_is_ordered(sums: &mut CompactSumsReader, out: &mut u32) -> u32
    ensures { WritesValue (option_map (λ s. order_number s.sketch.ordered) sums.old.value) out.old result out.new }
{
    sums.reader().is_ordered(out)
}

/// Writes how many bytes the sketch's hashes and sums take, 16 for each pair.
#[unsafe(no_mangle)]
pub extern "C" fn kcp_compact_sums_estimated_size(
    sums: &mut CompactSumsReader,
    bytes: &mut u64,
) -> u32
    ensures { WritesSome sums.old.value bytes.old result bytes.new }
{
    sums.reader().estimated_size(bytes)
}
