//! Tuple sketches whose summaries are sums of 64 bits.
ghost use Rattle.std.specs.Prelude.{◌≡◌, true, None, is_some, option_map};
ghost use Rattle.core_laws.specs.declared.TheConstants.{MAX_THETA};
ghost use Rattle.c_objects.specs.Bounds.{is_state, wide};
ghost use Rattle.c_objects.specs.Buffer.{WritesOf};
ghost use Rattle.c_handles.specs.Calls.{OnObject, Fills, FillsFrom, FillsFromTwo, FillsInOrder, WritesValue, WritesSome};
ghost use Rattle.c_objects.specs.CompactSums.{CopiesEntriesOf};
ghost use Rattle.c_objects.specs.Orders.{IsCompactFormOfSumsIn, IsDifferenceOfSumsSketches};
ghost use Rattle.c_objects.specs.Orders.{IsSumsSketchDifferenceRefusal, AreSumsSketchesOfSeed};
ghost use Rattle.c_objects.specs.Settings.{IsSettingsRefusal, IsNewRefusal, IsModeRefusal, valid_factor, valid_order};
ghost use Rattle.c_objects.specs.Status.{IsMemoryRefusal};
ghost use Rattle.c_objects.specs.Sums.{IsNewSums, IsNewSumsByMode, IsSameSums, AddsValue, AddsAtBytes, AddsAtNumber};
ghost use Rattle.c_objects.specs.Sums.{TrimsSums, ResetsSums, sums_state, sums_total, IsImageOfSums, IsCompactFormOfSums};
ghost use Rattle.tuple_sketches.specs.declared.numbers.SummaryMode.TheVariants.{Sum};

use c_handles::handles::{CompactSumsHandle, SumsHandle};
use c_handles::readers::SumsReader;
use c_objects::bounds::Wide;
use c_objects::settings::factor_of;
use c_objects::state::State;
use c_objects::status::INVALID_ARGUMENT;
use c_objects::sums::{
    add_at_bytes, add_at_hash, add_at_number, build, build_by_mode, put_entries_of,
};
use std::alloc::Global;
use tuple_sketches::{MAX_THETA, ResizeFactor, SummaryMode};

/// Makes an empty sketch, as `kcp_theta_new` does.
#[unsafe(no_mangle)]
pub extern "C" fn kcp_sums_new(alloc: Global, sums: &mut SumsHandle, lg_k: u32, seed: u64) -> u32
    ensures { Fills (IsNewSums Sum lg_k MAX_THETA seed) (IsSettingsRefusal lg_k seed) sums.old.value result sums.new.value }
{
    sums.owned().put(
        alloc,
        build(
            alloc,
            lg_k,
            ResizeFactor::X8,
            MAX_THETA,
            seed,
            SummaryMode::Sum,
        ),
    )
}

/// Makes a sketch with a resize factor and a starting theta, as `kcp_theta_new_with` does.
#[unsafe(no_mangle)]
pub extern "C" fn kcp_sums_new_with(
    alloc: Global,
    sums: &mut SumsHandle,
    lg_k: u32,
    seed: u64,
    resize_factor: u32,
    starting_theta: u64,
) -> u32
    ensures made { Fills (IsNewSums Sum lg_k starting_theta seed) (IsNewRefusal lg_k resize_factor starting_theta seed)
        sums.old.value result sums.new.value }
    ensures factor { result ≡ 0 → is_some (valid_factor resize_factor) ≡ true }
{
    match factor_of(resize_factor) {
        Some(factor) => sums.owned().put(
            alloc,
            build(alloc, lg_k, factor, starting_theta, seed, SummaryMode::Sum),
        ),
        None => INVALID_ARGUMENT,
    }
}

/// Makes a sketch of a mode, otherwise as `kcp_sums_new_with` does. Beside each hash it keeps the sum of its values for
/// `SUM`, as other sketches do, the least of them for `MIN`, and the greatest for `MAX`. Refused with
/// `INVALID_ARGUMENT` for another mode too.
#[unsafe(no_mangle)]
pub extern "C" fn kcp_sums_new_by_mode(
    alloc: Global,
    sums: &mut SumsHandle,
    lg_k: u32,
    seed: u64,
    resize_factor: u32,
    starting_theta: u64,
    mode: u32,
) -> u32
    ensures made { Fills (IsNewSumsByMode mode lg_k starting_theta seed)
        (IsModeRefusal mode lg_k resize_factor starting_theta seed) sums.old.value result sums.new.value }
    ensures factor { result ≡ 0 → is_some (valid_factor resize_factor) ≡ true }
{
    match factor_of(resize_factor) {
        Some(factor) => sums.owned().put(
            alloc,
            build_by_mode(alloc, lg_k, factor, starting_theta, seed, mode),
        ),
        None => INVALID_ARGUMENT,
    }
}

/// Copies a sketch, with its sums, its theta and settings, into another handle. Refused with `OUT_OF_MEMORY`.
#[unsafe(no_mangle)]
pub extern "C" fn kcp_sums_clone(alloc: Global, sums: &mut SumsReader, out: &mut SumsHandle) -> u32
    ensures { FillsFrom IsSameSums (λ _. IsMemoryRefusal) sums.old.value out.old.value result out.new.value }
{
    sums.reader().copy(alloc, out.owned())
}

/// Frees the sketch of a handle, if it has one.
#[unsafe(no_mangle)]
pub extern "C" fn kcp_sums_free(alloc: Global, sums: &mut SumsHandle)
    ensures { sums.new.value ≡ None }
{
    sums.owned().free(alloc);
}

/// Adds a value to the sum of a hash, which is 0 at first; or keeps the less or the greater of both, if that is the
/// sketch's mode. A hash that is 0 or at least theta is not retained, but the sketch is nonempty afterwards.
///
/// Refused with `POLICY` if a sum would be 2^64 or more, and with `OUT_OF_MEMORY`, only for a new hash below theta.
#[unsafe(no_mangle)]
pub extern "C" fn kcp_sums_add_hash(sums: &mut SumsHandle, hash: u64, value: u64) -> u32
    ensures { OnObject (AddsValue hash value) sums.old.value result sums.new.value }
{
    match sums.owned().get() {
        Some(object) => add_at_hash(object, hash, value),
        None => INVALID_ARGUMENT,
    }
}

/// Adds a value to the sum of a number, by its hash as in `kcp_theta_update_u64`. Refused as `kcp_sums_add_hash` is.
#[unsafe(no_mangle)]
pub extern "C" fn kcp_sums_add_u64(sums: &mut SumsHandle, number: u64, value: u64) -> u32
    ensures { OnObject (AddsAtNumber number value) sums.old.value result sums.new.value }
{
    match sums.owned().get() {
        Some(object) => add_at_number(object, number, value),
        None => INVALID_ARGUMENT,
    }
}

/// Adds a value to the sum of bytes, by their hash as in `kcp_theta_update_bytes`. Refused as `kcp_sums_add_hash` is.
#[unsafe(no_mangle)]
pub extern "C" fn kcp_sums_add_bytes(sums: &mut SumsHandle, bytes: &[u8], value: u64) -> u32
    ensures { OnObject (AddsAtBytes bytes.now value) sums.old.value result sums.new.value }
{
    match sums.owned().get() {
        Some(object) => add_at_bytes(object, bytes, value),
        None => INVALID_ARGUMENT,
    }
}

/// Cuts a sketch to its nominal entries, as `kcp_theta_trim` does.
#[unsafe(no_mangle)]
pub extern "C" fn kcp_sums_trim(sums: &mut SumsHandle) -> u32
    ensures { OnObject TrimsSums sums.old.value result sums.new.value }
{
    sums.owned().trim()
}

/// Makes a sketch empty again, as when it was new.
#[unsafe(no_mangle)]
pub extern "C" fn kcp_sums_reset(sums: &mut SumsHandle) -> u32
    ensures { OnObject ResetsSums sums.old.value result sums.new.value }
{
    sums.owned().reset()
}

/// Writes the sketch's state, as `kcp_theta_state` does.
#[unsafe(no_mangle)]
pub extern "C" fn kcp_sums_state(sums: &mut SumsReader, out: &mut State) -> u32
    ensures state { WritesValue (option_map sums_state sums.old.value) out.old result out.new }
    ensures usable { result ≡ 0 → is_state out.new.retained out.new.theta ≡ true }
{
    sums.reader().state(out)
}

/// Writes the image of the sketch's ordered compact form: after each hash the eight bytes of its sum, the lowest
/// first. Refused with `OUT_OF_MEMORY`.
#[unsafe(no_mangle)]
pub extern "C" fn kcp_sums_image(sums: &mut SumsReader, out: &mut [u8], length: &mut u64) -> u32
    ensures { WritesOf IsImageOfSums (λ _. IsMemoryRefusal) sums.old.value out.old length.old result out.new
        length.new }
{
    sums.reader().image(out, length)
}

/// Makes the sketch's ordered compact form, of the same value, untrimmed. Refused with `OUT_OF_MEMORY`.
#[unsafe(no_mangle)]
pub extern "C" fn kcp_sums_compact(
    alloc: Global,
    sums: &mut SumsReader,
    out: &mut CompactSumsHandle,
) -> u32
    ensures { FillsFrom IsCompactFormOfSums (λ _. IsMemoryRefusal) sums.old.value out.old.value result
        out.new.value }
{
    sums.reader().compact(alloc, true, out.owned())
}

/// Writes the total of a sketch, the sum of its sums, below 2^96. The estimate of the total of all values that were
/// added is this total * `MAX_THETA` / theta (`kc_total`, `kcp_total_decimal`, `kcp_total_rounded`,
/// `kcp_total_text`).
#[unsafe(no_mangle)]
pub extern "C" fn kcp_sums_total(sums: &mut SumsReader, out: &mut Wide) -> u32
    ensures { WritesValue (option_map (λ t. wide (sums_total t)) sums.old.value) out.old result out.new }
{
    sums.reader().total(out)
}

/// Writes the hashes of the sketch and their sums, each hash once in no particular order, as
/// `kcp_compact_sums_entries` does.
#[unsafe(no_mangle)]
pub extern "C" fn kcp_sums_entries(
    sums: &mut SumsReader,
    hashes: &mut [u64],
    values: &mut [u64],
    count: &mut u64,
) -> u32
    ensures { CopiesEntriesOf sums.old.value hashes.old values.old count.old result hashes.new values.new count.new }
{
    match sums.reader().get() {
        Some(object) => put_entries_of(object, hashes, values, count),
        None => INVALID_ARGUMENT,
    }
}

/// Makes the sketch's compact form, ordered or not, as `kcp_theta_compact_with` does.
#[unsafe(no_mangle)]
pub extern "C" fn kcp_sums_compact_with(
    alloc: Global,
    sums: &mut SumsReader,
    ordered: u32,
    out: &mut CompactSumsHandle,
) -> u32
    ensures { FillsInOrder IsCompactFormOfSumsIn (λ _. IsMemoryRefusal) (valid_order ordered) sums.old.value
        out.old.value result out.new.value }
{
    sums.reader().compact_in(alloc, ordered, out.owned())
}

/// Makes the difference of two sketches, as `kcp_sums_difference` does of compact ones.
#[unsafe(no_mangle)]
pub extern "C" fn kcp_sums_updatable_difference(
    alloc: Global,
    first: &mut SumsReader,
    second: &mut SumsReader,
    seed: u64,
    out: &mut CompactSumsHandle,
) -> u32
    ensures { FillsFromTwo (AreSumsSketchesOfSeed seed) (IsDifferenceOfSumsSketches true)
        (IsSumsSketchDifferenceRefusal seed) first.old.value second.old.value out.old.value result out.new.value }
{
    first
        .reader()
        .difference(alloc, second.reader(), seed, true, out.owned())
}

/// Writes how many bytes the slots of the sketch take, as `kcp_theta_estimated_size` does; a slot takes 24.
#[unsafe(no_mangle)]
pub extern "C" fn kcp_sums_estimated_size(sums: &mut SumsReader, bytes: &mut u64) -> u32
    ensures { WritesSome sums.old.value bytes.old result bytes.new }
{
    sums.reader().estimated_size(bytes)
}
