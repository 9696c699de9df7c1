//! Theta sketches that take updates.
ghost use Rattle.std.specs.Prelude.{◌≡◌, true, None, Some, is_some, option_map};
ghost use Rattle.core_laws.specs.declared.TheConstants.{MAX_THETA};
ghost use Rattle.c_objects.specs.Bounds.{is_state};
ghost use Rattle.c_objects.specs.Buffer.{WritesOf};
ghost use Rattle.c_handles.specs.Calls.{OnObject, Fills, FillsFrom, FillsFromTwo, FillsInOrder, WritesValue, WritesSome};
ghost use Rattle.c_objects.specs.Orders.{IsCompactFormIn, IsDifferenceOfSketches, IsSketchDifferenceRefusal};
ghost use Rattle.c_objects.specs.Orders.{AreSketchesOfSeed};
ghost use Rattle.c_objects.specs.Settings.{IsSettingsRefusal, IsNewRefusal, valid_factor, valid_order};
ghost use Rattle.c_objects.specs.Status.{IsMemoryRefusal};
ghost use Rattle.c_objects.specs.Thetas.{IsNewSketch, IsSameSketch, UpdatesHash, UpdatesNumber, UpdatesBytes};
ghost use Rattle.c_objects.specs.Thetas.{InsertsHash};
ghost use Rattle.c_objects.specs.Thetas.{CopiesHashesOf, UpdatesHashes, Trims, Resets, theta_state, IsImageOf, IsCompactForm};

use c_handles::handles::{CompactHandle, ThetaHandle};
use c_handles::readers::ThetaReader;
use c_objects::settings::factor_of;
use c_objects::state::State;
use c_objects::status::INVALID_ARGUMENT;
use c_objects::theta::{
    build, insert_hash, put_hashes_of, update_bytes, update_hash, update_hashes, update_number,
};
use std::alloc::Global;
use theta_sketches::{MAX_THETA, ResizeFactor};

/// Makes an empty sketch of 2^`lg_k` nominal entries.
///
/// Refused with `INVALID_ARGUMENT` if `lg_k` isn't from 4 to 26 or the hash of the seed is 0, and with
/// `OUT_OF_MEMORY`.
#[unsafe(no_mangle)]
pub extern "C" fn kcp_theta_new(
    alloc: Global,
    sketch: &mut ThetaHandle,
    lg_k: u32,
    seed: u64,
) -> u32
    ensures { Fills (IsNewSketch lg_k MAX_THETA seed) (IsSettingsRefusal lg_k seed) sketch.old.value result
        sketch.new.value }
{
    sketch.owned().put(alloc, build(alloc, lg_k, ResizeFactor::X8, MAX_THETA, seed))
}

/// Makes a sketch whose slots grow by a resize factor, 1, 2, 4 or 8 (`kcp_theta_new` takes 8), and that begins at a
/// theta from 1 to `MAX_THETA`, also after a reset. With the factor 1 it has all of its slots from the start. No
/// value depends on the factor.
///
/// Refused as `kcp_theta_new` is, and with `INVALID_ARGUMENT` if the factor or the theta is out of range.
#[unsafe(no_mangle)]
pub extern "C" fn kcp_theta_new_with(
    alloc: Global,
    sketch: &mut ThetaHandle,
    lg_k: u32,
    seed: u64,
    resize_factor: u32,
    starting_theta: u64,
) -> u32
    ensures made { Fills (IsNewSketch lg_k starting_theta seed) (IsNewRefusal lg_k resize_factor starting_theta seed)
        sketch.old.value result sketch.new.value }
    ensures factor { result ≡ 0 → is_some (valid_factor resize_factor) ≡ true }
{
    match factor_of(resize_factor) {
        Some(factor) => sketch
            .owned()
            .put(alloc, build(alloc, lg_k, factor, starting_theta, seed)),
        None => INVALID_ARGUMENT,
    }
}

/// Copies a sketch, with its theta and settings, into another handle. Refused with `OUT_OF_MEMORY`.
#[unsafe(no_mangle)]
pub extern "C" fn kcp_theta_clone(
    alloc: Global,
    sketch: &mut ThetaReader,
    out: &mut ThetaHandle,
) -> u32
    ensures { FillsFrom IsSameSketch (λ _. IsMemoryRefusal) sketch.old.value out.old.value result out.new.value }
{
    sketch.reader().copy(alloc, out.owned())
}

/// Frees the sketch of a handle, if it has one.
#[unsafe(no_mangle)]
pub extern "C" fn kcp_theta_free(alloc: Global, sketch: &mut ThetaHandle)
    ensures { sketch.new.value ≡ None }
{
    sketch.owned().free(alloc);
}

/// Updates a sketch with a hash of 63 bits. A hash that is 0 or at least theta is not retained, but the sketch is
/// nonempty afterwards.
///
/// Refused with `OUT_OF_MEMORY`, only for a new hash below theta.
#[unsafe(no_mangle)]
pub extern "C" fn kcp_theta_update_hash(sketch: &mut ThetaHandle, hash: u64) -> u32
    ensures { OnObject (UpdatesHash hash) sketch.old.value result sketch.new.value }
{
    match sketch.owned().get() {
        Some(theta) => update_hash(theta, hash),
        None => INVALID_ARGUMENT,
    }
}

/// Updates a sketch with a hash, as `kcp_theta_update_hash` does, and writes the state after it, as
/// `kcp_theta_state` does. If theta is as before the call, the hash was new exactly if one more is retained. Refused
/// as `kcp_theta_update_hash` is.
#[unsafe(no_mangle)]
pub extern "C" fn kcp_theta_insert_hash(sketch: &mut ThetaHandle, hash: u64, out: &mut State) -> u32
    ensures inserts { OnObject (InsertsHash hash out.old out.new) sketch.old.value result sketch.new.value }
    ensures none { sketch.old.value ≡ None → out.new ≡ out.old }
    ensures usable { result ≡ 0 → is_state out.new.retained out.new.theta ≡ true }
{
    match sketch.owned().get() {
        Some(theta) => insert_hash(theta, hash, out),
        None => INVALID_ARGUMENT,
    }
}

/// Updates a sketch with a number, by the hash of its eight bytes, the lowest first: the hash of the other
/// implementations. Refused as `kcp_theta_update_hash` is.
#[unsafe(no_mangle)]
pub extern "C" fn kcp_theta_update_u64(sketch: &mut ThetaHandle, number: u64) -> u32
    ensures { OnObject (UpdatesNumber number) sketch.old.value result sketch.new.value }
{
    match sketch.owned().get() {
        Some(theta) => update_number(theta, number),
        None => INVALID_ARGUMENT,
    }
}

/// Updates a sketch with bytes, by their hash: the hash of the other implementations. A string of no bytes is a value
/// too. Refused as `kcp_theta_update_hash` is.
#[unsafe(no_mangle)]
pub extern "C" fn kcp_theta_update_bytes(sketch: &mut ThetaHandle, bytes: &[u8]) -> u32
    ensures { OnObject (UpdatesBytes bytes.now) sketch.old.value result sketch.new.value }
{
    match sketch.owned().get() {
        Some(theta) => update_bytes(theta, bytes),
        None => INVALID_ARGUMENT,
    }
}

/// Updates a sketch with many hashes in their order, each as `kcp_theta_update_hash` does; a few hundred per call are
/// fast. Without hashes nothing changes.
///
/// Refused with `OUT_OF_MEMORY` at a new hash below theta; then exactly the hashes before it have been inserted, and
/// the same call may be repeated.
#[unsafe(no_mangle)]
pub extern "C" fn kcp_theta_update_hashes(sketch: &mut ThetaHandle, hashes: &[u64]) -> u32
    ensures { OnObject (UpdatesHashes hashes.now) sketch.old.value result sketch.new.value }
{
    match sketch.owned().get() {
        Some(theta) => update_hashes(theta, hashes),
        None => INVALID_ARGUMENT,
    }
}

/// If the sketch retains more than its k = 2^`lg_k` nominal entries, lowers theta to the (k+1)th smallest hash and
/// keeps the k hashes below it. Refused with `OUT_OF_MEMORY`, only if it retains more.
#[unsafe(no_mangle)]
pub extern "C" fn kcp_theta_trim(sketch: &mut ThetaHandle) -> u32
    ensures { OnObject Trims sketch.old.value result sketch.new.value }
{
    sketch.owned().trim()
}

/// Makes a sketch empty again, as when it was new.
#[unsafe(no_mangle)]
pub extern "C" fn kcp_theta_reset(sketch: &mut ThetaHandle) -> u32
    ensures { OnObject Resets sketch.old.value result sketch.new.value }
{
    sketch.owned().reset()
}

/// Writes the sketch's state: how many hashes it retains, its theta, and whether it is empty.
#[unsafe(no_mangle)]
pub extern "C" fn kcp_theta_state(sketch: &mut ThetaReader, out: &mut State) -> u32
    ensures state { WritesValue (option_map theta_state sketch.old.value) out.old result out.new }
    ensures usable { result ≡ 0 → is_state out.new.retained out.new.theta ≡ true }
{
    sketch.reader().state(out)
}

/// Writes the image of the sketch's ordered compact form, in the DataSketches format. Refused with `OUT_OF_MEMORY`.
#[unsafe(no_mangle)]
pub extern "C" fn kcp_theta_image(sketch: &mut ThetaReader, out: &mut [u8], length: &mut u64) -> u32
    ensures { WritesOf IsImageOf (λ _. IsMemoryRefusal) sketch.old.value out.old length.old result out.new
        length.new }
{
    sketch.reader().image(out, length)
}

/// Makes the sketch's ordered compact form, of the same value, untrimmed. Refused with `OUT_OF_MEMORY`.
#[unsafe(no_mangle)]
pub extern "C" fn kcp_theta_compact(
    alloc: Global,
    sketch: &mut ThetaReader,
    out: &mut CompactHandle,
) -> u32
    ensures { FillsFrom IsCompactForm (λ _. IsMemoryRefusal) sketch.old.value out.old.value result out.new.value }
{
    sketch.reader().compact(alloc, true, out.owned())
}

/// Writes the sketch's hashes, each once in no particular order, to an array of `room` numbers, and their number to
/// `*count`.
///
/// If room is less, the status is `TOO_SMALL`, the array is as before, and `*count` is the room that is needed.
#[unsafe(no_mangle)]
pub extern "C" fn kcp_theta_hashes(
    sketch: &mut ThetaReader,
    hashes: &mut [u64],
    count: &mut u64,
) -> u32
    ensures { CopiesHashesOf sketch.old.value hashes.old count.old result hashes.new count.new }
{
    match sketch.reader().get() {
        Some(theta) => put_hashes_of(theta, hashes, count),
        None => INVALID_ARGUMENT,
    }
}

/// Makes the sketch's compact form, as `kcp_theta_compact` does. If `ordered` is 1, its hashes ascend; if it is 0, they
/// are in any order, which is faster, and it is ordered only if it is empty or has one hash at the greatest theta.
///
/// Refused with `INVALID_ARGUMENT` if `ordered` is neither 0 nor 1, and with `OUT_OF_MEMORY`.
#[unsafe(no_mangle)]
pub extern "C" fn kcp_theta_compact_with(
    alloc: Global,
    sketch: &mut ThetaReader,
    ordered: u32,
    out: &mut CompactHandle,
) -> u32
    ensures { FillsInOrder IsCompactFormIn (λ _. IsMemoryRefusal) (valid_order ordered) sketch.old.value
        out.old.value result out.new.value }
{
    sketch.reader().compact_in(alloc, ordered, out.owned())
}

/// Makes the difference of two sketches, as `kcp_difference` does of compact ones.
#[unsafe(no_mangle)]
pub extern "C" fn kcp_theta_difference(
    alloc: Global,
    first: &mut ThetaReader,
    second: &mut ThetaReader,
    seed: u64,
    out: &mut CompactHandle,
) -> u32
    ensures { FillsFromTwo (AreSketchesOfSeed seed) (IsDifferenceOfSketches true) (IsSketchDifferenceRefusal seed)
        first.old.value second.old.value out.old.value result out.new.value }
{
    first
        .reader()
        .difference(alloc, second.reader(), seed, true, out.owned())
}

/// Writes how many bytes the slots of the sketch take, 8 for each of 32 to 2^(lg_k + 1) slots, free ones included.
#[unsafe(no_mangle)]
pub extern "C" fn kcp_theta_estimated_size(sketch: &mut ThetaReader, bytes: &mut u64) -> u32
    ensures { WritesSome sketch.old.value bytes.old result bytes.new }
{
    sketch.reader().estimated_size(bytes)
}
