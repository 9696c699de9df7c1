//! Unions of theta sketches.
ghost use Rattle.std.specs.Prelude.{◌≡◌, true, None, is_some};
ghost use Rattle.core_laws.specs.declared.TheConstants.{MAX_THETA};
ghost use Rattle.c_objects.specs.Buffer.{WritesOf};
ghost use Rattle.c_handles.specs.Calls.{OnObject, OnObjectWith, Fills, FillsFrom, FillsInOrder, WritesSome};
ghost use Rattle.c_objects.specs.Orders.{IsUnionResultIn};
ghost use Rattle.c_objects.specs.Settings.{IsSettingsRefusal, IsNewRefusal, valid_factor, valid_order};
ghost use Rattle.c_objects.specs.Thetas.{OfCompact, OfImage};
ghost use Rattle.c_objects.specs.Union.{IsNewUnion, AddsShown, AddsUpdatable, IsUnionResult, IsUnionImage};
ghost use Rattle.c_objects.specs.Union.{IsResultRefusal, LowersUnion, ResetsUnion};

use c_handles::handles::{CompactHandle, UnionHandle};
use c_handles::readers::{CompactReader, ThetaReader, UnionReader};
use c_objects::settings::factor_of;
use c_objects::status::INVALID_ARGUMENT;
use c_objects::union::{build, lower};
use std::alloc::Global;
use theta_sketches::{MAX_THETA, ResizeFactor};

/// Makes a union of 2^`lg_k` nominal entries. Its value has the hashes of all its sketches below their least theta;
/// if these are more than k = 2^`lg_k`, the k least, and its theta is the (k+1)th.
///
/// Refused as `kcp_theta_new` is.
#[unsafe(no_mangle)]
pub extern "C" fn kcp_union_new(alloc: Global, union: &mut UnionHandle, lg_k: u32, seed: u64) -> u32
    ensures { Fills (IsNewUnion lg_k MAX_THETA seed) (IsSettingsRefusal lg_k seed) union.old.value result
        union.new.value }
{
    union.owned().put(alloc, build(alloc, lg_k, ResizeFactor::X8, MAX_THETA, seed))
}

/// Makes a union with a resize factor and a starting theta, as `kcp_theta_new_with` makes a sketch.
#[unsafe(no_mangle)]
pub extern "C" fn kcp_union_new_with(
    alloc: Global,
    union: &mut UnionHandle,
    lg_k: u32,
    seed: u64,
    resize_factor: u32,
    starting_theta: u64,
) -> u32
    ensures made { Fills (IsNewUnion lg_k starting_theta seed) (IsNewRefusal lg_k resize_factor starting_theta seed)
        union.old.value result union.new.value }
    ensures factor { result ≡ 0 → is_some (valid_factor resize_factor) ≡ true }
{
    match factor_of(resize_factor) {
        Some(factor) => union
            .owned()
            .put(alloc, build(alloc, lg_k, factor, starting_theta, seed)),
        None => INVALID_ARGUMENT,
    }
}

/// Frees the union of a handle, if it has one.
#[unsafe(no_mangle)]
pub extern "C" fn kcp_union_free(alloc: Global, union: &mut UnionHandle)
    ensures { union.new.value ≡ None }
{
    union.owned().free(alloc);
}

/// Merges a sketch that takes updates into the union. An empty sketch changes nothing.
///
/// Refused with `INVALID_ARGUMENT` for a sketch of another seed, and with `FAILED` if the union has failed, whatever
/// the sketch; then nothing has changed. Refused with `OUT_OF_MEMORY`; then the union has failed until it is reset.
#[unsafe(no_mangle)]
pub extern "C" fn kcp_union_add(union: &mut UnionHandle, sketch: &mut ThetaReader) -> u32
    ensures { OnObjectWith AddsUpdatable sketch.old.value union.old.value result union.new.value }
{
    union.owned().add(sketch.reader())
}

/// Merges a compact sketch into the union, as `kcp_union_add` does.
#[unsafe(no_mangle)]
pub extern "C" fn kcp_union_add_compact(union: &mut UnionHandle, sketch: &mut CompactReader) -> u32
    ensures { OnObjectWith (OfCompact AddsShown) sketch.old.value union.old.value result union.new.value }
{
    union.owned().add(sketch.reader())
}

/// Merges the sketch that the bytes begin with, read under the union's seed, as `kcp_union_add` does.
///
/// Refused with `INVALID_DATA` if the bytes begin with no sketch of this seed, also by a union that has failed, and
/// otherwise as `kcp_union_add` is; but if memory runs out while the image is read, nothing has changed.
#[unsafe(no_mangle)]
pub extern "C" fn kcp_union_add_image(alloc: Global, union: &mut UnionHandle, image: &[u8]) -> u32
    ensures { OnObject (OfImage AddsShown (λ u. u.seed) image.now) union.old.value result union.new.value }
{
    union.owned().add_image(alloc, image)
}

/// Makes the union's value as an ordered compact sketch. Refused with `FAILED` if the union has failed, and with
/// `OUT_OF_MEMORY`.
#[unsafe(no_mangle)]
pub extern "C" fn kcp_union_result(
    alloc: Global,
    union: &mut UnionReader,
    out: &mut CompactHandle,
) -> u32
    ensures { FillsFrom IsUnionResult IsResultRefusal union.old.value out.old.value result out.new.value }
{
    union.reader().compact(alloc, true, out.owned())
}

/// Writes the image of that sketch, refused as `kcp_union_result` is.
#[unsafe(no_mangle)]
pub extern "C" fn kcp_union_image(union: &mut UnionReader, out: &mut [u8], length: &mut u64) -> u32
    ensures { WritesOf IsUnionImage IsResultRefusal union.old.value out.old length.old result out.new length.new }
{
    union.reader().image(out, length)
}

/// Makes the union empty again, as when it was new, and ends a failure.
#[unsafe(no_mangle)]
pub extern "C" fn kcp_union_reset(union: &mut UnionHandle) -> u32
    ensures { OnObject ResetsUnion union.old.value result union.new.value }
{
    union.owned().reset()
}

/// Lowers the union to 2^`lg_k` nominal entries, `lg_k` from 4 to its own: its value is cut to those, and later values
/// have no more, also after a reset. With its own `lg_k` nothing changes.
///
/// Refused with `FAILED` if the union has failed, else with `INVALID_ARGUMENT` if `lg_k` is out of range, and with
/// `OUT_OF_MEMORY`.
#[unsafe(no_mangle)]
pub extern "C" fn kcp_union_lower_lg_k(union: &mut UnionHandle, lg_k: u32) -> u32
    ensures { OnObject (LowersUnion lg_k) union.old.value result union.new.value }
{
    match union.owned().get() {
        Some(object) => lower(object, lg_k),
        None => INVALID_ARGUMENT,
    }
}

/// Makes the union's value as a compact sketch, as `kcp_union_result` does, ordered or not, as in
/// `kcp_theta_compact_with`.
///
/// Refused as `kcp_union_result` is, and with `INVALID_ARGUMENT` if `ordered` is neither 0 nor 1.
#[unsafe(no_mangle)]
pub extern "C" fn kcp_union_result_with(
    alloc: Global,
    union: &mut UnionReader,
    ordered: u32,
    out: &mut CompactHandle,
) -> u32
    ensures { FillsInOrder IsUnionResultIn IsResultRefusal (valid_order ordered) union.old.value out.old.value
        result out.new.value }
{
    union.reader().compact_in(alloc, ordered, out.owned())
}

/// Writes how many bytes the slots of the union take, as `kcp_theta_estimated_size` does, and the lists of its hashes, if it
/// has gone over to lists.
#[unsafe(no_mangle)]
pub extern "C" fn kcp_union_estimated_size(union: &mut UnionReader, bytes: &mut u64) -> u32
    ensures { WritesSome union.old.value bytes.old result bytes.new }
{
    union.reader().estimated_size(bytes)
}
