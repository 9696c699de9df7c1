//! Unions of tuple sketches of sums.
ghost use Rattle.std.specs.Prelude.{◌≡◌, None};
ghost use Rattle.core_laws.specs.declared.TheConstants.{MAX_THETA};
ghost use Rattle.c_objects.specs.Buffer.{WritesOf};
ghost use Rattle.c_objects.specs.CompactSums.{OfCompactSums, OfSumsImage};
ghost use Rattle.c_handles.specs.Calls.{OnObject, OnObjectWith, Fills, FillsFrom, FillsInOrder, WritesSome};
ghost use Rattle.c_objects.specs.Orders.{IsSumsUnionResultIn};
ghost use Rattle.c_objects.specs.Settings.{IsSettingsRefusal, IsNewRefusal, IsModeRefusal, valid_order};
ghost use Rattle.c_objects.specs.SumsUnion.{IsNewSumsUnion, IsNewSumsUnionByMode};
ghost use Rattle.c_objects.specs.SumsUnion.{AddsShownSums, AddsUpdatableSums, IsSumsUnionResult};
ghost use Rattle.c_objects.specs.SumsUnion.{IsSumsUnionImage, IsSumsResultRefusal, LowersSumsUnion, ResetsSumsUnion};
ghost use Rattle.tuple_sketches.specs.declared.numbers.SummaryMode.TheVariants.{Sum};

use c_handles::handles::{CompactSumsHandle, SumsUnionHandle};
use c_handles::readers::{CompactSumsReader, SumsReader, SumsUnionReader};
use c_objects::settings::factor_of;
use c_objects::status::INVALID_ARGUMENT;
use c_objects::sums_union::{build, build_by_mode, lower};
use std::alloc::Global;
use tuple_sketches::{MAX_THETA, ResizeFactor, SummaryMode};

/// Makes a union of 2^`lg_k` nominal entries, refused as `kcp_theta_new` is. Its value is that of a union of theta
/// sketches, and beside each hash the sum of the sums of all sketches.
#[unsafe(no_mangle)]
pub extern "C" fn kcp_sums_union_new(
    alloc: Global,
    union: &mut SumsUnionHandle,
    lg_k: u32,
    seed: u64,
) -> u32
    ensures { Fills (IsNewSumsUnion Sum lg_k MAX_THETA seed) (IsSettingsRefusal lg_k seed) union.old.value result
        union.new.value }
{
    union.owned().put(
        alloc,
        build(
            alloc,
            lg_k,
            ResizeFactor::X8,
            MAX_THETA,
            seed,
            SummaryMode::Sum,
        ),
    )
}

/// Makes a union with a resize factor and a starting theta, as `kcp_theta_new_with` makes a sketch.
#[unsafe(no_mangle)]
pub extern "C" fn kcp_sums_union_new_with(
    alloc: Global,
    union: &mut SumsUnionHandle,
    lg_k: u32,
    seed: u64,
    resize_factor: u32,
    starting_theta: u64,
) -> u32
    ensures { Fills (IsNewSumsUnion Sum lg_k starting_theta seed) (IsNewRefusal lg_k resize_factor starting_theta seed)
        union.old.value result union.new.value }
{
    match factor_of(resize_factor) {
        Some(factor) => union.owned().put(
            alloc,
            build(alloc, lg_k, factor, starting_theta, seed, SummaryMode::Sum),
        ),
        None => INVALID_ARGUMENT,
    }
}

/// Makes a union of a mode, otherwise as `kcp_sums_union_new_with` does. Beside each hash it keeps the sum of the
/// numbers of all sketches for `SUM`, as other unions do, the least of them for `MIN`, and the greatest for `MAX`,
/// whatever the modes of its sketches. Refused with `INVALID_ARGUMENT` for another mode too.
#[unsafe(no_mangle)]
pub extern "C" fn kcp_sums_union_new_by_mode(
    alloc: Global,
    union: &mut SumsUnionHandle,
    lg_k: u32,
    seed: u64,
    resize_factor: u32,
    starting_theta: u64,
    mode: u32,
) -> u32
    ensures { Fills (IsNewSumsUnionByMode mode lg_k starting_theta seed)
        (IsModeRefusal mode lg_k resize_factor starting_theta seed) union.old.value result union.new.value }
{
    match factor_of(resize_factor) {
        Some(factor) => union.owned().put(
            alloc,
            build_by_mode(alloc, lg_k, factor, starting_theta, seed, mode),
        ),
        None => INVALID_ARGUMENT,
    }
}

/// Frees the union of a handle, if it has one.
#[unsafe(no_mangle)]
pub extern "C" fn kcp_sums_union_free(alloc: Global, union: &mut SumsUnionHandle)
    ensures { union.new.value ≡ None }
{
    union.owned().free(alloc);
}

/// Merges a sketch that takes updates into the union, as `kcp_union_add` does.
///
/// Refused as that call is; and with `POLICY` if the sums of one hash are 2^64 or more together, after which the
/// union has failed until it is reset.
#[unsafe(no_mangle)]
pub extern "C" fn kcp_sums_union_add(union: &mut SumsUnionHandle, sketch: &mut SumsReader) -> u32
    ensures { OnObjectWith AddsUpdatableSums sketch.old.value union.old.value result union.new.value }
{
    union.owned().add(sketch.reader())
}

/// Merges a compact sketch into the union, as `kcp_sums_union_add` does.
#[unsafe(no_mangle)]
pub extern "C" fn kcp_sums_union_add_compact(
    union: &mut SumsUnionHandle,
    sketch: &mut CompactSumsReader,
) -> u32
    ensures { OnObjectWith (OfCompactSums AddsShownSums) sketch.old.value union.old.value result union.new.value }
{
    union.owned().add(sketch.reader())
}

/// Merges the sketch that the bytes begin with, as `kcp_union_add_image` does. Refused as that call and
/// `kcp_sums_union_add` are.
#[unsafe(no_mangle)]
pub extern "C" fn kcp_sums_union_add_image(
    alloc: Global,
    union: &mut SumsUnionHandle,
    image: &[u8],
) -> u32
    ensures { OnObject (OfSumsImage AddsShownSums (λ u. u.seed) image.now) union.old.value result union.new.value }
{
    union.owned().add_image(alloc, image)
}

/// Makes the union's value as an ordered compact sketch. Refused with `FAILED` if the union has failed, and with
/// `OUT_OF_MEMORY`.
#[unsafe(no_mangle)]
pub extern "C" fn kcp_sums_union_result(
    alloc: Global,
    union: &mut SumsUnionReader,
    out: &mut CompactSumsHandle,
) -> u32
    ensures { FillsFrom IsSumsUnionResult IsSumsResultRefusal union.old.value out.old.value result out.new.value }
{
    union.reader().compact(alloc, true, out.owned())
}

/// Writes the image of that sketch, refused as `kcp_sums_union_result` is.
#[unsafe(no_mangle)]
pub extern "C" fn kcp_sums_union_image(
    union: &mut SumsUnionReader,
    out: &mut [u8],
    length: &mut u64,
) -> u32
    ensures { WritesOf IsSumsUnionImage IsSumsResultRefusal union.old.value out.old length.old result out.new
        length.new }
{
    union.reader().image(out, length)
}

/// Makes the union empty again, as when it was new, and ends a failure.
#[unsafe(no_mangle)]
pub extern "C" fn kcp_sums_union_reset(union: &mut SumsUnionHandle) -> u32
    ensures { OnObject ResetsSumsUnion union.old.value result union.new.value }
{
    union.owned().reset()
}

/// Lowers the union to 2^`lg_k` nominal entries, as `kcp_union_lower_lg_k` does.
#[unsafe(no_mangle)]
pub extern "C" fn kcp_sums_union_lower_lg_k(union: &mut SumsUnionHandle, lg_k: u32) -> u32
    ensures { OnObject (LowersSumsUnion lg_k) union.old.value result union.new.value }
{
    match union.owned().get() {
        Some(object) => lower(object, lg_k),
        None => INVALID_ARGUMENT,
    }
}

/// Makes the union's value as a compact sketch, ordered or not, as `kcp_union_result_with` does.
#[unsafe(no_mangle)]
pub extern "C" fn kcp_sums_union_result_with(
    alloc: Global,
    union: &mut SumsUnionReader,
    ordered: u32,
    out: &mut CompactSumsHandle,
) -> u32
    ensures { FillsInOrder IsSumsUnionResultIn IsSumsResultRefusal (valid_order ordered) union.old.value
        out.old.value result out.new.value }
{
    union.reader().compact_in(alloc, ordered, out.owned())
}

/// Writes how many bytes the slots of the union take, as `kcp_sums_estimated_size` does, and the lists of its entries, if it
/// has gone over to lists.
#[unsafe(no_mangle)]
pub extern "C" fn kcp_sums_union_estimated_size(union: &mut SumsUnionReader, bytes: &mut u64) -> u32
    ensures { WritesSome union.old.value bytes.old result bytes.new }
{
    union.reader().estimated_size(bytes)
}
