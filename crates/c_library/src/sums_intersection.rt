//! Intersections of tuple sketches of sums.
ghost use Rattle.std.specs.Prelude.{◌≡◌, None};
ghost use Rattle.c_handles.specs.Calls.{OnObject, OnObjectWith, Fills, FillsFrom, FillsInOrder, WritesSome};
ghost use Rattle.c_objects.specs.CompactSums.{OfCompactSums, OfSumsImage};
ghost use Rattle.c_objects.specs.Intersection.{IsSeedRefusal, IsSeedModeRefusal};
ghost use Rattle.c_objects.specs.Orders.{IsSumsIntersectionResultIn};
ghost use Rattle.c_objects.specs.Settings.{valid_order};
ghost use Rattle.c_objects.specs.SumsIntersection.{IsNewSumsIntersection, IsNewSumsIntersectionByMode, MeetsShownSums};
ghost use Rattle.c_objects.specs.SumsIntersection.{MeetsUpdatableSums, IsSumsIntersectionResult, IsNoSumsResult};
ghost use Rattle.tuple_sketches.specs.declared.numbers.SummaryMode.TheVariants.{Sum};

use c_handles::handles::{CompactSumsHandle, SumsIntersectionHandle};
use c_handles::readers::{CompactSumsReader, SumsIntersectionReader, SumsReader};
use c_objects::sums_intersection::{build, build_by_mode};
use std::alloc::Global;
use tuple_sketches::SummaryMode;

/// Makes an intersection, refused as `kcp_intersection_new` is. Its value is that of an intersection of theta
/// sketches, and beside each hash the sum of the sums of all sketches.
#[unsafe(no_mangle)]
pub extern "C" fn kcp_sums_intersection_new(
    alloc: Global,
    intersection: &mut SumsIntersectionHandle,
    seed: u64,
) -> u32
    ensures { Fills (IsNewSumsIntersection Sum seed) (IsSeedRefusal seed) intersection.old.value result
        intersection.new.value }
{
    intersection
        .owned()
        .put(alloc, build(alloc, seed, SummaryMode::Sum))
}

/// Makes an intersection of a mode, otherwise as `kcp_sums_intersection_new` does. Beside each hash it keeps the sum of
/// the numbers of all sketches for `SUM`, as other intersections do, the least of them for `MIN`, and the greatest for
/// `MAX`, whatever the modes of its sketches. Refused with `INVALID_ARGUMENT` for another mode too.
#[unsafe(no_mangle)]
pub extern "C" fn kcp_sums_intersection_new_by_mode(
    alloc: Global,
    intersection: &mut SumsIntersectionHandle,
    seed: u64,
    mode: u32,
) -> u32
    ensures { Fills (IsNewSumsIntersectionByMode mode seed) (IsSeedModeRefusal mode seed) intersection.old.value
        result intersection.new.value }
{
    intersection
        .owned()
        .put(alloc, build_by_mode(alloc, seed, mode))
}

/// Frees the intersection of a handle, if it has one.
#[unsafe(no_mangle)]
pub extern "C" fn kcp_sums_intersection_free(
    alloc: Global,
    intersection: &mut SumsIntersectionHandle,
)
    ensures { intersection.new.value ≡ None }
{
    intersection.owned().free(alloc);
}

/// Intersects with a sketch that takes updates, as `kcp_intersection_add` does.
///
/// Refused as that call is, and with `POLICY` if the sums of one hash are 2^64 or more together; nothing has changed
/// then.
#[unsafe(no_mangle)]
pub extern "C" fn kcp_sums_intersection_add(
    intersection: &mut SumsIntersectionHandle,
    sketch: &mut SumsReader,
) -> u32
    ensures { OnObjectWith MeetsUpdatableSums sketch.old.value intersection.old.value result
        intersection.new.value }
{
    intersection.owned().add(sketch.reader())
}

/// Intersects with a compact sketch, as `kcp_sums_intersection_add` does.
#[unsafe(no_mangle)]
pub extern "C" fn kcp_sums_intersection_add_compact(
    intersection: &mut SumsIntersectionHandle,
    sketch: &mut CompactSumsReader,
) -> u32
    ensures { OnObjectWith (OfCompactSums MeetsShownSums) sketch.old.value intersection.old.value result
        intersection.new.value }
{
    intersection.owned().add(sketch.reader())
}

/// Intersects with the sketch that the bytes begin with, as `kcp_intersection_add_image` does. Refused as that call
/// and `kcp_sums_intersection_add` are.
#[unsafe(no_mangle)]
pub extern "C" fn kcp_sums_intersection_add_image(
    alloc: Global,
    intersection: &mut SumsIntersectionHandle,
    image: &[u8],
) -> u32
    ensures { OnObject (OfSumsImage MeetsShownSums (λ i. i.seed) image.now) intersection.old.value result
        intersection.new.value }
{
    intersection.owned().add_image(alloc, image)
}

/// Makes the intersection's value as an ordered compact sketch. Refused with `INVALID_ARGUMENT` before the first
/// sketch, and with `OUT_OF_MEMORY`.
#[unsafe(no_mangle)]
pub extern "C" fn kcp_sums_intersection_result(
    alloc: Global,
    intersection: &mut SumsIntersectionReader,
    out: &mut CompactSumsHandle,
) -> u32
    ensures { FillsFrom IsSumsIntersectionResult IsNoSumsResult intersection.old.value out.old.value result
        out.new.value }
{
    intersection.reader().compact(alloc, true, out.owned())
}

/// Makes the intersection's value as a compact sketch, ordered or not, as `kcp_intersection_result_with` does.
#[unsafe(no_mangle)]
pub extern "C" fn kcp_sums_intersection_result_with(
    alloc: Global,
    intersection: &mut SumsIntersectionReader,
    ordered: u32,
    out: &mut CompactSumsHandle,
) -> u32
    ensures { FillsInOrder IsSumsIntersectionResultIn IsNoSumsResult (valid_order ordered) intersection.old.value
        out.old.value result out.new.value }
{
    intersection
        .reader()
        .compact_in(alloc, ordered, out.owned())
}

/// Writes how many bytes the hashes and sums of the intersection's value take, 16 for each pair; 0 before the first
/// sketch.
#[unsafe(no_mangle)]
pub extern "C" fn kcp_sums_intersection_estimated_size(
    intersection: &mut SumsIntersectionReader,
    bytes: &mut u64,
) -> u32
    ensures { WritesSome intersection.old.value bytes.old result bytes.new }
{
    intersection.reader().estimated_size(bytes)
}
