//! Intersections of theta sketches.
ghost use Rattle.std.specs.Prelude.{◌≡◌, None};
ghost use Rattle.c_handles.specs.Calls.{OnObject, OnObjectWith, Fills, FillsFrom, FillsInOrder, WritesSome};
ghost use Rattle.c_objects.specs.Intersection.{IsNewIntersection, MeetsShown, MeetsUpdatable, IsSeedRefusal};
ghost use Rattle.c_objects.specs.Intersection.{IsIntersectionResult, IsNoResult};
ghost use Rattle.c_objects.specs.Orders.{IsIntersectionResultIn};
ghost use Rattle.c_objects.specs.Settings.{valid_order};
ghost use Rattle.c_objects.specs.Thetas.{OfCompact, OfImage};

use c_handles::handles::{CompactHandle, IntersectionHandle};
use c_handles::readers::{CompactReader, IntersectionReader, ThetaReader};
use c_objects::intersection::build;
use std::alloc::Global;

/// Makes an intersection, which has no value before its first sketch. Refused with `INVALID_ARGUMENT` if the hash of
/// the seed is 0, and with `OUT_OF_MEMORY`.
#[unsafe(no_mangle)]
pub extern "C" fn kcp_intersection_new(
    alloc: Global,
    intersection: &mut IntersectionHandle,
    seed: u64,
) -> u32
    ensures { Fills (IsNewIntersection seed) (IsSeedRefusal seed) intersection.old.value result intersection.new.value }
{
    intersection.owned().put(alloc, build(alloc, seed))
}

/// Frees the intersection of a handle, if it has one.
#[unsafe(no_mangle)]
pub extern "C" fn kcp_intersection_free(alloc: Global, intersection: &mut IntersectionHandle)
    ensures { intersection.new.value ≡ None }
{
    intersection.owned().free(alloc);
}

/// Intersects with a sketch that takes updates: the value keeps the hashes that all sketches share below their least
/// theta. It is empty for good once a sketch is, or once sketches that have hashes share none while theta is
/// `MAX_THETA`; it then accepts every sketch.
///
/// Refused with `INVALID_ARGUMENT` for a sketch of another seed, and with `OUT_OF_MEMORY`; nothing has changed then.
#[unsafe(no_mangle)]
pub extern "C" fn kcp_intersection_add(
    intersection: &mut IntersectionHandle,
    sketch: &mut ThetaReader,
) -> u32
    ensures { OnObjectWith MeetsUpdatable sketch.old.value intersection.old.value result intersection.new.value }
{
    intersection.owned().add(sketch.reader())
}

/// Intersects with a compact sketch, as `kcp_intersection_add` does.
#[unsafe(no_mangle)]
pub extern "C" fn kcp_intersection_add_compact(
    intersection: &mut IntersectionHandle,
    sketch: &mut CompactReader,
) -> u32
    ensures { OnObjectWith (OfCompact MeetsShown) sketch.old.value intersection.old.value result
        intersection.new.value }
{
    intersection.owned().add(sketch.reader())
}

/// Intersects with the sketch that the bytes begin with, read under the intersection's seed, as
/// `kcp_intersection_add` does.
///
/// Refused with `INVALID_DATA` if the bytes begin with no sketch of this seed, and otherwise as
/// `kcp_intersection_add` is; nothing has changed then.
#[unsafe(no_mangle)]
pub extern "C" fn kcp_intersection_add_image(
    alloc: Global,
    intersection: &mut IntersectionHandle,
    image: &[u8],
) -> u32
    ensures { OnObject (OfImage MeetsShown (λ i. i.seed) image.now) intersection.old.value result
        intersection.new.value }
{
    intersection.owned().add_image(alloc, image)
}

/// Makes the intersection's value as an ordered compact sketch. Refused with `INVALID_ARGUMENT` before the first
/// sketch, and with `OUT_OF_MEMORY`.
#[unsafe(no_mangle)]
pub extern "C" fn kcp_intersection_result(
    alloc: Global,
    intersection: &mut IntersectionReader,
    out: &mut CompactHandle,
) -> u32
    ensures { FillsFrom IsIntersectionResult IsNoResult intersection.old.value out.old.value result out.new.value }
{
    intersection.reader().compact(alloc, true, out.owned())
}

/// Makes the intersection's value as a compact sketch, as `kcp_intersection_result` does, ordered or not, as in
/// `kcp_theta_compact_with`.
///
/// Refused as `kcp_intersection_result` is, and with `INVALID_ARGUMENT` if `ordered` is neither 0 nor 1.
#[unsafe(no_mangle)]
pub extern "C" fn kcp_intersection_result_with(
    alloc: Global,
    intersection: &mut IntersectionReader,
    ordered: u32,
    out: &mut CompactHandle,
) -> u32
    ensures { FillsInOrder IsIntersectionResultIn IsNoResult (valid_order ordered) intersection.old.value
        out.old.value result out.new.value }
{
    intersection
        .reader()
        .compact_in(alloc, ordered, out.owned())
}

/// Writes how many bytes the hashes of the intersection's value take, 8 for each; 0 before the first sketch.
#[unsafe(no_mangle)]
pub extern "C" fn kcp_intersection_estimated_size(
    intersection: &mut IntersectionReader,
    bytes: &mut u64,
) -> u32
    ensures { WritesSome intersection.old.value bytes.old result bytes.new }
{
    intersection.reader().estimated_size(bytes)
}
