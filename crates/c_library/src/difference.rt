//! Differences of theta sketches.
ghost use Rattle.std.specs.Prelude.{◌≡◌};
ghost use Rattle.c_handles.specs.Calls.{FillsFromTwo, FillsFromTwoInOrder};
ghost use Rattle.c_objects.specs.Intersection.{AreOfSeed, IsDifferenceOf, IsDifferenceRefusal};
ghost use Rattle.c_objects.specs.Orders.{IsDifferenceIn};
ghost use Rattle.c_objects.specs.Settings.{valid_order};

use c_handles::handles::CompactHandle;
use c_handles::readers::CompactReader;
use std::alloc::Global;

/// Makes the difference of two sketches, as an ordered compact sketch: the hashes of the first that the second lacks,
/// below the lesser theta. Pass three different handles.
///
/// Refused with `INVALID_ARGUMENT` if the hash of the seed is 0, and, unless the first sketch is empty, if one that
/// isn't empty is of another seed; and with `OUT_OF_MEMORY`. With an empty first sketch the difference is empty, and
/// the second sketch may be of any seed.
#[unsafe(no_mangle)]
pub extern "C" fn kcp_difference(
    alloc: Global,
    first: &mut CompactReader,
    second: &mut CompactReader,
    seed: u64,
    out: &mut CompactHandle,
) -> u32
    ensures { FillsFromTwo (AreOfSeed seed) IsDifferenceOf (IsDifferenceRefusal seed)
        first.old.value second.old.value out.old.value result out.new.value }
{
    first
        .reader()
        .difference(alloc, second.reader(), seed, true, out.owned())
}

/// Makes the difference of two sketches, as `kcp_difference` does; it is ordered if `ordered` is 1, or if the first
/// sketch is.
///
/// Refused as `kcp_difference` is, and with `INVALID_ARGUMENT` if `ordered` is neither 0 nor 1.
#[unsafe(no_mangle)]
pub extern "C" fn kcp_difference_with(
    alloc: Global,
    first: &mut CompactReader,
    second: &mut CompactReader,
    seed: u64,
    ordered: u32,
    out: &mut CompactHandle,
) -> u32
    ensures { FillsFromTwoInOrder (AreOfSeed seed) IsDifferenceIn (IsDifferenceRefusal seed) (valid_order ordered)
        first.old.value second.old.value out.old.value result out.new.value }
{
    first
        .reader()
        .difference_in(alloc, second.reader(), seed, ordered, out.owned())
}
