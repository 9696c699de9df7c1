//! Differences of tuple sketches of sums.
ghost use Rattle.std.specs.Prelude.{◌≡◌};
ghost use Rattle.c_handles.specs.Calls.{FillsFromTwo, FillsFromTwoInOrder};
ghost use Rattle.c_objects.specs.SumsIntersection.{AreSumsOfSeed, IsDifferenceOfSums, IsSumsDifferenceRefusal};
ghost use Rattle.c_objects.specs.Orders.{IsDifferenceOfSumsIn};
ghost use Rattle.c_objects.specs.Settings.{valid_order};

use c_handles::handles::CompactSumsHandle;
use c_handles::readers::CompactSumsReader;
use std::alloc::Global;

/// Makes the difference of two sketches, as `kcp_difference` does; each hash keeps the sum that it has in the first.
#[unsafe(no_mangle)]
pub extern "C" fn kcp_sums_difference(
    alloc: Global,
    first: &mut CompactSumsReader,
    second: &mut CompactSumsReader,
    seed: u64,
    out: &mut CompactSumsHandle,
) -> u32
    ensures { FillsFromTwo (AreSumsOfSeed seed) IsDifferenceOfSums (IsSumsDifferenceRefusal seed)
        first.old.value second.old.value out.old.value result out.new.value }
{
    first
        .reader()
        .difference(alloc, second.reader(), seed, true, out.owned())
}

/// Makes the difference of two sketches, as `kcp_sums_difference` does; it is ordered if `ordered` is 1, or if the first
/// sketch is.
///
/// Refused as `kcp_sums_difference` is, and with `INVALID_ARGUMENT` if `ordered` is neither 0 nor 1.
#[unsafe(no_mangle)]
pub extern "C" fn kcp_sums_difference_with(
    alloc: Global,
    first: &mut CompactSumsReader,
    second: &mut CompactSumsReader,
    seed: u64,
    ordered: u32,
    out: &mut CompactSumsHandle,
) -> u32
    ensures { FillsFromTwoInOrder (AreSumsOfSeed seed) IsDifferenceOfSumsIn (IsSumsDifferenceRefusal seed) (valid_order ordered)
        first.old.value second.old.value out.old.value result out.new.value }
{
    first
        .reader()
        .difference_in(alloc, second.reader(), seed, ordered, out.owned())
}
