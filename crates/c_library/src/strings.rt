//! Many byte strings at a call.
ghost use Rattle.c_handles.specs.Calls.{OnObject};
ghost use Rattle.c_objects.specs.Strings.{UpdatesStrings};

use c_handles::handles::ThetaHandle;
use c_objects::status::INVALID_ARGUMENT;
use c_objects::strings::update_strings;
use std::alloc::Global;

/// Updates a sketch with byte strings in their order, each by its hash. They lie one after another in `bytes`, the
/// first from offset 0, and `ends[i]` is the offset of the end of string i. The call allocates eight bytes per
/// string.
///
/// Refused with `INVALID_ARGUMENT` if an end is below the one before it or past the bytes. Refused with
/// `OUT_OF_MEMORY`; then only the first strings have been inserted, perhaps none, and the same call may be repeated.
#[unsafe(no_mangle)]
pub extern "C" fn kcp_theta_update_strings(
    alloc: Global,
    sketch: &mut ThetaHandle,
    bytes: &[u8],
    ends: &[u64],
) -> u32
    ensures { OnObject (UpdatesStrings bytes.now ends.now) sketch.old.value result sketch.new.value }
{
    match sketch.owned().get() {
        Some(theta) => update_strings(alloc, theta, bytes, ends),
        None => INVALID_ARGUMENT,
    }
}
