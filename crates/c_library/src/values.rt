//! Tuple sketches of sums: many values at a call.
ghost use Rattle.std.specs.Prelude.{◌≡◌, None};
ghost use Rattle.c_handles.specs.Calls.{OnObject};
ghost use Rattle.c_objects.specs.Values.{AddsValues, AddsAtStrings};

use c_handles::handles::SumsHandle;
use c_objects::status::INVALID_ARGUMENT;
use c_objects::values::{add_at_hashes, add_at_strings};
use std::alloc::Global;

/// Adds many values to the sums of as many hashes in their order, each as `kcp_sums_add_hash` does, and writes how
/// many were added.
///
/// Refused as `kcp_sums_add_hash` is, at the first value that call would refuse; then exactly the `*added` values
/// before it were added. Refused with `INVALID_ARGUMENT` if there are more hashes than values, or fewer; then none
/// was added.
#[unsafe(no_mangle)]
pub extern "C" fn kcp_sums_add_hashes(
    sums: &mut SumsHandle,
    hashes: &[u64],
    values: &[u64],
    added: &mut u64,
) -> u32
    ensures made { OnObject (AddsValues hashes.now values.now added.new) sums.old.value result
        sums.new.value }
    ensures none { sums.old.value ≡ None → added.new ≡ added.old }
{
    match sums.owned().get() {
        Some(object) => add_at_hashes(object, hashes, values, added),
        None => INVALID_ARGUMENT,
    }
}

/// Adds many values to the sums of as many byte strings in their order, each by its hash as in
/// `kcp_theta_update_strings`, and writes how many were added. The strings lie one after another in `bytes`, and
/// `ends` has where each ends.
///
/// Refused as `kcp_sums_add_hashes` is; and with `INVALID_ARGUMENT` if an end is below the one before it or past the
/// bytes, and with `OUT_OF_MEMORY` if memory for the hashes is refused; then none was added.
#[unsafe(no_mangle)]
pub extern "C" fn kcp_sums_add_strings(
    alloc: Global,
    sums: &mut SumsHandle,
    bytes: &[u8],
    ends: &[u64],
    values: &[u64],
    added: &mut u64,
) -> u32
    ensures made { OnObject (AddsAtStrings bytes.now ends.now values.now added.new) sums.old.value result
        sums.new.value }
    ensures none { sums.old.value ≡ None → added.new ≡ added.old }
{
    match sums.owned().get() {
        Some(object) => add_at_strings(alloc, object, bytes, ends, values, added),
        None => INVALID_ARGUMENT,
    }
}
