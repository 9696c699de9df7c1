//! Many values at a call, for sketches of sums.
ghost use Rattle.c_objects.specs.Values.{AddsValues, AddsAtStrings};

use crate::status::{INVALID_ARGUMENT, OK};
use crate::strings::hashes_of_strings;
use crate::sums::{SeededSums, add_at_hash};
use std::alloc::Global;

/// Adds values to the sums of hashes in their order, each as `add_at_hash` does, and writes how many were added. The
/// status is `OK`; that of the first refusal, and then exactly the values before it were added; or
/// `INVALID_ARGUMENT` if there are more hashes or more values, and then none was added.
pub fn add_at_hashes(sums: &mut SeededSums, hashes: &[u64], values: &[u64], added: &mut u64) -> u32
    ensures { AddsValues hashes.now values.now added.new sums.old result sums.new }
{
    if hashes.len() != values.len() {
        *added = 0;
        return INVALID_ARGUMENT;
    }
    for at in 0..hashes.len() {
        let status = add_at_hash(sums, hashes[at], values[at]);
        if status != OK {
            *added = at as u64;
            return status;
        }
    }
    *added = hashes.len() as u64;
    OK
}

/// Adds values to the sums of byte strings in their order, each by its hash: `ends` has where each ends in `bytes`.
/// Refused as `add_at_hashes` is; and with `INVALID_ARGUMENT` if an end is below the one before it or past the bytes,
/// and with `OUT_OF_MEMORY` for the hashes, and then none was added.
pub fn add_at_strings(
    alloc: Global,
    sums: &mut SeededSums,
    bytes: &[u8],
    ends: &[u64],
    values: &[u64],
    added: &mut u64,
) -> u32
    ensures { AddsAtStrings bytes.now ends.now values.now added.new sums.old result sums.new }
{
    match hashes_of_strings(alloc, sums.seed, bytes, ends) {
        Ok(hashes) => add_at_hashes(sums, hashes.as_slice(), values, added),
        Err(status) => {
            *added = 0;
            status
        }
    }
}
