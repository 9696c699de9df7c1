//! Many byte strings at a call.
ghost use Rattle.std.specs.Prelude.{◌≡◌, ◌⊎◌, true, false, length, IfOk, OnOk, IfErr};
ghost use Rattle.c_objects.specs.Strings.{are_ends, string_hashes, UpdatesStrings};

use crate::hashes::hash_of_bytes;
use crate::status::{INVALID_ARGUMENT, OUT_OF_MEMORY};
use crate::theta::{SeededSketch, update_hashes};
use std::alloc::Global;

/// The hashes of strings that lie one after another in `bytes`, by where each ends. Refused with `OUT_OF_MEMORY`, and
/// with `INVALID_ARGUMENT` if an end is below the one before it or past the bytes.
pub(crate) fn hashes_of_strings(
    alloc: Global,
    seed: u64,
    bytes: &[u8],
    ends: &[u64],
) -> Result<Vec<u64>, u32>
    ensures hashes { IfOk result (λ v. v.items ≡ string_hashes seed bytes.now 0 ends.now) }
    ensures valid { OnOk result (are_ends 0 (length bytes.now) ends.now ≡ true) }
    ensures refused { IfErr result (λ status.
        (status ≡ 3) ⊎ ((status ≡ 1) × (are_ends 0 (length bytes.now) ends.now ≡ false))) }
{
    let mut hashes = Vec::new(alloc);
    let mut start = 0usize;
    for at in ends {
        let end = *at as usize;
        if end < start || bytes.len() < end {
            return Err(INVALID_ARGUMENT);
        }
        let hash = hash_of_bytes(seed, &bytes[start..end]);
        if hashes.push(hash).is_err() {
            return Err(OUT_OF_MEMORY);
        }
        start = end;
    }
    Ok(hashes)
}

/// Updates a sketch with byte strings in their order, each by its hash: `ends` has where each ends in `bytes`.
/// Refused with `INVALID_ARGUMENT` if an end is below the one before it or past the bytes, and with `OUT_OF_MEMORY`.
pub fn update_strings(alloc: Global, theta: &mut SeededSketch, bytes: &[u8], ends: &[u64]) -> u32
    ensures { UpdatesStrings bytes.now ends.now theta.old result theta.new }
{
    match hashes_of_strings(alloc, theta.seed, bytes, ends) {
        Ok(hashes) => update_hashes(theta, hashes.as_slice()),
        Err(status) => status,
    }
}
