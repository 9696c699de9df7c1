//! The hashes and the entries of sketches, in arrays of the caller.
ghost use Rattle.std.specs.Prelude.{◌≡◌, ◌≤◌, ◌++◌, length, drop, map};
ghost use Rattle.core_slots.specs.Entry.{tuple_key};
ghost use Rattle.c_objects.specs.Buffer.{IsPut};
ghost use Rattle.c_objects.specs.CompactSums.{PutsEntries};

use crate::status::{OK, TOO_SMALL};
use theta_sketches::ThetaSketchIter;
use tuple_sketches::TupleSketchIter;

/// Copies hashes to the front of an array that has room for them.
fn copy_hashes(hashes: ThetaSketchIter<'_>, out: &mut [u64])
    requires room { length hashes.rest ≤ length out.old }
    ensures { out.new ≡ hashes.entry.rest ++ drop (length hashes.entry.rest) out.old }
{
    let mut at = 0usize;
    for entry in hashes {
        out[at] = entry.hash();
        at += 1;
    }
}

/// Copies the hashes and the sums of entries to the fronts of two arrays that have room for them.
fn copy_entries(entries: TupleSketchIter<'_, u64>, hashes: &mut [u64], sums: &mut [u64])
    requires room_of_hashes { length entries.rest ≤ length hashes.old }
    requires room_of_sums { length entries.rest ≤ length sums.old }
    ensures hashes { hashes.new ≡ map tuple_key entries.entry.rest ++ drop (length entries.entry.rest) hashes.old }
    ensures sums { sums.new ≡ map (λ e. e.summary) entries.entry.rest ++ drop (length entries.entry.rest) sums.old }
{
    let mut at = 0usize;
    for entry in entries {
        hashes[at] = entry.hash();
        sums[at] = *entry.summary();
        at += 1;
    }
}

/// Copies hashes, which are `number`, to the front of an array, and writes how many they are. The status is `OK`, or
/// `TOO_SMALL` if the array has no room for them.
pub(crate) fn put_hashes(
    hashes: ThetaSketchIter<'_>,
    number: usize,
    out: &mut [u64],
    count: &mut u64,
) -> u32
    requires counted { number ≡ length hashes.rest }
    ensures { IsPut hashes.entry.rest out.old result out.new count.new }
{
    *count = number as u64;
    if out.len() < number {
        return TOO_SMALL;
    }
    copy_hashes(hashes, out);
    OK
}

/// Copies the hashes and the sums of entries, which are `number`, to the fronts of two arrays, and writes how many
/// they are. The status is `OK`, or `TOO_SMALL` if an array has no room for them.
pub(crate) fn put_entries(
    entries: TupleSketchIter<'_, u64>,
    number: usize,
    hashes: &mut [u64],
    sums: &mut [u64],
    count: &mut u64,
) -> u32
    requires counted { number ≡ length entries.rest }
    ensures { PutsEntries entries.entry.rest hashes.old sums.old result hashes.new sums.new count.new }
{
    *count = number as u64;
    if hashes.len() < number || sums.len() < number {
        return TOO_SMALL;
    }
    copy_entries(entries, hashes, sums);
    OK
}
