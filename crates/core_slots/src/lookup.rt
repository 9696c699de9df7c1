//! Many hashes looked up at once, so that the waits for their slots overlap.
//!
//! Which hash a slot holds is as good as random, and with many slots each look waits for memory. So a round looks at
//! one slot of each hash, without a branch on what it finds, and drops the found hashes only afterwards.
ghost use Rattle.std.specs.Prelude.{◌≡◌, ◌==◌, ◌<◌, ◌≤◌, ◌^◌, if◌then◌else◌, false, not, length, filter, take};
ghost use Rattle.std.specs.Prelude.{slice_index, EachIndex};
ghost use Rattle.std.specs.List.{AllByRecursion};
ghost use Rattle.core_laws.specs.Insertion.{IsRedundant, Drops, is_screened};
ghost use Rattle.core_slots.specs.Lookup.{IsBlanked};
ghost use Rattle.core_slots.specs.SlotLayout.{entries_in};

use crate::slot_entry::SlotEntry;
use crate::slots::{hash_or_zero, slot_after};

/// How many slots on the path of a hash are looked at: few retained hashes are further along.
const ROUNDS: usize = 3;

/// The hash, or 0 if it equals `other`.
#[inline(always)]
fn unless_same(hash: u64, other: u64) -> u64
    ensures { result ≡ (if hash == other then 0 else hash) }
{
    if hash == other { 0 } else { hash }
}

/// The hash, or 0 if the slot `at` holds it. It takes no branch.
#[inline(always)]
fn blanked_at<E: SlotEntry>(slots: &[E::Slot], at: usize, hash: u64) -> u64
    requires inside { at < length slots.now }
    ensures { IsBlanked E.key (entries_in E.content slots.now) hash result }
{
    let content = hash_or_zero::<E>(&slots[at]);
    unless_same(hash, content)
}

/// Writes 0 over each hash that is in the slot `step` strides along its path.
fn blank_retained<E: SlotEntry>(slots: &[E::Slot], lg: u8, step: usize, hashes: &mut [u64])
    requires small { lg < 40 }
    requires near { step < 2 ^ 40 }
    requires size { length slots.now ≡ 2 ^ lg }
    ensures blanked { EachIndex hashes.old (λ p.
        IsBlanked E.key (entries_in E.content slots.now) (slice_index hashes.old p) (slice_index hashes.new p)) }
{
    for hash in hashes.iter_mut() {
        let at = slot_after(*hash, lg, step);
        *hash = blanked_at::<E>(slots, at, *hash);
    }
}

/// 1 for a hash that is neither 0 nor at least theta, otherwise 0. It is one comparison.
#[inline(always)]
fn number_unscreened(hash: u64, theta: u64) -> usize
    requires positive { 0 < theta }
    ensures { result ≡ (if is_screened hash theta then 0 else 1) }
{
    (hash.wrapping_sub(1) < theta - 1) as usize
}

/// Moves the hashes that are neither 0 nor at least theta to the front, in their order, and returns their number. It
/// takes no branch on a hash.
fn pack_unscreened(hashes: &mut [u64], theta: u64) -> usize
    requires positive { 0 < theta }
    ensures packed { take result hashes.new ≡ filter (λ h. not (is_screened h theta)) hashes.old }
    ensures limited { result ≤ length hashes.old }
{
    let mut count = 0usize;
    for i in 0..hashes.len() {
        let hash = hashes[i];
        hashes[count] = hash;
        count += number_unscreened(hash, theta);
    }
    count
}

/// Drops from `hashes` all that are 0 or at least `theta`, and of the others only hashes that one of the 2^`lg` slots
/// holds: those found within a few looks. The rest moves to the front, in its order; returns how many these are.
///
/// The waits for their slots overlap. These looks are not counted.
pub fn drop_retained<E: SlotEntry>(
    slots: &[E::Slot],
    lg: u8,
    theta: u64,
    hashes: &mut [u64],
) -> usize
    requires small { lg < 40 }
    requires size { length slots.now ≡ 2 ^ lg }
    requires positive { 0 < theta }
    ensures left { Drops (IsRedundant E.key (record { entries = entries_in E.content slots.now; theta = theta }))
        hashes.old
        (take result hashes.new) }
    ensures unscreened { AllByRecursion (λ h. is_screened h theta ≡ false) (take result hashes.new) }
    ensures limited { result ≤ length hashes.old }
{
    let mut left = pack_unscreened(hashes, theta);
    for step in 0..ROUNDS {
        blank_retained::<E>(slots, lg, step, &mut hashes[..left]);
        left = pack_unscreened(&mut hashes[..left], theta);
    }
    left
}
