//! Entries put into free slots along the paths that many of them share.
//!
//! Whoever knows the table can choose hashes that all have one path, or paths that are parts of one. Put one by one,
//! each of n entries would look at all those before it. Here they are put in the order of their places on these
//! paths, and a search begins behind the slots that the one before it found taken: n searches take about n looks.
ghost use Rattle.std.specs.Prelude.{◌≡◌, ℕ, ◌+◌, ◌-◌, ◌<◌, ◌≤◌, ◌^◌, ◌*◌, ◌++◌, None, length, map};
ghost use Rattle.core_laws.specs.Maps.{entry_at};
ghost use Rattle.core_slots.specs.SlotLayout.{slot, HasOthers, IsLaidOut, entries_in};
ghost use Rattle.core_slots.specs.Placing.{LooksForEach};
ghost use Rattle.core_slots.specs.Probe.{probe};
ghost use Rattle.core_slots.specs.Rounds.{hash_count, entry_count_in, twice_sum_to};

use crate::count::Count;
use crate::slot_entry::{PathEntry, SlotEntry};
use crate::slots::{STRIDE_MASK, hash_in, hash_or_zero, look_at, slot_after, slot_of, stride_of};
use std::alloc::Allocator;

/// The number whose product with `stride`, which is odd, is 1 in the low 64 bits.
fn inverse_of(stride: u64) -> u64 {
    // Right in the low 3 bits, and in twice as many after each step.
    let mut inverse = stride;
    for _ in 0..5 {
        inverse = inverse.wrapping_mul(2u64.wrapping_sub(stride.wrapping_mul(inverse)));
    }
    inverse
}

/// How many steps `stride` long lead from a slot to another of 2^`lg`.
fn steps_between(from: usize, to: usize, stride: usize, lg: u8) -> usize
    requires { lg < 40 }
    ensures { result < 2 ^ lg }
{
    let distance = (to as u64).wrapping_sub(from as u64);
    slot_of(
        distance.wrapping_mul(inverse_of(stride as u64)) as usize,
        lg,
    )
}

/// Where a hash is in the order of this module, for 2^`lg` slots, of which `mask` is the number less one: by its
/// stride, and then by its place on the path of that stride through slot 0. The greatest is first, since entries are
/// taken from the end of a list. No result depends on the order, only time.
fn order_of(hash: u64, lg: u8, mask: u64) -> u64 {
    let stride = 2 * (hash.wrapping_shr(lg as u32) & STRIDE_MASK) + 1;
    let place = hash.wrapping_mul(inverse_of(stride)) & mask;
    u64::MAX.wrapping_sub((stride << 40) | place)
}

/// How many slots at the front of the path of a hash are among the first `taken` ones on the path of another: 0
/// unless the path begins among these.
fn steps_known(hash: u64, other: u64, taken: usize, lg: u8) -> usize
    requires small { lg < 40 }
    requires limited { taken ≤ 2 ^ lg }
    ensures known { (i : ℕ) → i < result → (t : ℕ) × (t < taken) × (probe hash lg i ≡ probe other lg t) }
    ensures limited { result ≤ taken }
{
    let stride = stride_of(hash, lg);
    let start = slot_of(hash as usize, lg);
    let passed = steps_between(slot_of(other as usize, lg), start, stride, lg);
    if stride != stride_of(other, lg) || passed > taken {
        return 0;
    }
    if slot_after(other, lg, passed) != start {
        return 0;
    }
    taken - passed
}

/// How many steps lead to the first free slot on the path of a hash that is in no slot. The slots before step `known`
/// are taken. Counts each look at a slot in `looks`.
fn steps_to_free<E: PathEntry>(
    slots: &[E::Slot],
    lg: u8,
    hash: u64,
    known: usize,
    looks: &mut Count,
) -> usize
    requires small { lg < 40 }
    requires size { length slots.now ≡ 2 ^ lg }
    requires room { length (entries_in E.content slots.now) < 2 ^ lg }
    requires absent { entry_at E.key (entries_in E.content slots.now) hash ≡ None }
    requires known { HasOthers E.key lg (map E.content slots.now) hash known }
    requires limited { known ≤ 2 ^ lg }
    ensures low { result < 2 ^ lg }
    ensures free { slot (map E.content slots.now) (probe hash lg result) ≡ None }
    ensures others { HasOthers E.key lg (map E.content slots.now) hash result }
    ensures looked { looks.old < looks.new }
    ensures looks { looks.new ≤ looks.old + length (entries_in E.content slots.now) + 1 }
{
    let mut steps = known;
    loop {
        let at = slot_after(hash, lg, steps);
        if look_at::<E>(slots, at, looks).is_none() {
            return steps;
        }
        steps += 1;
    }
}

/// Moves the entries of `left` into free slots beside the taken ones. Counts the entries in `placed` and the looks at
/// slots in `looks`.
pub(crate) fn put_along_paths<E: SlotEntry, A: Allocator>(
    left: &mut Vec<E::Slot, A>,
    slots: &mut [E::Slot],
    lg: u8,
    placed: &mut Count,
    looks: &mut Count,
)
    requires small { lg < 40 }
    requires laid_out { IsLaidOut E.key lg (map E.content slots.old) }
    requires once { (q : ℕ)
        → hash_count E.key q (entries_in E.content left.old.items) + hash_count E.key q
        (entries_in E.content slots.old)
        ≤ 1 }
    requires room { length (entries_in E.content left.old.items) + length (entries_in E.content slots.old) ≤ 2 ^ lg }
    ensures laid_out { IsLaidOut E.key lg (map E.content slots.new) }
    ensures found { (q : ℕ)
        → entry_at E.key (entries_in E.content slots.new) q
        ≡ entry_at E.key (entries_in E.content left.old.items ++ entries_in E.content slots.old) q }
    ensures all { (q : ℕ)
        → entry_count_in E.key E.content q slots.new
        ≡ entry_count_in E.key E.content q left.old.items + entry_count_in E.key E.content q slots.old }
    ensures count { length (entries_in E.content slots.new)
        ≡ length (entries_in E.content left.old.items) + length (entries_in E.content slots.old) }
    ensures placed { placed.new ≡ placed.old + length (entries_in E.content left.old.items) }
    ensures looked { LooksForEach (placed.new - placed.old) looks.old looks.new }
    ensures looks { 2 * looks.new + twice_sum_to (length (entries_in E.content slots.old))
        ≤ 2 * looks.old + twice_sum_to (length (entries_in E.content slots.new)) }
{
    let mask = (slots.len() as u64).wrapping_sub(1);
    left.sort_unstable_by_key(|slot| order_of(hash_or_zero::<E>(slot), lg, mask));
    let mut last = 0u64;
    let mut taken = 0usize;
    while let Some(entry) = left.pop() {
        if let Some(hash) = hash_in::<E>(&entry) {
            let known = steps_known(hash, last, taken, lg);
            let steps = steps_to_free::<E>(slots, lg, hash, known, looks);
            let at = slot_after(hash, lg, steps);
            slots[at] = entry;
            placed.tick();
            last = hash;
            taken = steps + 1;
        }
    }
}
