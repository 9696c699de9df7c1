//! Entries put into free slots in rounds. In each round, every remaining entry looks one slot further on its path.
//!
//! The counts take no memory, so in compiled code no branch depends on whether a slot is free. If entries were put
//! one by one, each search would end with a mispredicted branch.
ghost use Rattle.std.specs.Prelude.{◌≡◌, ℕ, ◌+◌, ◌-◌, ◌<◌, ◌≤◌, ◌^◌, ◌*◌, [], ◌++◌, is_none, if◌then◌else◌, length};
ghost use Rattle.std.specs.Prelude.{map, set};
ghost use Rattle.core_laws.specs.Maps.{IsApart, entry_at};
ghost use Rattle.core_slots.specs.SlotLayout.{slot, IsLaidOut, entries_in, slot_map};
ghost use Rattle.core_slots.specs.Placing.{LooksForEach, LooksAtPlaced};
ghost use Rattle.core_slots.specs.Probe.{probe};
ghost use Rattle.core_slots.specs.Rounds.{hash_count, entry_count_in, twice_sum_to};

use crate::count::Count;
use crate::paths::put_along_paths;
use crate::slot_entry::{PathEntry, SlotEntry};
use crate::slots::{NEAR, hash_in, slot_after, slot_of};
use std::alloc::Allocator;

/// Two places, of which one is to be written.
#[derive(Drop)]
struct TwoPlaces<'a, T> {
    first: &'a mut T,
    second: &'a mut T,
}

impl<'a, T> TwoPlaces<'a, T> {
    ghost use Rattle.core_slots.specs.TwoPlaces.{ends_chosen};
    ghost use Rattle.std.specs.Borrow.{sem};

    /// One of them.
    #[inline(always)]
    fn chosen(&mut self, is_first: bool) -> &mut T
        ensures* writes_back { sem 𝓛 (ends_chosen T.row is_first self.entry result) }
    {
        if is_first {
            return &mut *self.first;
        }
        &mut *self.second
    }
}

/// Writes a value to one of two places. Compiled code has one store, to an address that it chooses without a branch,
/// whatever the size of the value: two stores in two branches would stay two.
#[inline(always)]
fn put_either<T: Drop>(is_first: bool, first: &mut T, second: &mut T, value: T)
    ensures first { first.new ≡ if is_first then value else first.old }
    ensures second { second.new ≡ if is_first then second.old else value }
{
    let mut places = TwoPlaces { first, second };
    *places.chosen(is_first) = value;
}

/// Puts an entry into a slot if the slot is free, and otherwise into `waiting`. Returns whether the slot was free. It
/// is one look.
#[inline(always)]
fn put_if_free<E: PathEntry>(
    slots: &mut [E::Slot],
    at: usize,
    entry: E::Slot,
    waiting: &mut E::Slot,
    looks: &mut Count,
) -> bool
    requires { at < length slots.old }
    ensures free { result ≡ is_none (slot (map E.content slots.old) at) }
    ensures written { map E.content slots.new
        ≡ if result then set (map E.content slots.old) at (E.content entry) else map E.content slots.old }
    ensures waits { waiting.new ≡ if result then waiting.old else entry }
    ensures looks { looks.new ≡ looks.old + 1 }
{
    let is_free = E::look(&slots[at], looks).is_none();
    put_either(is_free, &mut slots[at], waiting, entry);
    is_free
}

/// The slot that a hash looks at in a round, below 2^`lg`. The first is that of its low bits, where most entries
/// settle.
#[inline(always)]
fn slot_in_round(hash: u64, lg: u8, round: usize) -> usize
    requires small { lg < 40 }
    requires limited { round < 2 ^ 40 }
    ensures value { result ≡ probe hash lg round }
    ensures below { result < 2 ^ lg }
{
    if round == 0 {
        slot_of(hash as usize, lg)
    } else {
        slot_after(hash, lg, round)
    }
}

/// Moves the entries of `left` into free slots beside the taken ones; afterwards the contents of `left` are
/// unspecified. Counts the entries in `placed` and the looks at slots in `looks`. Returns the number of rounds.
fn settle<E: SlotEntry>(
    left: &mut [E::Slot],
    slots: &mut [E::Slot],
    lg: u8,
    placed: &mut Count,
    looks: &mut Count,
) -> usize
    requires small { lg < 40 }
    requires laid_out { IsLaidOut E.key lg (map E.content slots.old) }
    requires once { (q : ℕ)
        → hash_count E.key q (entries_in E.content left.old) + hash_count E.key q (entries_in E.content slots.old)
        ≤ 1 }
    requires room { length (entries_in E.content left.old) + length (entries_in E.content slots.old) ≤ 2 ^ lg }
    ensures size { length left.new ≡ length left.old }
    ensures laid_out { IsLaidOut E.key lg (map E.content slots.new) }
    ensures found { (q : ℕ)
        → entry_at E.key (entries_in E.content slots.new) q
        ≡ entry_at E.key (entries_in E.content left.old ++ entries_in E.content slots.old) q }
    ensures all { (q : ℕ)
        → entry_count_in E.key E.content q slots.new
        ≡ entry_count_in E.key E.content q left.old + entry_count_in E.key E.content q slots.old }
    ensures count { length (entries_in E.content slots.new)
        ≡ length (entries_in E.content left.old) + length (entries_in E.content slots.old) }
    ensures placed { placed.new ≡ placed.old + length (entries_in E.content left.old) }
    ensures looked { LooksForEach (placed.new - placed.old) looks.old looks.new }
    ensures looks { 2 * looks.new + twice_sum_to (length (entries_in E.content slots.old))
        ≤ 2 * looks.old + twice_sum_to (length (entries_in E.content slots.new)) }
{
    let mut count = left.len();
    let mut round = 0;
    'rounds: loop {
        if count == 0 {
            return round;
        }
        let mut kept = 0;
        'look_on: for at in 0..count {
            let entry = E::take_out(&mut left[at]);
            if let Some(hash) = hash_in::<E>(&entry) {
                let next = slot_in_round(hash, lg, round);
                let is_settled = put_if_free::<E>(slots, next, entry, &mut left[kept], looks);
                if is_settled {
                    placed.tick();
                } else {
                    kept += 1;
                }
            }
        }
        count = kept;
        round += 1;
    }
}

/// How many slots are settled at once. They were gathered in the order of slots, so their entries look at a small
/// part of memory.
const PART: usize = 1024;

/// Moves the entries of `left` into slots, all of which are free, `PART` slots at a time. If a part takes more than
/// `NEAR` rounds, many hashes share paths, and the rest is put along these. Counts the entries in `placed` and the
/// looks at slots in `looks`.
pub fn settle_all<E: SlotEntry, A: Allocator>(
    left: &mut Vec<E::Slot, A>,
    slots: &mut [E::Slot],
    lg: u8,
    placed: &mut Count,
    looks: &mut Count,
)
    requires small { lg < 40 }
    requires size { length slots.old ≡ 2 ^ lg }
    requires free { entries_in E.content slots.old ≡ [] }
    requires apart { IsApart E.key (entries_in E.content left.old.items) }
    requires room { length (entries_in E.content left.old.items) ≤ 2 ^ lg }
    ensures laid_out { IsLaidOut E.key lg (map E.content slots.new) }
    ensures map { slot_map E.key E.content slots.new ≡ slot_map E.key E.content left.old.items }
    ensures placed { placed.new ≡ placed.old + length (entries_in E.content left.old.items) }
    ensures looked { LooksForEach (placed.new - placed.old) looks.old looks.new }
    ensures looks { LooksAtPlaced (placed.new - placed.old) looks.old looks.new }
{
    loop {
        let count = left.len();
        if count == 0 {
            return;
        }
        let from = count.saturating_sub(PART);
        let rounds = settle::<E>(&mut left[from..], slots, lg, placed, looks);
        left.truncate(from);
        if rounds > NEAR {
            put_along_paths::<E, A>(left, slots, lg, placed, looks);
            return;
        }
    }
}
