//! Slots laid out anew by way of others, into which the entries below a theta are gathered first. No branch depends
//! on a hash while they are gathered.
ghost use Rattle.std.specs.Prelude.{◌≡◌, ◌+◌, ◌-◌, ◌<◌, ◌≤◌, ◌^◌, ◌*◌, [], nat_lt, length, map, take};
ghost use Rattle.std.specs.List.{count_by};
ghost use Rattle.core_laws.specs.Maps.{below};
ghost use Rattle.core_slots.specs.SlotLayout.{filled, IsLaidOut, entries_in, slot_map};
ghost use Rattle.core_slots.specs.Placing.{LooksForEach, LooksAtPlaced};

use crate::count::Count;
use crate::placing::settle_all;
use crate::slot_entry::SlotEntry;
use crate::slots::number_below;
use std::alloc::Allocator;
use std::mem;

/// Moves the entries below theta to the front of `others`, which has at least one slot more than these entries, and
/// leaves `slots` free. Returns how many it moved.
fn gather_below<E: SlotEntry>(slots: &mut [E::Slot], theta: u64, others: &mut [E::Slot]) -> usize
    requires room { length (below E.key (entries_in E.content slots.old) theta) < length others.old }
    ensures size { length slots.new ≡ length slots.old }
    ensures free { entries_in E.content slots.new ≡ [] }
    ensures number { result ≡ length (below E.key (entries_in E.content slots.old) theta) }
    ensures size_others { length others.new ≡ length others.old }
    ensures taken { filled (map E.content (take result others.new))
        ≡ below E.key (entries_in E.content slots.old) theta }
{
    let mut count = 0;
    for at in 0..slots.len() {
        let slot = mem::replace(&mut slots[at], E::free_slot());
        let more = number_below::<E>(&slot, theta);
        others[count] = slot;
        count += more;
    }
    count
}

/// Moves the entries below theta to the front of the slots, in their order. Returns how many it moved; the slots
/// behind them are unspecified.
pub(crate) fn pack_below<E: SlotEntry>(slots: &mut [E::Slot], theta: u64) -> usize
    ensures size { length slots.new ≡ length slots.old }
    ensures limited { result ≤ length slots.old }
    ensures taken { filled (map E.content (take result slots.new))
        ≡ below E.key (entries_in E.content slots.old) theta }
{
    let mut count = 0;
    for at in 0..slots.len() {
        let slot = mem::replace(&mut slots[at], E::free_slot());
        let more = number_below::<E>(&slot, theta);
        slots[count] = slot;
        count += more;
    }
    count
}

/// Lays the slots out anew with the entries below theta and drops the rest. They are gathered in `others` first,
/// which has at least one slot more than these entries, and put back in rounds. Counts the placed entries in `placed`
/// and the looks at slots in `looks`.
pub(crate) fn gather<E: SlotEntry, A: Allocator>(
    slots: &mut [E::Slot],
    others: Vec<E::Slot, A>,
    lg: u8,
    theta: u64,
    placed: &mut Count,
    looks: &mut Count,
)
where
    A: Drop,
    requires small { lg < 40 }
    requires laid_out { IsLaidOut E.key lg (map E.content slots.old) }
    requires room { length (below E.key (entries_in E.content slots.old) theta) < length others.items }
    ensures laid_out { IsLaidOut E.key lg (map E.content slots.new) }
    ensures map { slot_map E.key E.content slots.new ≡ below E.key (slot_map E.key E.content slots.old) theta }
    ensures placed { placed.new ≡ placed.old + count_by (λ x. nat_lt (E.key x) theta) (entries_in E.content slots.old) }
    ensures looked { LooksForEach (placed.new - placed.old) looks.old looks.new }
    ensures looks { LooksAtPlaced (placed.new - placed.old) looks.old looks.new }
{
    let mut gathered = others;
    let count = gather_below::<E>(slots, theta, &mut gathered);
    gathered.truncate(count);
    settle_all::<E, A>(&mut gathered, slots, lg, placed, looks);
}
