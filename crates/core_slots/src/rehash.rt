//! Slots laid out anew with those of their entries that are below a theta, by way of other slots.
ghost use Rattle.std.specs.Prelude.{◌≡◌, ◌+◌, ◌-◌, ◌<◌, ◌≤◌, ◌^◌, OnOk, OnErr, length, map};
ghost use Rattle.core_laws.specs.Maps.{below, with_entry};
ghost use Rattle.core_slots.specs.SlotLayout.{IsLaidOut, entries_in, slot_map};
ghost use Rattle.core_slots.specs.Placing.{IsFreeFor, LooksForEach, LooksAtPlaced};

use crate::count::Count;
use crate::gathering::gather;
use crate::slot_entry::SlotEntry;
use std::alloc::{AllocError, Allocator};
use std::mem;

/// Keeps the entries below theta, in the same slots: at most `kept` of them. Counts the entries placed anew in
/// `placed` and the looks at slots in `looks`.
///
/// It requests memory for `kept` + 1 more slots. It fails only if that runs out; then nothing has changed.
pub fn keep_below<E: SlotEntry + Drop, A: Allocator + Clone>(
    slots: &mut Vec<E::Slot, A>,
    lg: u8,
    theta: u64,
    kept: usize,
    placed: &mut Count,
    looks: &mut Count,
) -> Result<(), AllocError>
    requires small { lg < 40 }
    requires laid_out { IsLaidOut E.key lg (map E.content slots.old.items) }
    requires kept { length (below E.key (slot_map E.key E.content slots.old.items) theta) ≤ kept }
    requires limited { kept < 2 ^ 40 }
    ensures laid_out { OnOk result (IsLaidOut E.key lg (map E.content slots.new.items)) }
    ensures map { OnOk result
        (slot_map E.key E.content slots.new.items ≡ below E.key (slot_map E.key E.content slots.old.items) theta) }
    ensures placed { OnOk result (placed.new ≡ placed.old + length (entries_in E.content slots.new.items)) }
    ensures err { OnErr result (slots.new.items ≡ slots.old.items) }
    ensures placed_err { OnErr result (placed.new ≡ placed.old) }
    ensures looked { LooksForEach (placed.new - placed.old) looks.old looks.new }
    ensures looks { LooksAtPlaced (placed.new - placed.old) looks.old looks.new }
{
    let others = E::free_slots(slots.allocator().clone()?, kept + 1)?;
    gather::<E, A>(slots, others, lg, theta, placed, looks);
    Ok(())
}

/// Puts a new entry into the free slot `at`, where a search for it ends, and keeps the entries below theta in the way
/// of `keep_below`: at most `kept` of them. It fails only if that does; then nothing has changed.
pub fn put_kept<E: SlotEntry + Drop, A: Allocator + Clone>(
    slots: &mut Vec<E::Slot, A>,
    lg: u8,
    theta: u64,
    kept: usize,
    at: usize,
    entry: E,
    placed: &mut Count,
    looks: &mut Count,
) -> Result<(), AllocError>
    requires small { lg < 40 }
    requires place { IsFreeFor E.key lg (map E.content slots.old.items) at entry }
    requires inside { at < length slots.old.items }
    requires kept { length (below E.key (with_entry E.key (slot_map E.key E.content slots.old.items) entry) theta)
        ≤ kept }
    requires limited { kept < 2 ^ 40 }
    ensures laid_out { OnOk result (IsLaidOut E.key lg (map E.content slots.new.items)) }
    ensures map { OnOk result (
        slot_map E.key E.content slots.new.items
        ≡ below E.key (with_entry E.key (slot_map E.key E.content slots.old.items) entry) theta) }
    ensures placed { OnOk result (placed.new ≡ placed.old + length (entries_in E.content slots.new.items)) }
    ensures err { OnErr result (slots.new.items ≡ slots.old.items) }
    ensures placed_err { OnErr result (placed.new ≡ placed.old) }
    ensures looked { LooksForEach (placed.new - placed.old) looks.old looks.new }
    ensures looks { LooksAtPlaced (placed.new - placed.old) looks.old looks.new }
{
    let free = mem::replace(&mut slots[at], entry.into_slot());
    if let Err(refusal) = keep_below::<E, A>(slots, lg, theta, kept, placed, looks) {
        slots[at] = free;
        return Err(refusal);
    }
    Ok(())
}
