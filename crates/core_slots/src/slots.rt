//! Entries in slots.
ghost use Rattle.std.specs.Prelude.{◌≡◌, ℕ, ◌+◌, ◌-◌, ◌<◌, ◌≤◌, ◌^◌, ◌%◌, ◌*◌, true, false, nat_lt, Some, None};
ghost use Rattle.std.specs.Prelude.{is_none, IfNone, IfSome, IfOk, OnOk, OnErr, [], ◌∷◌, length, map, option_map};
ghost use Rattle.std.specs.Prelude.{unwrap_or};
ghost use Rattle.std.specs.List.{count_by};
ghost use Rattle.std.specs.Option.{option_copied};
ghost use Rattle.core_laws.specs.Entries.{hash_key};
ghost use Rattle.core_laws.specs.Maps.{rank, IsApart, below, with_entry};
ghost use Rattle.core_slots.specs.SlotLayout.{filled, slot, is_other, IsOnPath, IsLaidOut, entries_in, slot_map};
ghost use Rattle.core_slots.specs.Placing.{IsFreeFor, LooksForEach, LooksAtPlaced};
ghost use Rattle.core_slots.specs.Probe.{probe, stride};
ghost use Rattle.core_slots.specs.declared.slots.TheConstants.{NEAR};

use crate::count::Count;
use crate::gathering::pack_below;
use crate::placing::settle_all;
use crate::slot_entry::{PathEntry, SlotEntry};
use std::alloc::{AllocError, Allocator};

/// Where a search for a hash ended.
#[derive(Debug, Clone, Copy)]
pub struct Place {
    /// The slot, below 2^lg.
    pub at: usize,
    /// Whether the slot is free. Otherwise it holds the entry of the hash.
    pub is_free: bool,
}

/// The entry that a slot holds, if any. Each look of a search is one call.
#[inline(always)]
pub(crate) fn look_at<'a, E: PathEntry + 'a>(
    slots: &'a [E::Slot],
    at: usize,
    looks: &mut Count,
) -> Option<&'a E>
    requires { at < length slots.now }
    ensures holds { option_copied result ≡ slot (map E.content slots.now) at }
    ensures looks { looks.new ≡ looks.old + 1 }
{
    E::look(&slots[at], looks)
}

/// A number modulo 2^`lg`: the slot that its low bits name.
#[inline(always)]
pub(crate) fn slot_of(number: usize, lg: u8) -> usize
    requires { lg < 64 }
    ensures value { result ≡ number % 2 ^ lg }
    ensures below { result < 2 ^ lg }
{
    number & ((1usize << lg) - 1)
}

/// A number modulo `size`, which is 2^`lg`. Taking `size` saves a search from recomputing 2^`lg`.
#[inline(always)]
fn slot_among(number: usize, size: usize, lg: u8) -> usize
    requires small { lg < 64 }
    requires size { size ≡ 2 ^ lg }
    ensures value { result ≡ number % 2 ^ lg }
    ensures below { result < 2 ^ lg }
{
    number & (size - 1)
}

/// The bits of a hash, above its low lg bits, that choose the stride of its path.
pub const STRIDE_MASK: u64 = 127;

/// The length of each step on the path of a hash.
#[inline(always)]
pub(crate) fn stride_of(hash: u64, lg: u8) -> usize
    requires { lg < 64 }
    ensures value { result ≡ stride hash lg }
    ensures small { result < 256 }
{
    (2 * ((hash >> lg) & STRIDE_MASK) + 1) as usize
}

/// The slot where a search for a hash ends: that of its entry, or else the first free slot of its path. At least one
/// of the 2^`lg` slots is free.
///
/// Counts each look at a slot in `looks`: from 1 to one more than the number of taken slots.
#[inline(always)]
pub fn seek<E: PathEntry>(slots: &[E::Slot], lg: u8, hash: u64, looks: &mut Count) -> Place
    requires small { lg < 40 }
    requires size { length slots.now ≡ 2 ^ lg }
    requires room { length (entries_in E.content slots.now) < 2 ^ lg }
    ensures inside { result.at < length slots.now }
    ensures on_path { IsOnPath E.key lg (map E.content slots.now) hash result.at }
    ensures ends { is_other E.key hash (slot (map E.content slots.now) result.at) ≡ false }
    ensures is_free { result.is_free ≡ is_none (slot (map E.content slots.now) result.at) }
    ensures looked { looks.old < looks.new }
    ensures looks { looks.new ≤ looks.old + length (entries_in E.content slots.now) + 1 }
{
    let size = slots.len();
    let stride = stride_of(hash, lg);
    let mut at = slot_among(hash as usize, size, lg);
    loop {
        match look_at::<E>(slots, at, looks) {
            None => return Place { at, is_free: true },
            Some(entry) => {
                if entry.hash() == hash {
                    return Place { at, is_free: false };
                }
            }
        }
        at = slot_among(at + stride, size, lg);
    }
}

/// How many slots `seek_near` looks at. If hashes are spread, hardly one search in 10^14 needs more, however full the
/// slots of a table are.
pub const NEAR: usize = 512;

/// The slot where a search for a hash ends, as `seek` returns it, if it ends within `NEAR` looks. At least one of the
/// 2^`lg` slots is free.
///
/// Counts each look at a slot in `looks`: from 1 to `NEAR`, and at most one more than the number of taken slots.
#[inline(always)]
pub fn seek_near<E: PathEntry>(
    slots: &[E::Slot],
    lg: u8,
    hash: u64,
    looks: &mut Count,
) -> Option<Place>
    requires small { lg < 40 }
    requires size { length slots.now ≡ 2 ^ lg }
    requires room { length (entries_in E.content slots.now) < 2 ^ lg }
    ensures inside { IfSome result (λ p. p.at < length slots.now) }
    ensures on_path { IfSome result (λ p. IsOnPath E.key lg (map E.content slots.now) hash p.at) }
    ensures ends { IfSome result (λ p. is_other E.key hash (slot (map E.content slots.now) p.at) ≡ false) }
    ensures is_free { IfSome result (λ p. p.is_free ≡ is_none (slot (map E.content slots.now) p.at)) }
    ensures far { IfNone result (looks.new ≡ looks.old + NEAR) }
    ensures looked { looks.old < looks.new }
    ensures few { looks.new ≤ looks.old + NEAR }
    ensures looks { looks.new ≤ looks.old + length (entries_in E.content slots.now) + 1 }
{
    let size = slots.len();
    let stride = stride_of(hash, lg);
    let mut at = slot_among(hash as usize, size, lg);
    for _step in 0..NEAR {
        match look_at::<E>(slots, at, looks) {
            None => return Some(Place { at, is_free: true }),
            Some(entry) => {
                if entry.hash() == hash {
                    return Some(Place { at, is_free: false });
                }
            }
        }
        at = slot_among(at + stride, size, lg);
    }
    None
}

/// The slot that a search for a hash looks at after `steps` steps, below 2^`lg`.
#[inline(always)]
pub(crate) fn slot_after(hash: u64, lg: u8, steps: usize) -> usize
    requires small { lg < 40 }
    requires limited { steps < 2 ^ 40 }
    ensures value { result ≡ probe hash lg steps }
    ensures below { result < 2 ^ lg }
{
    let on = slot_of(hash as usize, lg) + steps * stride_of(hash, lg);
    slot_of(on, lg)
}

/// The hash of the entry in a slot, if any.
#[inline(always)]
pub(crate) fn hash_in<E: SlotEntry>(slot: &E::Slot) -> Option<u64>
    ensures { result ≡ option_map E.key (E.content slot.now) }
{
    let entry = E::in_slot(slot)?;
    Some(entry.hash())
}

/// The hash of the entry in a slot, and 0 for a free slot.
#[inline(always)]
pub(crate) fn hash_or_zero<E: SlotEntry>(slot: &E::Slot) -> u64
    ensures { result ≡ unwrap_or (option_map E.key (E.content slot.now)) 0 }
{
    hash_in::<E>(slot).unwrap_or(0)
}

/// 1 for a slot that holds a hash less than `bound`, otherwise 0.
#[inline(always)]
pub(crate) fn number_below<E: SlotEntry>(slot: &E::Slot, bound: u64) -> usize
    ensures number { result ≡ rank hash_key (map E.key (filled (E.content slot.now ∷ []))) bound }
    ensures below { result ≡ length (below E.key (filled (E.content slot.now ∷ [])) bound) }
    ensures small { result ≤ 1 }
{
    E::is_below(slot, bound) as usize
}

/// Moves the entries with a hash below theta into free slots, in rounds. They are packed first, without a branch on a
/// hash; afterwards the contents of `from` are unspecified.
fn spread<E: SlotEntry, A: Allocator>(
    from: &mut Vec<E::Slot, A>,
    theta: u64,
    slots: &mut [E::Slot],
    lg: u8,
    placed: &mut Count,
    looks: &mut Count,
)
    requires small { lg < 40 }
    requires size { length slots.old ≡ 2 ^ lg }
    requires free { entries_in E.content slots.old ≡ [] }
    requires apart { IsApart E.key (entries_in E.content from.old.items) }
    requires room { length (entries_in E.content from.old.items) ≤ 2 ^ lg }
    ensures laid_out { IsLaidOut E.key lg (map E.content slots.new) }
    ensures map { slot_map E.key E.content slots.new ≡ below E.key (slot_map E.key E.content from.old.items) theta }
    ensures placed { placed.new
        ≡ placed.old + count_by (λ x. nat_lt (E.key x) theta) (entries_in E.content from.old.items) }
    ensures looked { LooksForEach (placed.new - placed.old) looks.old looks.new }
    ensures looks { LooksAtPlaced (placed.new - placed.old) looks.old looks.new }
{
    let count = pack_below::<E>(from, theta);
    from.truncate(count);
    settle_all::<E, A>(from, slots, lg, placed, looks);
}

/// 2^`lg` free slots, in one request for memory. It fails only if memory runs out.
pub fn free_slots<E: PathEntry, A: Allocator + Drop>(
    alloc: A,
    lg: u8,
) -> Result<Vec<E::Slot, A>, AllocError>
    requires { lg < 40 }
    ensures size { IfOk result (λ slots. length slots.items ≡ 2 ^ lg) }
    ensures free { IfOk result (λ slots. entries_in E.content slots.items ≡ []) }
{
    let slots = E::free_slots(alloc, power_of_two(lg))?;
    Ok(slots)
}

/// 2 to the power of a number below 40.
#[inline(always)]
pub(crate) fn power_of_two(lg: u8) -> usize
    requires { lg < 40 }
    ensures { result ≡ 2 ^ lg }
{
    1usize << lg
}

/// Puts a new entry into the free slot `at`, where a search for it ends, and moves every entry below theta to
/// 2^`new_lg` other slots. Counts the moved entries in `placed` and the looks at slots in `looks`.
///
/// It fails only if memory for the other slots runs out; then nothing has changed.
pub fn put_spread<E: SlotEntry + Drop, A: Allocator + Clone>(
    slots: &mut Vec<E::Slot, A>,
    lg: u8,
    new_lg: u8,
    theta: u64,
    at: usize,
    entry: E,
    placed: &mut Count,
    looks: &mut Count,
) -> Result<(), AllocError>
    requires small { new_lg < 40 }
    requires place { IsFreeFor E.key lg (map E.content slots.old.items) at entry }
    requires inside { at < length slots.old.items }
    requires room { length (entries_in E.content slots.old.items) + 1 ≤ 2 ^ new_lg }
    ensures laid_out { OnOk result (IsLaidOut E.key new_lg (map E.content slots.new.items)) }
    ensures map { OnOk result (
        slot_map E.key E.content slots.new.items
        ≡ below E.key (with_entry E.key (slot_map E.key E.content slots.old.items) entry) theta) }
    ensures placed { OnOk result (placed.new ≡ placed.old + length (entries_in E.content slots.new.items)) }
    ensures err { OnErr result (slots.new.items ≡ slots.old.items) }
    ensures placed_err { OnErr result (placed.new ≡ placed.old) }
    ensures looked { LooksForEach (placed.new - placed.old) looks.old looks.new }
    ensures looks { LooksAtPlaced (placed.new - placed.old) looks.old looks.new }
{
    let mut others = free_slots::<E, A>(slots.allocator().clone()?, new_lg)?;
    slots[at] = entry.into_slot();
    spread::<E, A>(slots, theta, &mut others, new_lg, placed, looks);
    *slots = others;
    Ok(())
}
