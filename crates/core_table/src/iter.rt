//! The iterator over the entries of a table. Contracts see it as the entries that it has left.
ghost use Rattle.std.specs.Prelude.{◌≡◌, ◌^◌, ◌-◌, ◌≤◌, [], ◌∷◌, None, false, if◌then◌else◌, is_some, nat_lt};
ghost use Rattle.std.specs.Prelude.{length, map, IsSome, IfSome, MatchOption};
ghost use Rattle.std.specs.Iterator.{YieldsFirstRef, UpTo, item_count};
ghost use Rattle.std.specs.List.{AllByRecursion};
ghost use Rattle.std.specs.Option.{option_copied};
ghost use Rattle.std.specs.Simd.Lanes.{mask_l};
ghost use Rattle.std.specs.Iterator.SizeHint.{IsWithinCount};
ghost use Rattle.core_slots.specs.SlotLayout.{filled, entries_in};
ghost use Rattle.core_table.specs.Gathering.{from_below};
ghost use Rattle.core_table.specs.Marks.{AreMarked, under};

use core_slots::SlotEntry;
use std::alloc::AllocError;
use std::marker::{Model, PhantomData};

/// Slots, and a mark for each of the first `ahead` that holds an entry, or one below a bound.
pub(crate) struct Marked<'a, E: SlotEntry> {
    pub(crate) slots: &'a [E::Slot],
    /// How many slots the marks cover, at most 64.
    pub(crate) ahead: usize,
    /// Bit k is 1 if the k-th slot holds such an entry.
    pub(crate) marks: u64,
}

impl<'a, E: SlotEntry> Clone for Marked<'a, E> {
    fn clone(&self) -> Result<Self, AllocError> {
        Ok(*self)
    }
}

impl<'a, E: SlotEntry> Copy for Marked<'a, E> {}

/// The entries of a table, each once, in an unspecified order.
///
/// It makes the marks of 64 slots at once: whether a slot holds an entry is as good as random, and a branch on each
/// would be mispredicted half the time.
#[derive(Drop)]
pub struct SketchHashTableIter<'a, E: SlotEntry> {
    rest: Marked<'a, E>,
    // No bytes: it names the entries, since the type of a slot doesn't show their lifetimes.
    of: PhantomData<E>,
}

impl<'a, E: SlotEntry> Model for SketchHashTableIter<'a, E> {
    ghost use Rattle.std.specs.Prelude.{List, map};
    ghost use Rattle.core_slots.specs.SlotLayout.{entries_in};
    ghost use Rattle.core_table.specs.Marks.{AreMarked};

    ghost Value = { List E };

    ghost view = { λ s. entries_in E.content s.rest.slots.now };

    ghost invariant = { λ s. AreMarked (map E.content s.rest.slots.now) s.rest.ahead s.rest.marks };
}

impl<'a, E: SlotEntry> SketchHashTableIter<'a, E> {
    pub(crate) fn over(slots: &'a [E::Slot]) -> Self
        ensures { result ≡ entries_in E.content slots.entry.now }
    {
        SketchHashTableIter {
            rest: Marked {
                slots,
                ahead: 0,
                marks: 0,
            },
            of: PhantomData,
        }
    }
}

/// How many slots are marked at once.
const BLOCK: usize = 64;

/// Whether a slot holds an entry below theta.
#[inline(always)]
fn holds_below<E: SlotEntry>(slot: &E::Slot, theta: u64) -> bool
    ensures { MatchOption (E.content slot.now) (result ≡ false) (λ x. result ≡ nat_lt (E.key x) theta) }
{
    E::is_below(slot, theta)
}

/// 1 for a slot that holds an entry, below the bound if there is one, and otherwise 0.
#[inline(always)]
fn mark_of<E: SlotEntry>(slot: &E::Slot, bound: Option<u64>) -> u64
    ensures { result ≡ if is_some (under E.key bound E.content slot.now) then 1 else 0 }
{
    match bound {
        Some(theta) => holds_below::<E>(slot, theta) as u64,
        None => E::in_slot(slot).is_some() as u64,
    }
}

/// A bit for each of a few slots, the lowest for the first: whether the slot holds an entry, below the bound if there
/// is one. It takes no branch on what a slot holds.
#[inline(always)]
fn marks_of<E: SlotEntry>(slots: &[E::Slot], bound: Option<u64>) -> u64
    requires { length slots.now ≤ 64 }
    ensures { result ≡ mask_l (map is_some (map (under E.key bound E.content) slots.now)) }
{
    let mut marks = 0u64;
    for i in 0..slots.len() {
        marks = 2 * marks + mark_of::<E>(&slots[slots.len() - 1 - i], bound);
    }
    marks
}

/// The slots from the first block that has a slot to mark, with the marks of that block; no slots if there is none.
#[inline(always)]
fn marked_from<'a, E: SlotEntry + 'a>(slots: &'a [E::Slot], bound: Option<u64>) -> Marked<'a, E>
    ensures marked { AreMarked (map (under E.key bound E.content) result.slots.now) result.ahead result.marks }
    ensures same { filled (map (under E.key bound E.content) result.slots.now)
        ≡ filled (map (under E.key bound E.content) slots.entry.now) }
    ensures none { result.marks ≡ 0 → filled (map (under E.key bound E.content) result.slots.now) ≡ [] }
{
    let mut left = slots;
    while !left.is_empty() {
        let ahead = left.len().min(BLOCK);
        let marks = marks_of::<E>(&left[..ahead], bound);
        if marks != 0 {
            return Marked {
                slots: left,
                ahead,
                marks,
            };
        }
        left = &left[ahead..];
    }
    Marked {
        slots: left,
        ahead: 0,
        marks: 0,
    }
}

/// The rest, with a mark if an entry is left: unchanged if it has a mark already, otherwise from a later block on.
#[inline(always)]
fn marked_ahead<'a, E: SlotEntry + 'a>(rest: Marked<'a, E>, bound: Option<u64>) -> Marked<'a, E>
    requires marked { AreMarked (map (under E.key bound E.content) rest.slots.now) rest.ahead rest.marks }
    ensures marked { AreMarked (map (under E.key bound E.content) result.slots.now) result.ahead result.marks }
    ensures same { filled (map (under E.key bound E.content) result.slots.now)
        ≡ filled (map (under E.key bound E.content) rest.entry.slots.now) }
    ensures none { result.marks ≡ 0 → filled (map (under E.key bound E.content) result.slots.now) ≡ [] }
{
    if rest.marks != 0 {
        return rest;
    }
    marked_from(&rest.slots[rest.ahead..], bound)
}

/// The first entry, below the bound if there is one, and the slots after it; no entry if there is none.
#[inline(always)]
pub(crate) fn first_in<'a, E: SlotEntry + 'a>(
    left: Marked<'a, E>,
    bound: Option<u64>,
) -> (Option<&'a E>, Marked<'a, E>)
    requires marked { AreMarked (map (under E.key bound E.content) left.slots.now) left.ahead left.marks }
    ensures marked { AreMarked (map (under E.key bound E.content) result.1.slots.now) result.1.ahead result.1.marks }
    ensures first { filled (map (under E.key bound E.content) left.entry.slots.now)
        ≡ filled (option_copied result.0 ∷ map (under E.key bound E.content) result.1.slots.now) }
    ensures none { result.0 ≡ None → filled (map (under E.key bound E.content) left.entry.slots.now) ≡ [] }
{
    let rest = marked_ahead(left, bound);
    if rest.marks == 0 {
        return (None, rest);
    }
    let at = rest.marks.trailing_zeros() as usize;
    // Two shifts, since the first mark may be at bit 63.
    let behind = Marked {
        slots: &rest.slots[at + 1..],
        ahead: rest.ahead - (at + 1),
        marks: (rest.marks >> at) >> 1,
    };
    (E::in_slot(&rest.slots[at]), behind)
}

/// How many slots are skipped at once.
const PASSED: usize = 8;

/// Whether some of a few slots hold an entry below theta. It takes no branch on what a slot holds.
#[inline(always)]
fn any_below<E: SlotEntry>(block: &[E::Slot], theta: u64) -> bool
    ensures { result ≡ false → AllByRecursion (λ x. theta ≤ E.key x) (entries_in E.content block.now) }
{
    let mut any = false;
    for slot in block {
        any |= holds_below::<E>(slot, theta);
    }
    any
}

/// The slots from the first one that holds an entry below theta.
#[inline(always)]
fn slots_from_below<'a, E: SlotEntry + 'a>(slots: &'a [E::Slot], theta: u64) -> &'a [E::Slot]
    ensures { entries_in E.content result.now ≡ from_below E.key theta (entries_in E.content slots.entry.now) }
{
    let mut left = slots;
    'pass_blocks: while left.len() >= PASSED {
        let (block, after) = left.split_at(PASSED);
        if any_below::<E>(block, theta) {
            break;
        }
        left = after;
    }
    'pass_each: while let Some((first, others)) = left.split_first() {
        if holds_below::<E>(first, theta) {
            break;
        }
        left = others;
    }
    left
}

impl<'a, E: SlotEntry + 'a> SketchHashTableIter<'a, E> {
    /// Skips the entries in front whose hashes are not below theta.
    #[inline(always)]
    pub fn pass_to_below(&mut self, theta: u64)
        ensures { self.new ≡ from_below E.key theta self.old }
    {
        let slots = slots_from_below::<E>(self.rest.slots, theta);
        // Only the first slot: the caller takes its entry and mostly passes on, so the marks of a whole block would
        // be lost.
        let ahead = slots.len().min(1);
        let marks = marks_of::<E>(&slots[..ahead], None);
        self.rest = Marked {
            slots,
            ahead,
            marks,
        };
    }
}

impl<'a, E: SlotEntry + 'a> Iterator for SketchHashTableIter<'a, E> {
    type Item = &'a E;

    ghost next_gives = { YieldsFirstRef (λ s. s) };

    ghost remaining = { item_count (λ s. s) };

    fn next(&mut self) -> Option<&'a E> {
        let (first, rest) = first_in(self.rest, None);
        self.rest = rest;
        first
    }

    /// From 0 to a number that is at least the number of entries left.
    fn size_hint(&self) -> (usize, Option<usize>)
        ensures lower { IsWithinCount result.0 (item_count (λ s. s) self.now) }
        ensures upper { IfSome result.1 (UpTo (item_count (λ s. s) self.now)) }
        ensures from_none { result.0 ≡ 0 }
        ensures bounded { IsSome result.1 }
    {
        (0, Some(self.rest.slots.len()))
    }
}
