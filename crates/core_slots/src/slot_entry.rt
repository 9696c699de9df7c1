//! The entries that slots hold.
ghost use Rattle.std.specs.Prelude.{◌≡◌, ◌+◌, ◌<◌, ◌≤◌, [], length, map, Option, Some, None, IfOk};
ghost use Rattle.std.specs.Option.{option_copied};
ghost use Rattle.core_slots.specs.SlotLayout.{filled, holds_below, hash_or_greatest};

use crate::count::Count;
use core_laws::SketchEntry;
use std::alloc::{AllocError, Allocator};

/// An entry whose slots are searched. Each slot is free or holds an entry.
///
/// Only `look` reads a slot, and it counts. So a function that knows no more of its entries than this trait examines
/// no slot without a count. `SlotEntry` has the members that read slots without one.
pub trait PathEntry: SketchEntry {
    /// The type of a slot in memory.
    type Slot: Drop;

    /// The entry that a slot holds, if any.
    ghost content: { Self.Slot → Option Self };

    /// A free slot.
    fn free_slot() -> Self::Slot
        ensures { content result ≡ None };

    /// `count` free slots, in one request for memory. It fails only if memory runs out.
    fn free_slots<A: Allocator + Drop>(
        alloc: A,
        count: usize,
    ) -> Result<Vec<Self::Slot, A>, AllocError>
        ensures size { IfOk result (λ slots. length slots.items ≡ count) }
        ensures free { IfOk result (λ slots. filled (map content slots.items) ≡ []) };

    /// The slot of this entry, whose hash is not 0.
    fn into_slot(self) -> Self::Slot
        requires { 0 < Self.key self }
        ensures { content result ≡ Some self };

    /// The entry that a slot holds, if any. It is one look, and is counted.
    fn look<'a>(slot: &'a Self::Slot, looks: &mut Count) -> Option<&'a Self>
        ensures content { option_copied result ≡ content slot.now }
        ensures counted { looks.new ≡ looks.old + 1 };
}

/// An entry that a table keeps in slots. Its members read a slot without a count, for code that passes over all slots
/// or moves entries out of them.
pub trait SlotEntry: PathEntry {
    /// The entry that a slot held, if any.
    fn from_slot(slot: Self::Slot) -> Option<Self>
        ensures { result ≡ Self.content slot };

    /// The contents of a slot, taken out of it. Its contents are unspecified afterwards, since it is about to be
    /// written or dropped: a slot of one word is read, and not written.
    fn take_out(slot: &mut Self::Slot) -> Self::Slot
        ensures { Self.content result ≡ Self.content slot.old };

    /// Whether a slot holds an entry whose hash is less than `bound`. For a slot of one word this is one comparison.
    fn is_below(slot: &Self::Slot, bound: u64) -> bool
        ensures { result ≡ holds_below Self.key bound (Self.content slot.now) };

    /// The hash of the entry that a slot holds, and the greatest number of 64 bits for a free slot. It takes no
    /// branch.
    fn hash_or_greatest(slot: &Self::Slot) -> u64
        ensures { result ≡ hash_or_greatest Self.key (Self.content slot.now) };

    /// The entry that a slot holds, if any.
    fn in_slot(slot: &Self::Slot) -> Option<&Self>
        ensures { option_copied result ≡ Self.content slot.now };
}
