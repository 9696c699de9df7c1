//! The entries that sketches retain.
ghost use Rattle.std.specs.Prelude.{◌≡◌, ◌<◌};
ghost use Rattle.std.specs.Borrow.{sem};
ghost use Rattle.core_slots.specs.BorrowedSummary.{borrows_summary};

use crate::count::Count;
use crate::slot_entry::{PathEntry, SlotEntry};
use core_laws::{MAX_THETA, SketchEntry};
use std::alloc::{AllocError, Allocator};
use std::marker::Model;

/// The entry of a theta sketch: a hash alone. Contracts see it as its hash.
#[derive(Debug, Clone, Copy)]
pub struct ThetaEntry {
    pub(crate) hash: u64,
}

impl Model for ThetaEntry {
    ghost use Rattle.std.specs.Prelude.{ℕ};

    ghost Value = { ℕ };

    ghost view = { λ e. e.hash };

    ghost inverse = { λ h. record { hash = h } };
}

impl ThetaEntry {
    /// The entry of a hash from 1 to `MAX_THETA` - 1.
    pub fn new(hash: u64) -> ThetaEntry
        requires nonzero { 0 < hash }
        requires carried { hash < MAX_THETA }
        ensures { result ≡ hash }
    {
        ThetaEntry { hash }
    }

    /// The entry of any 64 bits, for a caller that doesn't know yet whether they are a hash that may be retained: an
    /// insertion screens them, and a reader of images checks them.
    pub fn of_hash(bits: u64) -> ThetaEntry
        ensures { result ≡ bits }
    {
        ThetaEntry { hash: bits }
    }

    /// Its hash, from 1 to `MAX_THETA` - 1 in every entry that a table or a compact state holds.
    pub fn hash(&self) -> u64
        ensures { result ≡ self.now }
    {
        self.hash
    }
}

impl SketchEntry for ThetaEntry {
    ghost use Rattle.core_laws.specs.Entries.{hash_key};

    ghost key = { hash_key };

    #[inline(always)]
    fn hash(&self) -> u64 {
        self.hash
    }
}

impl PathEntry for ThetaEntry {
    ghost use Rattle.core_slots.specs.HashSlots.{hash_entry};

    /// Its hash, and 0 in a free slot.
    type Slot = ThetaEntry;

    ghost content = { hash_entry };

    #[inline(always)]
    fn free_slot() -> ThetaEntry {
        ThetaEntry { hash: 0 }
    }

    fn free_slots<A: Allocator + Drop>(
        alloc: A,
        count: usize,
    ) -> Result<Vec<ThetaEntry, A>, AllocError> {
        let mut slots = Vec::with_capacity(alloc, count)?;
        slots.resize(count, ThetaEntry { hash: 0 })?;
        Ok(slots)
    }

    #[inline(always)]
    fn into_slot(self) -> ThetaEntry {
        self
    }

    #[inline(always)]
    fn look<'a>(slot: &'a ThetaEntry, looks: &mut Count) -> Option<&'a ThetaEntry> {
        looks.tick();
        Self::in_slot(slot)
    }
}

impl SlotEntry for ThetaEntry {
    #[inline(always)]
    fn from_slot(slot: ThetaEntry) -> Option<ThetaEntry> {
        if slot.hash == 0 { None } else { Some(slot) }
    }

    #[inline(always)]
    fn take_out(slot: &mut ThetaEntry) -> ThetaEntry {
        *slot
    }

    #[inline(always)]
    fn is_below(slot: &ThetaEntry, bound: u64) -> bool {
        // A free slot's 0 wraps to the greatest number, which is never less than the right side.
        slot.hash.wrapping_sub(1) < bound.saturating_sub(1)
    }

    #[inline(always)]
    fn hash_or_greatest(slot: &ThetaEntry) -> u64 {
        if slot.hash == 0 { u64::MAX } else { slot.hash }
    }

    #[inline(always)]
    fn in_slot(slot: &ThetaEntry) -> Option<&ThetaEntry> {
        if slot.hash == 0 { None } else { Some(slot) }
    }
}

/// The entry of a tuple sketch: a hash and its summary. Contracts see both.
#[derive(Debug, Clone, Drop)]
pub struct TupleEntry<S> {
    pub(crate) hash: u64,
    pub(crate) summary: S,
}

impl<S> TupleEntry<S> {
    /// The entry of a hash from 1 to `MAX_THETA` - 1.
    pub fn new(hash: u64, summary: S) -> TupleEntry<S>
        requires nonzero { 0 < hash }
        requires carried { hash < MAX_THETA }
        ensures { result ≡ record { hash = hash; summary = summary } }
    {
        TupleEntry { hash, summary }
    }

    /// The entry of any 64 bits, for a caller that doesn't know yet whether they are a hash that may be retained: an
    /// insertion screens them, and a reader of images checks them.
    pub fn of_hash(bits: u64, summary: S) -> TupleEntry<S>
        ensures { result ≡ record { hash = bits; summary = summary } }
    {
        TupleEntry {
            hash: bits,
            summary,
        }
    }

    /// Its hash, from 1 to `MAX_THETA` - 1 in every entry that a table or a compact state holds.
    pub fn hash(&self) -> u64
        ensures { result ≡ self.now.hash }
    {
        self.hash
    }

    /// Its summary.
    pub fn summary(&self) -> &S
        ensures { result.now ≡ self.now.summary }
    {
        &self.summary
    }

    /// Its summary, to be written in place. The hash stays.
    pub fn summary_mut(&mut self) -> &mut S
        ensures* writes_back { sem 𝓛 (borrows_summary S.row self.entry result) }
        ensures value { result.now ≡ self.old.summary }
    {
        &mut self.summary
    }
}

impl<S> SketchEntry for TupleEntry<S> {
    ghost use Rattle.core_slots.specs.Entry.{tuple_key};

    ghost key = { tuple_key };

    #[inline(always)]
    fn hash(&self) -> u64 {
        self.hash
    }
}

impl<S: Drop> PathEntry for TupleEntry<S> {
    type Slot = Option<TupleEntry<S>>;

    ghost content = { λ slot. slot };

    #[inline(always)]
    fn free_slot() -> Option<TupleEntry<S>> {
        None
    }

    fn free_slots<A: Allocator + Drop>(
        alloc: A,
        count: usize,
    ) -> Result<Vec<Option<TupleEntry<S>>, A>, AllocError> {
        let mut slots = Vec::with_capacity(alloc, count)?;
        slots.resize_with(count, || None)?;
        Ok(slots)
    }

    #[inline(always)]
    fn into_slot(self) -> Option<TupleEntry<S>> {
        Some(self)
    }

    #[inline(always)]
    fn look<'a>(slot: &'a Option<TupleEntry<S>>, looks: &mut Count) -> Option<&'a TupleEntry<S>> {
        looks.tick();
        Self::in_slot(slot)
    }
}

impl<S: Drop> SlotEntry for TupleEntry<S> {
    #[inline(always)]
    fn from_slot(slot: Option<TupleEntry<S>>) -> Option<TupleEntry<S>> {
        slot
    }

    #[inline(always)]
    fn take_out(slot: &mut Option<TupleEntry<S>>) -> Option<TupleEntry<S>> {
        slot.take()
    }

    #[inline(always)]
    fn is_below(slot: &Option<TupleEntry<S>>, bound: u64) -> bool {
        Self::hash_or_greatest(slot) < bound
    }

    #[inline(always)]
    fn hash_or_greatest(slot: &Option<TupleEntry<S>>) -> u64 {
        // Through a reference: otherwise the compiled code reads the number behind a branch.
        let hash = match slot {
            None => &u64::MAX,
            Some(entry) => &entry.hash,
        };
        *hash
    }

    #[inline(always)]
    fn in_slot(slot: &Option<TupleEntry<S>>) -> Option<&TupleEntry<S>> {
        slot.as_ref()
    }
}
