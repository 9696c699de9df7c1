//! Entries, and how images spell them.
ghost use Rattle.std.specs.Prelude.{◌≡◌, ℕ, ◌<◌, ◌≤◌, ◌^◌, ◌++◌, List, length, map, None, true, IfOk, IfErr, OnOk};
ghost use Rattle.std.specs.List.{AllByRecursion, flat_map};
ghost use Rattle.core_images.specs.Check.{ascends_from};
ghost use Rattle.core_images.specs.Entry.{Holds};
ghost use Rattle.core_images.specs.Read.{ReadsPrefix, IsRefused};
ghost use Rattle.core_laws.specs.Refusal.{Refuses};

use crate::blocks::{FixedEntry, read_and_compare_in_blocks, read_in_blocks, write_in_blocks};
use crate::check::ascends_from_zero;
use core_laws::SketchEntry;
use core_slots::ThetaEntry;
use sketch_base::{Error, SketchBytes, SketchSlice};
use std::alloc::Allocator;

/// An entry that images spell: by the eight bytes of its hash, the lowest first, and perhaps more. What it stores
/// outside itself is in memory of `A`.
pub trait ImageEntry<A: Allocator>: SketchEntry {
    /// Which bytes spell which entry.
    ghost spells: { List ℕ → Self → Type 0 };
    /// Which entries can be written.
    ghost is_value: { Self → Type 0 };
    /// The bytes written of an entry.
    ghost text: { Self → List ℕ };

    /// Appends the bytes of each entry, in their order. Refused with `OutOfMemory` alone; then the contents of
    /// `bytes` are unspecified.
    fn write_each<B: Allocator>(entries: &[Self], bytes: &mut SketchBytes<B>) -> Result<(), Error>
        ensures ok { OnOk result (bytes.new.bytes ≡ bytes.old.bytes ++ flat_map text entries.now) }
        ensures values { OnOk result (AllByRecursion is_value entries.now) }
        ensures refused { Refuses result None true };

    /// Reads `count` entries from the front of the bytes, in memory of the allocator. Refused with `InvalidData` only
    /// if the bytes don't begin with `count` entries, and with `OutOfMemory`. It allocates room for at most one entry
    /// per eight bytes.
    fn read_each(alloc: A, bytes: &[u8], count: u32) -> Result<Vec<Self, A>, Error>
    where
        Self: Drop,
        A: Drop,
        ensures ok { IfOk result (λ v. Holds spells bytes.now count v.items) }
        ensures refused { IfErr result (λ e. IsRefused e ((xs : List Self) × Holds spells bytes.now count xs)) };

    /// Reads as `read_each` does, and returns beside the entries whether each hash is above the one before it, and
    /// the first above 0. Refused as `read_each` is. Entries of one size may be compared while they are in a near
    /// cache.
    fn read_and_compare(alloc: A, bytes: &[u8], count: u32) -> Result<(Vec<Self, A>, bool), Error>
    where
        Self: Drop,
        A: Drop,
        ensures ok { IfOk result (λ r. Holds spells bytes.now count r.0.items) }
        ensures ascends { IfOk result (λ r. r.1 ≡ ascends_from 0 (map Self.key r.0.items)) }
        ensures refused { IfErr result (λ e. IsRefused e ((xs : List Self) × Holds spells bytes.now count xs)) }
    {
        let entries = Self::read_each(alloc, bytes, count)?;
        let ascends = ascends_from_zero(entries.as_slice());
        Ok((entries, ascends))
    }

    /// No spelling is a prefix of another, and each spells one entry.
    ghost one_spelling: { (a b u v : List ℕ) (x y : Self)
        → spells a x
        → spells b y
        → a ++ u ≡ b ++ v
        → (a ≡ b) × (x ≡ y) };

    /// The bytes written of a value spell it.
    ghost text_spells: { (x : Self) → is_value x → Self.key x < 2 ^ 64 → spells (text x) x };

    /// A spelling has at least eight bytes.
    ghost has_hash: { (a : List ℕ) (x : Self) → spells a x → 8 ≤ length a };
}

impl FixedEntry<8> for ThetaEntry {
    ghost use Rattle.std.specs.Prelude.{⊤};
    ghost use Rattle.std.specs.Int.{w64, to_le_bytes, from_le_bytes};
    ghost use Rattle.core_images.specs.Entry.{SpellsHash};
    ghost use Rattle.core_images.specs.HashSpelling.{hash_spelled, hash_long};

    ghost spells = { SpellsHash };

    ghost is_value = { λ _. ⊤ };

    ghost text = { λ h. to_le_bytes w64 h };

    ghost entry_of = { from_le_bytes w64 };

    #[inline(always)]
    fn to_text(&self) -> [u8; 8] {
        u64::to_le_bytes(self.hash())
    }

    #[inline(always)]
    fn of_text(spelling: &[u8; 8]) -> ThetaEntry {
        ThetaEntry::of_hash(u64::from_le_bytes(*spelling))
    }

    ghost spelled = { hash_spelled };

    ghost is_long = { hash_long };
}

impl<A: Allocator> ImageEntry<A> for ThetaEntry {
    ghost use Rattle.std.specs.Prelude.{⊤};
    ghost use Rattle.std.specs.Int.{w64, to_le_bytes};
    ghost use Rattle.core_images.specs.Entry.{SpellsHash};
    ghost use Rattle.core_images.specs.HashSpelling.{one_hash, hash_written, hash_long};

    ghost spells = { SpellsHash };

    ghost is_value = { λ _. ⊤ };

    ghost text = { λ h. to_le_bytes w64 h };

    #[inline(always)]
    fn write_each<B: Allocator>(
        entries: &[ThetaEntry],
        bytes: &mut SketchBytes<B>,
    ) -> Result<(), Error> {
        write_in_blocks::<ThetaEntry, 8, B>(entries, bytes)
    }

    #[inline(always)]
    fn read_each(alloc: A, bytes: &[u8], count: u32) -> Result<Vec<ThetaEntry, A>, Error>
    where
        A: Drop,
    {
        read_in_blocks::<ThetaEntry, 8, A>(alloc, bytes, count)
    }

    #[inline(always)]
    fn read_and_compare(
        alloc: A,
        bytes: &[u8],
        count: u32,
    ) -> Result<(Vec<ThetaEntry, A>, bool), Error>
    where
        A: Drop,
    {
        read_and_compare_in_blocks::<ThetaEntry, 8, A>(alloc, bytes, count)
    }

    ghost one_spelling = { one_hash };

    ghost text_spells = { λ x _ small. hash_written x small };

    ghost has_hash = { hash_long };
}
