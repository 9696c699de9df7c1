//! Summaries of tuple sketches, and how images spell them.
ghost use Rattle.std.specs.Prelude.{◌≡◌, ℕ, ◌++◌, List, length, None, true, IfOk, IfErr, OnOk};
ghost use Rattle.std.specs.List.{AllByRecursion, flat_map};
ghost use Rattle.core_images.specs.Entry.{Holds};
ghost use Rattle.core_images.specs.Read.{ReadsPrefix, IsRefused};
ghost use Rattle.core_images.specs.Summary.{SpellsTuple, is_tuple_value, tuple_text};
ghost use Rattle.core_slots.specs.declared.entry.TupleEntry.{TupleEntry};
ghost use Rattle.core_laws.specs.Refusal.{Refuses};

use crate::blocks::{read_in_blocks, write_in_blocks};
use crate::entry::ImageEntry;
use core_slots::TupleEntry;
use sketch_base::{Error, ErrorKind, SketchBytes, SketchSlice};
use std::alloc::Allocator;

/// A summary that images spell. What it stores outside itself is in memory of `A`.
///
/// A type defines which summaries are values, the bytes written of each, and which bytes spell which value. The bytes
/// written of a value are read as that value, whatever bytes follow.
pub trait TupleSummaryValue<A: Allocator> {
    /// Which bytes spell which summary.
    ghost spells: { List ℕ → Self → Type 0 };
    /// Which summaries are values. Every summary that the type can store is one (clause `value`).
    ghost is_value: { Self → Type 0 };
    /// The bytes written of a summary.
    ghost text: { Self → List ℕ };

    /// The number of bytes that `serialize_value` writes. Every summary is a value (clause `value`).
    fn serialize_size(&self) -> usize
        ensures size { result ≡ length (text self.now) }
        ensures value { is_value self.now };

    /// Appends its bytes, as many as its `serialize_size`. Refused with `OutOfMemory` alone; then the contents of
    /// `bytes` are unspecified.
    fn serialize_value<B: Allocator>(&self, bytes: &mut SketchBytes<B>) -> Result<(), Error>
        ensures ok { OnOk result (bytes.new.bytes ≡ bytes.old.bytes ++ text self.now) }
        ensures value { OnOk result (is_value self.now) }
        ensures refused { Refuses result None true };

    /// Appends the bytes of each entry, in their order: those of its hash, and then those of its summary. A type
    /// whose summaries have one size may write many at once; the bytes are the same. Refused with `OutOfMemory`
    /// alone; then the contents of `bytes` are unspecified.
    fn serialize_entries<B: Allocator>(
        entries: &[TupleEntry<Self>],
        bytes: &mut SketchBytes<B>,
    ) -> Result<(), Error>
        ensures ok { OnOk result (bytes.new.bytes ≡ bytes.old.bytes ++ flat_map (tuple_text text) entries.now) }
        ensures values { OnOk result (AllByRecursion (is_tuple_value is_value) entries.now) }
        ensures refused { Refuses result None true }
    {
        for entry in entries {
            bytes.write_u64_le(entry.hash())?;
            entry.summary().serialize_value(bytes)?;
        }
        Ok(())
    }

    /// Reads the summary that a prefix of the bytes spells, and moves past that prefix. Refused with `InvalidData`
    /// only if no prefix spells one, and with `OutOfMemory`; then how far the cursor has moved is unspecified.
    fn deserialize_value(alloc: &A, slice: &mut SketchSlice<'_>) -> Result<Self, Error>
        ensures { ReadsPrefix (λ x. λ rest. (first : List ℕ) × spells first x × (slice.old ≡ first ++ rest))
            slice.new result };

    /// Reads `count` entries from the front of the bytes, each the eight bytes of its hash and then a summary, in
    /// memory of the allocator. Refused with `InvalidData` only if the bytes don't begin with `count` entries, and
    /// with `OutOfMemory`. It allocates room for at most one entry per eight bytes.
    fn deserialize_entries(
        alloc: A,
        bytes: &[u8],
        count: u32,
    ) -> Result<Vec<TupleEntry<Self>, A>, Error>
    where
        Self: Drop,
        A: Drop,
        ensures ok { IfOk result (λ v. Holds (SpellsTuple spells) bytes.now count v.items) }
        ensures refused { IfErr result (λ e.
            IsRefused e ((xs : List (TupleEntry Self)) × Holds (SpellsTuple spells) bytes.now count xs)) }
    {
        // Each entry takes at least eight bytes: never allocate room for more entries than the bytes can have.
        if bytes.len() / 8 < count as usize {
            return Err(Error::new(ErrorKind::InvalidData));
        }
        let mut entries = Vec::with_capacity(alloc, count as usize)?;
        let mut slice = SketchSlice::new(bytes);
        for _i in 0..count {
            let hash = slice.read_u64_le()?;
            let summary = Self::deserialize_value(entries.allocator(), &mut slice)?;
            entries.push(TupleEntry::of_hash(hash, summary))?;
        }
        Ok(entries)
    }

    /// No spelling is a prefix of another, and each spells one summary.
    ghost one_spelling: { (a b u v : List ℕ) (x y : Self)
        → spells a x
        → spells b y
        → a ++ u ≡ b ++ v
        → (a ≡ b) × (x ≡ y) };

    /// The bytes written of a value spell it.
    ghost text_spells: { (x : Self) → is_value x → spells (text x) x };
}

/// The eight bytes of its hash, then the bytes of its summary.
impl<S: TupleSummaryValue<A> + Drop, A: Allocator> ImageEntry<A> for TupleEntry<S> {
    ghost use Rattle.core_images.specs.Summary.{SpellsTuple, is_tuple_value, tuple_text};
    ghost use Rattle.core_images.specs.SummarySpelling.{one_tuple, tuple_written, tuple_long};

    ghost spells = { SpellsTuple S.spells };

    ghost is_value = { is_tuple_value S.is_value };

    ghost text = { tuple_text S.text };

    fn write_each<B: Allocator>(
        entries: &[TupleEntry<S>],
        bytes: &mut SketchBytes<B>,
    ) -> Result<(), Error> {
        S::serialize_entries(entries, bytes)
    }

    fn read_each(alloc: A, bytes: &[u8], count: u32) -> Result<Vec<TupleEntry<S>, A>, Error>
    where
        A: Drop,
    {
        S::deserialize_entries(alloc, bytes, count)
    }

    ghost one_spelling = { one_tuple S.spells S.one_spelling };

    ghost text_spells = { λ x v small. tuple_written S.spells S.text x small (S.text_spells x.summary v) };

    ghost has_hash = { tuple_long S.spells };
}

/// Four bytes, the lowest first.
impl<A: Allocator> TupleSummaryValue<A> for u32 {
    ghost use Rattle.std.specs.Prelude.{◌<◌, ◌^◌};
    ghost use Rattle.std.specs.Int.{w32, to_le_bytes};
    ghost use Rattle.core_images.specs.Summary.{SpellsNumber};
    ghost use Rattle.core_images.specs.SummarySpelling.{one_number, four_written};

    ghost spells = { SpellsNumber 4 };

    ghost is_value = { λ x. x < 2 ^ 32 };

    ghost text = { λ x. to_le_bytes w32 x };

    fn serialize_size(&self) -> usize {
        u32::to_le_bytes(*self).len()
    }

    #[inline(always)]
    fn serialize_value<B: Allocator>(&self, bytes: &mut SketchBytes<B>) -> Result<(), Error> {
        bytes.write_u32_le(*self)
    }

    #[inline(always)]
    fn deserialize_value(_alloc: &A, slice: &mut SketchSlice<'_>) -> Result<Self, Error> {
        slice.read_u32_le()
    }

    fn serialize_entries<B: Allocator>(
        entries: &[TupleEntry<u32>],
        bytes: &mut SketchBytes<B>,
    ) -> Result<(), Error> {
        write_in_blocks::<TupleEntry<u32>, 12, B>(entries, bytes)
    }

    fn deserialize_entries(
        alloc: A,
        bytes: &[u8],
        count: u32,
    ) -> Result<Vec<TupleEntry<u32>, A>, Error>
    where
        A: Drop,
    {
        read_in_blocks::<TupleEntry<u32>, 12, A>(alloc, bytes, count)
    }

    ghost one_spelling = { one_number 4 };

    ghost text_spells = { four_written };
}

/// Eight bytes, the lowest first.
impl<A: Allocator> TupleSummaryValue<A> for u64 {
    ghost use Rattle.std.specs.Prelude.{◌<◌, ◌^◌};
    ghost use Rattle.std.specs.Int.{w64, to_le_bytes};
    ghost use Rattle.core_images.specs.Summary.{SpellsNumber};
    ghost use Rattle.core_images.specs.SummarySpelling.{one_number, eight_written};

    ghost spells = { SpellsNumber 8 };

    ghost is_value = { λ x. x < 2 ^ 64 };

    ghost text = { λ x. to_le_bytes w64 x };

    fn serialize_size(&self) -> usize {
        u64::to_le_bytes(*self).len()
    }

    #[inline(always)]
    fn serialize_value<B: Allocator>(&self, bytes: &mut SketchBytes<B>) -> Result<(), Error> {
        bytes.write_u64_le(*self)
    }

    #[inline(always)]
    fn deserialize_value(_alloc: &A, slice: &mut SketchSlice<'_>) -> Result<Self, Error> {
        slice.read_u64_le()
    }

    fn serialize_entries<B: Allocator>(
        entries: &[TupleEntry<u64>],
        bytes: &mut SketchBytes<B>,
    ) -> Result<(), Error> {
        write_in_blocks::<TupleEntry<u64>, 16, B>(entries, bytes)
    }

    fn deserialize_entries(
        alloc: A,
        bytes: &[u8],
        count: u32,
    ) -> Result<Vec<TupleEntry<u64>, A>, Error>
    where
        A: Drop,
    {
        read_in_blocks::<TupleEntry<u64>, 16, A>(alloc, bytes, count)
    }

    ghost one_spelling = { one_number 8 };

    ghost text_spells = { eight_written };
}

/// Four bytes in two's complement, the lowest first.
impl<A: Allocator> TupleSummaryValue<A> for i32 {
    ghost use Rattle.std.specs.Prelude.{FitsSigned};
    ghost use Rattle.std.specs.Int.{w32, to_le_bytes, cast_unsigned};
    ghost use Rattle.core_images.specs.Summary.{SpellsSigned};
    ghost use Rattle.core_images.specs.SummarySpelling.{one_signed, signed_four_written};

    ghost spells = { SpellsSigned w32 4 };

    ghost is_value = { FitsSigned w32 };

    ghost text = { λ x. to_le_bytes w32 (cast_unsigned w32 x) };

    fn serialize_size(&self) -> usize {
        i32::to_le_bytes(*self).len()
    }

    #[inline(always)]
    fn serialize_value<B: Allocator>(&self, bytes: &mut SketchBytes<B>) -> Result<(), Error> {
        bytes.write_i32_le(*self)
    }

    #[inline(always)]
    fn deserialize_value(_alloc: &A, slice: &mut SketchSlice<'_>) -> Result<Self, Error> {
        let bits = slice.read_u32_le()?;
        Ok(bits.cast_signed())
    }

    fn serialize_entries<B: Allocator>(
        entries: &[TupleEntry<i32>],
        bytes: &mut SketchBytes<B>,
    ) -> Result<(), Error> {
        write_in_blocks::<TupleEntry<i32>, 12, B>(entries, bytes)
    }

    fn deserialize_entries(
        alloc: A,
        bytes: &[u8],
        count: u32,
    ) -> Result<Vec<TupleEntry<i32>, A>, Error>
    where
        A: Drop,
    {
        read_in_blocks::<TupleEntry<i32>, 12, A>(alloc, bytes, count)
    }

    ghost one_spelling = { one_signed w32 4 };

    ghost text_spells = { signed_four_written };
}

/// Eight bytes in two's complement, the lowest first.
impl<A: Allocator> TupleSummaryValue<A> for i64 {
    ghost use Rattle.std.specs.Prelude.{FitsSigned};
    ghost use Rattle.std.specs.Int.{w64, to_le_bytes, cast_unsigned};
    ghost use Rattle.core_images.specs.Summary.{SpellsSigned};
    ghost use Rattle.core_images.specs.SummarySpelling.{one_signed, signed_eight_written};

    ghost spells = { SpellsSigned w64 8 };

    ghost is_value = { FitsSigned w64 };

    ghost text = { λ x. to_le_bytes w64 (cast_unsigned w64 x) };

    fn serialize_size(&self) -> usize {
        i64::to_le_bytes(*self).len()
    }

    #[inline(always)]
    fn serialize_value<B: Allocator>(&self, bytes: &mut SketchBytes<B>) -> Result<(), Error> {
        bytes.write_i64_le(*self)
    }

    #[inline(always)]
    fn deserialize_value(_alloc: &A, slice: &mut SketchSlice<'_>) -> Result<Self, Error> {
        let bits = slice.read_u64_le()?;
        Ok(bits.cast_signed())
    }

    fn serialize_entries<B: Allocator>(
        entries: &[TupleEntry<i64>],
        bytes: &mut SketchBytes<B>,
    ) -> Result<(), Error> {
        write_in_blocks::<TupleEntry<i64>, 16, B>(entries, bytes)
    }

    fn deserialize_entries(
        alloc: A,
        bytes: &[u8],
        count: u32,
    ) -> Result<Vec<TupleEntry<i64>, A>, Error>
    where
        A: Drop,
    {
        read_in_blocks::<TupleEntry<i64>, 16, A>(alloc, bytes, count)
    }

    ghost one_spelling = { one_signed w64 8 };

    ghost text_spells = { signed_eight_written };
}
