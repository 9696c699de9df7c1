//! Images of tuple sketches, in the DataSketches format of family 9. All numbers are little endian.
//!
//! Each hash is followed by its summary's bytes. Serial version 3 with sketch type 1 is written; both are read, and
//! so are the older version 1 and sketch type 5, in any combination.
ghost use Rattle.std.specs.Prelude.{◌≡◌, ◌≤◌, ◌<◌, ◌+◌, ◌-◌, ◌^◌, ℕ, List, Some, None, true, min, length};
ghost use Rattle.std.specs.Prelude.{IfOk, IfErr, OnOk};
ghost use Rattle.std.specs.List.{flat_map};
ghost use Rattle.sketch_base.specs.Seed.{seed_hash};
ghost use Rattle.sketch_base.specs.declared.seed.TheConstants.{DEFAULT_UPDATE_SEED};
ghost use Rattle.core_compact.specs.CompactState.{Compact, IsCompact};
ghost use Rattle.core_images.specs.Head.{tuple_flaw, tuple_head, length_of};
ghost use Rattle.core_images.specs.Read.{IsRefused, IsUnread};
ghost use Rattle.core_images.specs.Summary.{SpellsTuple, tuple_text};
ghost use Rattle.core_laws.specs.Refusal.{Refuses};
ghost use Rattle.core_slots.specs.Entry.{tuple_key};
ghost use Rattle.core_slots.specs.declared.entry.TupleEntry.{TupleEntry};
ghost use Rattle.tuple_sketches.specs.Image.{Reads, IsReadable, BeginsWith, HasValues, written};

use crate::compact_sketch::CompactTupleSketch;
use core_images::{
    ReadError, TupleSummaryValue, layout_of, length_of, read_after_preamble, reader_seed_hash,
    tuple_head, write_image_with_capacity,
};
use core_slots::TupleEntry;
use sketch_base::{DEFAULT_UPDATE_SEED, Error, Family};
use std::alloc::Allocator;

/// The version of written images, in byte 1 of an image.
pub const SERIAL_VERSION: u8 = 3;

/// The older version that is read too.
pub const SERIAL_VERSION_LEGACY: u8 = 1;

/// The sketch type of written images, in byte 3 of an image.
pub const SKETCH_TYPE: u8 = 1;

/// The older sketch type that is read too.
pub const SKETCH_TYPE_LEGACY: u8 = 5;

/// The image of an empty sketch, whatever its seed.
pub const EMPTY_SKETCH_BYTES: [u8; 8] = [1, 3, 9, 1, 0, 0x1e, 0, 0];

/// The number of bytes of an image of these entries with a preamble of three longs; 2^64 - 1 if it is greater.
fn greatest_size<S: TupleSummaryValue<A>, A: Allocator>(entries: &[TupleEntry<S>]) -> usize
    ensures { result ≡ min (24 + length (flat_map (tuple_text S.text) entries.now)) (2 ^ 64 - 1) }
{
    let mut size = 24usize;
    for entry in entries {
        size = size
            .saturating_add(8)
            .saturating_add(entry.summary().serialize_size());
    }
    size
}

/// Reads the sketch that the bytes begin with, whose entries have at least `size` bytes each, and returns it with the
/// length of an image with so many. A flaw is returned as `CompactTupleSketch::read_with_seed` returns it.
fn read_sized<S: TupleSummaryValue<A> + Drop, A: Allocator + Clone + Drop>(
    alloc: A,
    bytes: &[u8],
    seed: u64,
    size: u16,
) -> Result<(CompactTupleSketch<S, A>, u64), ReadError>
    requires long { (a : List ℕ) (x : TupleEntry S) → SpellsTuple S.spells a x → size ≤ length a }
    ensures ok { IfOk result (λ r. Reads S.spells bytes.now (seed_hash seed) r.0) }
    ensures length { IfOk result (λ r. length_of (tuple_head size bytes.now) ≡ Some r.1) }
    ensures flawed { IfErr result (
        IsUnread (IsReadable S.spells bytes.now (seed_hash seed)) (tuple_flaw size (seed_hash seed) bytes.now)) }
{
    let seed_hash = reader_seed_hash(seed);
    let head = tuple_head(size, bytes);
    let layout = layout_of(seed_hash, bytes.len(), head);
    let state = read_after_preamble(alloc, bytes, layout, seed_hash)?;
    let length = length_of(head).unwrap_or(0);
    Ok((CompactTupleSketch::of_state(state), length))
}

impl<S: TupleSummaryValue<A> + Drop, A: Allocator + Clone + Drop> CompactTupleSketch<S, A> {
    /// Returns the sketch's image in serial version 3 and sketch type 1, in memory of a clone of its allocator: 8 to
    /// 24 bytes of preamble, then for each entry 8 bytes of its hash and the bytes of its summary. Refused with
    /// `OutOfMemory` alone, also if writing a summary is refused. If it isn't refused, every summary is a value, so
    /// that the image is read as this sketch.
    pub fn serialize(&self) -> Result<Vec<u8, A>, Error>
        ensures ok { IfOk result (λ v. v.items ≡ written S.text self.now) }
        ensures values { OnOk result (HasValues S.is_value self.now) }
        ensures read_back { IfOk result (λ v.
            (s : Compact (TupleEntry S)) → Reads S.spells v.items self.now.seed_hash s → s ≡ self.now) }
        ensures refused { Refuses result None true }
        ensures sound { OnOk result (IsCompact tuple_key self.now) }
        ensures short { OnOk result (self.now.seed_hash < 2 ^ 16) }
    {
        let alloc = self.state().allocator().clone()?;
        let capacity = greatest_size::<S, A>(self.state().retained_entries());
        write_image_with_capacity(alloc, self.state(), Family::TUPLE, SKETCH_TYPE, capacity)
    }

    /// Reads the sketch that the bytes begin with, under the default seed, 9001. Bytes after the image are ignored.
    ///
    /// Refused as `deserialize_with_seed` is.
    pub fn deserialize(alloc: A, bytes: &[u8]) -> Result<Self, Error>
        ensures ok { IfOk result (λ s. Reads S.spells bytes.now (seed_hash DEFAULT_UPDATE_SEED) s) }
        ensures refused { IfErr result (λ e.
            IsRefused e (IsReadable S.spells bytes.now (seed_hash DEFAULT_UPDATE_SEED))) }
    {
        CompactTupleSketch::deserialize_with_seed(alloc, bytes, DEFAULT_UPDATE_SEED)
    }

    /// Reads the sketch that the bytes begin with, under this seed. Bytes after the image are ignored.
    ///
    /// Refused with `InvalidData` only if the seed hash is 0 or the bytes begin with no sketch: for one of the reasons
    /// that `read_with_seed` returns, or since bytes after a hash spell no summary. Refused with `OutOfMemory` if
    /// memory runs out, also for such bytes: it allocates at most as many entries as the bytes could fill with their
    /// hashes, eight bytes per entry to compare hashes that don't ascend, and what reading summaries allocates.
    pub fn deserialize_with_seed(alloc: A, bytes: &[u8], seed: u64) -> Result<Self, Error>
        ensures ok { IfOk result (λ s. Reads S.spells bytes.now (seed_hash seed) s) }
        ensures refused { IfErr result (λ e. IsRefused e (IsReadable S.spells bytes.now (seed_hash seed))) }
    {
        let (sketch, _) = read_sized::<S, A>(alloc, bytes, seed, 8)?;
        Ok(sketch)
    }

    /// Reads the sketch that the bytes begin with, under this seed, and returns it with the length of its image in
    /// bytes. What follows the image is ignored. Each summary is spelled by `size` bytes.
    ///
    /// If the bytes begin with no sketch, it returns their first flaw: they end too early, have another family, version
    /// or sketch type, don't have 1 to 3 preamble longs, have another seed hash, a theta that isn't from 1 to
    /// `MAX_THETA`, hashes that repeat, don't ascend though the image is ordered, or aren't from 1 to below theta, or
    /// bytes after a hash that spell no summary. The seed hash of an empty sketch is not checked, but no image is read
    /// if the seed's is 0. It returns `OutOfMemory` as `deserialize_with_seed` does.
    pub fn read_with_seed(
        alloc: A,
        bytes: &[u8],
        seed: u64,
        size: u16,
    ) -> Result<(Self, u64), ReadError>
        requires small { size < 2 ^ 15 }
        requires sized { (text : List ℕ) (x : S) → S.spells text x → length text ≡ size }
        ensures ok { IfOk result (λ r. Reads S.spells bytes.now (seed_hash seed) r.0) }
        ensures begins { IfOk result (λ r. BeginsWith S.spells (8 + size) bytes.now (seed_hash seed) r.1 r.0) }
        ensures flawed { IfErr result (
            IsUnread (IsReadable S.spells bytes.now (seed_hash seed)) (tuple_flaw (8 + size) (seed_hash seed) bytes.now)) }
    {
        read_sized::<S, A>(alloc, bytes, seed, 8 + size)
    }
}
