//! Images of theta sketches, in the DataSketches format of family 3. All numbers are little endian.
//!
//! Serial version 3 is written and read. Versions 1 and 2 are only read: they have no flags, and their hashes are
//! ordered.
ghost use Rattle.std.specs.Prelude.{◌≡◌, ◌<◌, ◌^◌, ℕ, None, true, IfOk, IfErr, OnOk};
ghost use Rattle.core_compact.specs.CompactState.{Compact, IsCompact};
ghost use Rattle.sketch_base.specs.Seed.{seed_hash};
ghost use Rattle.sketch_base.specs.declared.seed.TheConstants.{DEFAULT_UPDATE_SEED};
ghost use Rattle.core_images.specs.Head.{theta_flaw};
ghost use Rattle.core_images.specs.Read.{IsRefused, IsUnread};
ghost use Rattle.core_laws.specs.Entries.{hash_key};
ghost use Rattle.core_laws.specs.Refusal.{Refuses};
ghost use Rattle.theta_sketches.specs.Image.{Reads, IsReadable, BeginsWith, written};

use crate::compact_sketch::CompactThetaSketch;
use core_images::{
    ReadError, layout_of, length_of, read_after_preamble, reader_seed_hash, theta_head, write_image,
};
use sketch_base::{DEFAULT_UPDATE_SEED, Error, Family};
use std::alloc::Allocator;

impl<A: Allocator + Clone + Drop> CompactThetaSketch<A> {
    /// Returns the sketch's image in serial version 3, in memory of a clone of its allocator: 8 to 24 bytes of
    /// preamble, then 8 bytes per hash. Refused with `OutOfMemory` alone.
    pub fn serialize(&self) -> Result<Vec<u8, A>, Error>
        ensures ok { IfOk result (λ v. v.items ≡ written self.now) }
        ensures read_back { IfOk result (λ v. (s : Compact ℕ) → Reads v.items self.now.seed_hash s → s ≡ self.now) }
        ensures refused { Refuses result None true }
        ensures sound { OnOk result (IsCompact hash_key self.now) }
        ensures short { OnOk result (self.now.seed_hash < 2 ^ 16) }
    {
        let alloc = self.state().allocator().clone()?;
        write_image(alloc, self.state(), Family::THETA, 0)
    }

    /// Reads the sketch that the bytes begin with, under the default seed, 9001. Bytes after the image are ignored.
    ///
    /// Refused as `deserialize_with_seed` is.
    pub fn deserialize(alloc: A, bytes: &[u8]) -> Result<Self, Error>
        ensures ok { IfOk result (λ s. Reads bytes.now (seed_hash DEFAULT_UPDATE_SEED) s) }
        ensures refused { IfErr result (λ e. IsRefused e (IsReadable bytes.now (seed_hash DEFAULT_UPDATE_SEED))) }
    {
        CompactThetaSketch::deserialize_with_seed(alloc, bytes, DEFAULT_UPDATE_SEED)
    }

    /// Reads the sketch that the bytes begin with, under this seed. Bytes after the image are ignored.
    ///
    /// Refused with `InvalidData` only if the seed hash is 0 or the bytes begin with no sketch, for one of the reasons
    /// that `read_with_seed` returns. Refused with `OutOfMemory` if memory runs out, also for such bytes.
    pub fn deserialize_with_seed(alloc: A, bytes: &[u8], seed: u64) -> Result<Self, Error>
        ensures ok { IfOk result (λ s. Reads bytes.now (seed_hash seed) s) }
        ensures refused { IfErr result (λ e. IsRefused e (IsReadable bytes.now (seed_hash seed))) }
    {
        let (sketch, _) = CompactThetaSketch::read_with_seed(alloc, bytes, seed)?;
        Ok(sketch)
    }

    /// Reads the sketch that the bytes begin with, under this seed, and returns it with the length of its image in
    /// bytes. What follows the image is ignored.
    ///
    /// If the bytes begin with no sketch, it returns their first flaw: they end too early, have another family or
    /// version, don't have 1 to 3 preamble longs, have another seed hash, a theta that isn't from 1 to `MAX_THETA`, or
    /// hashes that repeat, don't ascend though the image is ordered, or aren't from 1 to below theta. The seed hash of
    /// an empty sketch is not checked, but no image is read if the seed's is 0. It returns `OutOfMemory` if memory runs
    /// out, also for such bytes: it allocates at most what the bytes could fill with hashes, and as much again to
    /// compare hashes that don't ascend.
    pub fn read_with_seed(alloc: A, bytes: &[u8], seed: u64) -> Result<(Self, u64), ReadError>
        ensures ok { IfOk result (λ r. Reads bytes.now (seed_hash seed) r.0) }
        ensures begins { IfOk result (λ r. BeginsWith bytes.now (seed_hash seed) r.1 r.0) }
        ensures flawed { IfErr result (
            IsUnread (IsReadable bytes.now (seed_hash seed)) (theta_flaw (seed_hash seed) bytes.now)) }
    {
        let seed_hash = reader_seed_hash(seed);
        let head = theta_head(bytes);
        let layout = layout_of(seed_hash, bytes.len(), head);
        let state = read_after_preamble(alloc, bytes, layout, seed_hash)?;
        let length = length_of(head).unwrap_or(0);
        Ok((CompactThetaSketch::of_state(state), length))
    }
}
