//! Theta sketches that take updates.
ghost use Rattle.std.specs.Prelude.{◌≡◌, true, IfOk};
ghost use Rattle.core_laws.specs.Entries.{hash_key};
ghost use Rattle.core_laws.specs.Maps.{IsListing};
ghost use Rattle.core_laws.specs.Refusal.{Refuses};
ghost use Rattle.core_laws.specs.Settings.{settings_refusal};
ghost use Rattle.c_objects.specs.Bounds.{is_state};
ghost use Rattle.c_objects.specs.Buffer.{IsPut};
ghost use Rattle.c_objects.specs.Orders.{IsCompactFormIn, IsDifferenceOfSketches, IsSketchDifferenceRefusal};
ghost use Rattle.c_objects.specs.Orders.{AreSketchesOfSeed};
ghost use Rattle.c_objects.specs.Status.{IsMemoryRefusal};
ghost use Rattle.c_objects.specs.Thetas.{IsNewSketch, IsSameSketch, UpdatesHash, UpdatesNumber, UpdatesBytes};
ghost use Rattle.c_objects.specs.Thetas.{InsertsHash};
ghost use Rattle.c_objects.specs.Thetas.{UpdatesHashes, Trims, Resets, theta_state, IsImageOf};
ghost use Rattle.c_objects.specs.declared.theta.SeededSketch.{SeededSketch};

use crate::compact::CompactSketch;
use crate::entries::put_hashes;
use crate::hashes::{hash_of_bytes, hash_of_number};
use crate::objects::{
    CanCopy, CanReset, CanTrim, HasCompact, HasDifference, HasImage, HasSize, HasState,
};
use crate::state::State;
use crate::status::{OK, OUT_OF_MEMORY, status_of};
use core_laws::MAX_LG_K;
use sketch_base::{Error, ErrorKind};
use std::alloc::Global;
use theta_sketches::{ResizeFactor, ThetaANotB, ThetaSketch, ThetaSketchBuilder};

/// A sketch that takes updates, and the seed of its hashes.
#[derive(Drop)]
pub struct SeededSketch {
    pub(crate) sketch: ThetaSketch,
    pub(crate) seed: u64,
}

/// A new sketch of 2^`lg_k` nominal entries, `lg_k` from 4 to 26, whose slots grow by a resize factor and which
/// begins at a theta from 1 to `MAX_THETA`. Refused with `InvalidArgument` if a setting is out of range or the hash
/// of the seed is 0, and with `OutOfMemory`.
pub fn build(
    alloc: Global,
    lg_k: u32,
    factor: ResizeFactor,
    start: u64,
    seed: u64,
) -> Result<SeededSketch, Error>
    ensures made { IfOk result (λ t. IsNewSketch lg_k start seed t) }
    ensures refused { Refuses result (settings_refusal lg_k start seed) true }
{
    if lg_k > MAX_LG_K as u32 {
        return Err(Error::new(ErrorKind::InvalidArgument));
    }
    let sketch = ThetaSketchBuilder::default()
        .lg_k(lg_k as u8)
        .resize_factor(factor)
        .starting_theta(start)
        .seed(seed)
        .build(alloc)?;
    Ok(SeededSketch { sketch, seed })
}

/// Updates a sketch with a hash of 63 bits. The status is `OK`, or `OUT_OF_MEMORY` for a new hash below theta.
#[inline(always)]
pub fn update_hash(theta: &mut SeededSketch, hash: u64) -> u32
    ensures { UpdatesHash hash theta.old result theta.new }
{
    match theta.sketch.update_hash(hash) {
        Ok(()) => OK,
        Err(_) => OUT_OF_MEMORY,
    }
}

/// Updates a sketch with a hash, as `update_hash` does, and writes the state after it; if refused, nothing is written.
#[inline(always)]
pub fn insert_hash(theta: &mut SeededSketch, hash: u64, out: &mut State) -> u32
    ensures inserts { InsertsHash hash out.old out.new theta.old result theta.new }
    ensures usable { result ≡ 0 → is_state out.new.retained out.new.theta ≡ true }
{
    let status = update_hash(theta, hash);
    if status == OK {
        *out = theta.state();
    }
    status
}

/// Updates a sketch with a number, by the hash of its eight bytes, the lowest first. Refused as `update_hash` is.
#[inline(always)]
pub fn update_number(theta: &mut SeededSketch, number: u64) -> u32
    ensures { UpdatesNumber number theta.old result theta.new }
{
    let hash = hash_of_number(theta.seed, number);
    update_hash(theta, hash)
}

/// Updates a sketch with bytes, by their hash. Refused as `update_hash` is.
#[inline(always)]
pub fn update_bytes(theta: &mut SeededSketch, bytes: &[u8]) -> u32
    ensures { UpdatesBytes bytes.now theta.old result theta.new }
{
    let hash = hash_of_bytes(theta.seed, bytes);
    update_hash(theta, hash)
}

/// Updates a sketch with hashes in their order. The status is `OK`, or `OUT_OF_MEMORY` at a new hash below theta;
/// then exactly the hashes before it have been inserted.
#[inline(always)]
pub fn update_hashes(theta: &mut SeededSketch, hashes: &[u64]) -> u32
    ensures { UpdatesHashes hashes.now theta.old result theta.new }
{
    match theta.sketch.update_hashes(hashes) {
        Ok(()) => OK,
        Err(_) => OUT_OF_MEMORY,
    }
}

/// Copies the hashes of a sketch, each once in some order, to the front of an array, and writes how many they are.
/// The status is `OK`, or `TOO_SMALL` if the array has no room for them.
pub fn put_hashes_of(sketch: &SeededSketch, out: &mut [u64], count: &mut u64) -> u32
    ensures put { IsPut sketch.now.sketch.sequence out.old result out.new count.new }
    ensures each_once { IsListing hash_key sketch.now.sketch.map.kept.entries sketch.now.sketch.sequence }
{
    let number = sketch.sketch.num_retained();
    put_hashes(sketch.sketch.iter(), number, out, count)
}

impl HasState for SeededSketch {
    ghost shown = { theta_state };

    fn state(&self) -> State {
        State::of(
            self.sketch.num_retained(),
            self.sketch.theta64(),
            self.sketch.is_empty(),
        )
    }
}

impl HasCompact for SeededSketch {
    type Compact = CompactSketch;

    ghost is_compact = { IsCompactFormIn };

    ghost no_compact = { λ _. IsMemoryRefusal };

    fn compact(&self, ordered: bool) -> Result<CompactSketch, u32> {
        match self.sketch.compact(ordered) {
            Ok(sketch) => Ok(CompactSketch { sketch }),
            Err(_) => Err(OUT_OF_MEMORY),
        }
    }
}

impl HasImage for SeededSketch {
    ghost is_image = { IsImageOf };

    ghost no_image = { λ _. IsMemoryRefusal };

    fn image(&self) -> Result<Vec<u8>, u32> {
        self.compact(true)?.image()
    }
}

impl CanCopy for SeededSketch {
    ghost is_copy = { IsSameSketch };

    fn copy(&self) -> Result<SeededSketch, u32> {
        match self.sketch.clone() {
            Ok(sketch) => Ok(SeededSketch {
                sketch,
                seed: self.seed,
            }),
            Err(_) => Err(OUT_OF_MEMORY),
        }
    }
}

impl CanTrim for SeededSketch {
    ghost trims = { Trims };

    fn trim(&mut self) -> u32 {
        match self.sketch.trim() {
            Ok(()) => OK,
            Err(_) => OUT_OF_MEMORY,
        }
    }
}

impl CanReset for SeededSketch {
    ghost resets = { Resets };

    fn reset(&mut self) -> u32 {
        self.sketch.reset();
        OK
    }
}

impl HasSize for SeededSketch {
    fn estimated_size(&self) -> u64 {
        self.sketch.estimated_size() as u64
    }
}

impl HasDifference for SeededSketch {
    type Difference = CompactSketch;

    ghost is_difference = { IsDifferenceOfSketches };

    ghost are_of_seed = { AreSketchesOfSeed };

    ghost no_difference = { IsSketchDifferenceRefusal };

    fn difference(
        &self,
        alloc: Global,
        seed: u64,
        other: &SeededSketch,
        ordered: bool,
    ) -> Result<CompactSketch, u32> {
        let difference = match ThetaANotB::with_seed(seed) {
            Ok(difference) => difference,
            Err(error) => return Err(status_of(error.kind())),
        };
        match difference.compute(
            alloc,
            self.sketch.as_view(),
            other.sketch.as_view(),
            ordered,
        ) {
            Ok(sketch) => Ok(CompactSketch { sketch }),
            Err(error) => Err(status_of(error.kind())),
        }
    }
}
