//! Tuple sketches whose summaries are numbers of 64 bits: sums, or least or greatest numbers, as their mode says.
ghost use Rattle.std.specs.Prelude.{true, IfOk};
ghost use Rattle.core_laws.specs.Maps.{IsListing};
ghost use Rattle.core_laws.specs.Refusal.{Refuses};
ghost use Rattle.core_laws.specs.Settings.{settings_refusal};
ghost use Rattle.core_slots.specs.Entry.{tuple_key};
ghost use Rattle.c_objects.specs.CompactSums.{PutsEntries};
ghost use Rattle.c_objects.specs.Orders.{IsCompactFormOfSumsIn, IsDifferenceOfSumsSketches};
ghost use Rattle.c_objects.specs.Orders.{IsSumsSketchDifferenceRefusal, AreSumsSketchesOfSeed};
ghost use Rattle.c_objects.specs.Settings.{mode_refusal};
ghost use Rattle.c_objects.specs.Status.{IsMemoryRefusal};
ghost use Rattle.c_objects.specs.Sums.{IsNewSums, IsNewSumsByMode, IsSameSums};
ghost use Rattle.c_objects.specs.Sums.{AddsValue, AddsAtBytes, AddsAtNumber, TrimsSums};
ghost use Rattle.c_objects.specs.Sums.{ResetsSums, sums_sketch, sums_state, sums_total, IsImageOfSums};
ghost use Rattle.c_objects.specs.declared.sums.SeededSums.{SeededSums};

use crate::bounds::{Wide, split};
use crate::compact_sums::CompactSums;
use crate::entries::put_entries;
use crate::hashes::{hash_of_bytes, hash_of_number};
use crate::objects::{
    CanCopy, CanReset, CanTrim, HasCompact, HasDifference, HasImage, HasSize, HasState, HasTotal,
};
use crate::settings::mode_of;
use crate::state::State;
use crate::status::{OK, OUT_OF_MEMORY, status_of};
use core_laws::MAX_LG_K;
use sketch_base::{Error, ErrorKind};
use std::alloc::Global;
use totals::sum_of;
use tuple_sketches::{
    NumberPolicy, ResizeFactor, SummaryMode, TupleANotB, TupleSketch, TupleSketchBuilder,
};

/// A sketch of numbers under the policy of a mode, and the seed of its hashes.
#[derive(Drop)]
pub struct SeededSums {
    pub(crate) sketch: TupleSketch<NumberPolicy>,
    pub(crate) seed: u64,
}

/// A new sketch of a mode, of 2^`lg_k` nominal entries, `lg_k` from 4 to 26, whose slots grow by a resize factor and
/// which begins at a theta from 1 to `MAX_THETA`. Refused with `InvalidArgument` if a setting is out of range or the hash
/// of the seed is 0, and with `OutOfMemory`.
pub fn build(
    alloc: Global,
    lg_k: u32,
    factor: ResizeFactor,
    start: u64,
    seed: u64,
    mode: SummaryMode,
) -> Result<SeededSums, Error>
    ensures made { IfOk result (λ t. IsNewSums mode lg_k start seed t) }
    ensures refused { Refuses result (settings_refusal lg_k start seed) true }
{
    if lg_k > MAX_LG_K as u32 {
        return Err(Error::new(ErrorKind::InvalidArgument));
    }
    let sketch = TupleSketchBuilder::new(NumberPolicy::new(mode))
        .lg_k(lg_k as u8)
        .resize_factor(factor)
        .starting_theta(start)
        .seed(seed)
        .build(alloc)?;
    Ok(SeededSums { sketch, seed })
}

/// A new sketch of the mode of a number: 0 for sums, 1 for least numbers, 2 for greatest numbers. Refused as `build`
/// is, and with `InvalidArgument` for any other number.
pub fn build_by_mode(
    alloc: Global,
    lg_k: u32,
    factor: ResizeFactor,
    start: u64,
    seed: u64,
    mode: u32,
) -> Result<SeededSums, Error>
    ensures made { IfOk result (λ t. IsNewSumsByMode mode lg_k start seed t) }
    ensures refused { Refuses result (mode_refusal mode (settings_refusal lg_k start seed)) true }
{
    match mode_of(mode) {
        Some(valid) => build(alloc, lg_k, factor, start, seed, valid),
        None => Err(Error::new(ErrorKind::InvalidArgument)),
    }
}

/// Adds a value to the sum of a hash, which is 0 at first, or keeps the less or the greater, as the sketch's mode
/// says. The status is `OK`, `POLICY` if a sum would be 2^64 or more, or `OUT_OF_MEMORY` for a new hash below theta.
#[inline(always)]
pub fn add_at_hash(sums: &mut SeededSums, hash: u64, value: u64) -> u32
    ensures { AddsValue hash value sums.old result sums.new }
{
    match sums.sketch.update_hash(hash, value) {
        Ok(()) => OK,
        Err(error) => status_of(error.kind()),
    }
}

/// Adds a value to that of a key that is a number, by the hash of its eight bytes, the lowest first. Refused as
/// `add_at_hash` is.
#[inline(always)]
pub fn add_at_number(sums: &mut SeededSums, number: u64, value: u64) -> u32
    ensures { AddsAtNumber number value sums.old result sums.new }
{
    let hash = hash_of_number(sums.seed, number);
    add_at_hash(sums, hash, value)
}

/// Adds a value to that of a key that is bytes, by their hash. Refused as `add_at_hash` is.
#[inline(always)]
pub fn add_at_bytes(sums: &mut SeededSums, bytes: &[u8], value: u64) -> u32
    ensures { AddsAtBytes bytes.now value sums.old result sums.new }
{
    let hash = hash_of_bytes(sums.seed, bytes);
    add_at_hash(sums, hash, value)
}

/// Copies the hashes and the numbers of a sketch, each once in some order, to the fronts of two arrays, and writes how
/// many they are. The status is `OK`, or `TOO_SMALL` if an array has no room for them.
pub fn put_entries_of(
    sketch: &SeededSums,
    hashes: &mut [u64],
    sums: &mut [u64],
    count: &mut u64,
) -> u32
    ensures put { PutsEntries (sums_sketch sketch.now).sequence hashes.old sums.old result hashes.new sums.new
        count.new }
    ensures each_once { IsListing tuple_key (sums_sketch sketch.now).map.kept.entries
        (sums_sketch sketch.now).sequence }
{
    let number = sketch.sketch.num_retained();
    put_entries(sketch.sketch.iter(), number, hashes, sums, count)
}

impl HasState for SeededSums {
    ghost shown = { sums_state };

    fn state(&self) -> State {
        State::of(
            self.sketch.num_retained(),
            self.sketch.theta64(),
            self.sketch.is_empty(),
        )
    }
}

impl HasCompact for SeededSums {
    type Compact = CompactSums;

    ghost is_compact = { IsCompactFormOfSumsIn };

    ghost no_compact = { λ _. IsMemoryRefusal };

    fn compact(&self, ordered: bool) -> Result<CompactSums, u32> {
        match self.sketch.compact(ordered) {
            Ok(sketch) => Ok(CompactSums { sketch }),
            Err(_) => Err(OUT_OF_MEMORY),
        }
    }
}

impl HasTotal for SeededSums {
    ghost total_sum = { sums_total };

    fn total(&self) -> Wide {
        split(sum_of(self.sketch.iter()))
    }
}

impl HasImage for SeededSums {
    ghost is_image = { IsImageOfSums };

    ghost no_image = { λ _. IsMemoryRefusal };

    fn image(&self) -> Result<Vec<u8>, u32> {
        self.compact(true)?.image()
    }
}

impl CanCopy for SeededSums {
    ghost is_copy = { IsSameSums };

    fn copy(&self) -> Result<SeededSums, u32> {
        match self.sketch.clone() {
            Ok(sketch) => Ok(SeededSums {
                sketch,
                seed: self.seed,
            }),
            Err(_) => Err(OUT_OF_MEMORY),
        }
    }
}

impl CanTrim for SeededSums {
    ghost trims = { TrimsSums };

    fn trim(&mut self) -> u32 {
        match self.sketch.trim() {
            Ok(()) => OK,
            Err(_) => OUT_OF_MEMORY,
        }
    }
}

impl CanReset for SeededSums {
    ghost resets = { ResetsSums };

    fn reset(&mut self) -> u32 {
        self.sketch.reset();
        OK
    }
}

impl HasSize for SeededSums {
    fn estimated_size(&self) -> u64 {
        self.sketch.estimated_size() as u64
    }
}

impl HasDifference for SeededSums {
    type Difference = CompactSums;

    ghost is_difference = { IsDifferenceOfSumsSketches };

    ghost are_of_seed = { AreSumsSketchesOfSeed };

    ghost no_difference = { IsSumsSketchDifferenceRefusal };

    fn difference(
        &self,
        alloc: Global,
        seed: u64,
        other: &SeededSums,
        ordered: bool,
    ) -> Result<CompactSums, u32> {
        let difference = match TupleANotB::with_seed(seed) {
            Ok(difference) => difference,
            Err(error) => return Err(status_of(error.kind())),
        };
        match difference.compute(
            alloc,
            self.sketch.as_view(),
            other.sketch.as_view(),
            ordered,
        ) {
            Ok(sketch) => Ok(CompactSums { sketch }),
            Err(error) => Err(status_of(error.kind())),
        }
    }
}
