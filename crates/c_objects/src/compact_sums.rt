//! Compact tuple sketches whose summaries are sums of 64 bits.
ghost use Rattle.c_objects.specs.Flaws.{IsSumsFinding};
ghost use Rattle.c_objects.specs.Status.{IsMemoryRefusal};
ghost use Rattle.c_objects.specs.Orders.{IsDifferenceOfSumsIn};
ghost use Rattle.c_objects.specs.SumsIntersection.{AreSumsOfSeed, IsSumsDifferenceRefusal};
ghost use Rattle.c_objects.specs.CompactSums.{IsCompactSumsImage, IsSumsReadFrom, IsSumsReadRefusal};
ghost use Rattle.c_objects.specs.CompactSums.{IsWholeSums, IsWholeSumsRefusal};
ghost use Rattle.c_objects.specs.CompactSums.{compact_sums_state, compact_total, IsCopyOfSums, PutsEntries};
ghost use Rattle.c_objects.specs.declared.compact_sums.CompactSums.{CompactSums};

use crate::bounds::{Wide, split};
use crate::entries::put_entries;
use crate::flaws::{Finding, sums_finding};
use crate::objects::{
    CanCopy, FromImage, HasDifference, HasForm, HasImage, HasSize, HasState, HasTotal,
};
use crate::state::State;
use crate::status::{INVALID_DATA, OUT_OF_MEMORY, status_of};
use sketch_base::Error;
use std::alloc::Global;
use totals::sum_of;
use tuple_sketches::laws::read_again;
use tuple_sketches::{CompactTupleSketch, TupleANotB};

/// A compact sketch of sums.
#[derive(Drop)]
pub struct CompactSums {
    pub(crate) sketch: CompactTupleSketch<u64>,
}

impl FromImage for CompactSums {
    ghost is_read = { IsSumsReadFrom };

    ghost is_unread = { IsSumsReadRefusal };

    fn read(alloc: Global, image: &[u8], seed: u64) -> Result<CompactSums, u32> {
        match CompactTupleSketch::deserialize_with_seed(alloc, image, seed) {
            Ok(sketch) => Ok(CompactSums { sketch }),
            Err(error) => Err(status_of(error.kind())),
        }
    }

    ghost is_whole = { IsWholeSums };

    ghost not_whole = { IsWholeSumsRefusal };

    ghost is_finding = { IsSumsFinding };

    fn read_whole(alloc: Global, image: &[u8], seed: u64) -> Result<CompactSums, u32> {
        match CompactTupleSketch::<u64>::read_with_seed(alloc, image, seed, 8) {
            Ok((sketch, length)) => {
                if length == image.len() as u64 {
                    Ok(CompactSums { sketch })
                } else {
                    Err(INVALID_DATA)
                }
            }
            Err(reason) => Err(status_of(Error::from(reason).kind())),
        }
    }

    fn finding(image: &[u8], seed: u64) -> Finding {
        sums_finding(image, seed)
    }
}

impl HasState for CompactSums {
    ghost shown = { compact_sums_state };

    fn state(&self) -> State {
        State::of(
            self.sketch.num_retained(),
            self.sketch.theta64(),
            self.sketch.is_empty(),
        )
    }
}

impl HasTotal for CompactSums {
    ghost total_sum = { compact_total };

    fn total(&self) -> Wide {
        split(sum_of(self.sketch.iter()))
    }
}

impl HasImage for CompactSums {
    ghost is_image = { IsCompactSumsImage };

    ghost no_image = { λ _. IsMemoryRefusal };

    fn image(&self) -> Result<Vec<u8>, u32> {
        read_again::<u64, Global>();
        match self.sketch.serialize() {
            Ok(image) => Ok(image),
            Err(_) => Err(OUT_OF_MEMORY),
        }
    }
}

impl CanCopy for CompactSums {
    ghost is_copy = { IsCopyOfSums };

    fn copy(&self) -> Result<CompactSums, u32> {
        match self.sketch.clone() {
            Ok(sketch) => Ok(CompactSums { sketch }),
            Err(_) => Err(OUT_OF_MEMORY),
        }
    }
}

impl HasDifference for CompactSums {
    type Difference = CompactSums;

    ghost is_difference = { IsDifferenceOfSumsIn };

    ghost are_of_seed = { AreSumsOfSeed };

    ghost no_difference = { IsSumsDifferenceRefusal };

    fn difference(
        &self,
        alloc: Global,
        seed: u64,
        other: &CompactSums,
        ordered: bool,
    ) -> Result<CompactSums, u32> {
        let difference = match TupleANotB::with_seed(seed) {
            Ok(difference) => difference,
            Err(error) => return Err(status_of(error.kind())),
        };
        match difference.compute(
            alloc,
            self.sketch.as_view(),
            other.sketch.as_view(),
            ordered,
        ) {
            Ok(sketch) => Ok(CompactSums { sketch }),
            Err(error) => Err(status_of(error.kind())),
        }
    }
}

/// Copies the hashes and the sums of a sketch, in its order, to the fronts of two arrays, and writes how many they
/// are. The status is `OK`, or `TOO_SMALL` if an array has no room for them.
pub fn put_entries_of(
    sketch: &CompactSums,
    hashes: &mut [u64],
    sums: &mut [u64],
    count: &mut u64,
) -> u32
    ensures { PutsEntries sketch.now.sketch.entries hashes.old sums.old result hashes.new sums.new count.new }
{
    let number = sketch.sketch.num_retained();
    put_entries(sketch.sketch.iter(), number, hashes, sums, count)
}

impl HasForm for CompactSums {
    ghost seed_hash_of = { λ s. s.sketch.seed_hash };

    ghost is_in_order = { λ s. s.sketch.ordered };

    fn seed_hash(&self) -> u16 {
        self.sketch.seed_hash()
    }

    fn is_ordered(&self) -> bool {
        self.sketch.is_ordered()
    }
}

impl HasSize for CompactSums {
    fn estimated_size(&self) -> u64 {
        self.sketch.estimated_size() as u64
    }
}
