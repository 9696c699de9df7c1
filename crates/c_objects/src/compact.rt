//! Compact theta sketches, which are immutable.
ghost use Rattle.c_objects.specs.Buffer.{IsPut};
ghost use Rattle.c_objects.specs.Flaws.{IsThetaFinding};
ghost use Rattle.c_objects.specs.Intersection.{AreOfSeed, IsDifferenceRefusal};
ghost use Rattle.c_objects.specs.Orders.{IsDifferenceIn};
ghost use Rattle.c_objects.specs.Status.{IsMemoryRefusal};
ghost use Rattle.c_objects.specs.Thetas.{compact_state, IsCompactImage, IsCopy, IsReadFrom, IsReadRefusal};
ghost use Rattle.c_objects.specs.Thetas.{IsWhole, IsWholeRefusal};
ghost use Rattle.c_objects.specs.declared.compact.CompactSketch.{CompactSketch};

use crate::entries::put_hashes;
use crate::flaws::{Finding, theta_finding};
use crate::objects::{CanCopy, FromImage, HasDifference, HasForm, HasImage, HasSize, HasState};
use crate::state::State;
use crate::status::{INVALID_DATA, OUT_OF_MEMORY, status_of};
use sketch_base::Error;
use std::alloc::Global;
use theta_sketches::{CompactThetaSketch, ThetaANotB};

/// A compact sketch.
#[derive(Drop)]
pub struct CompactSketch {
    pub(crate) sketch: CompactThetaSketch,
}

impl FromImage for CompactSketch {
    ghost is_read = { IsReadFrom };

    ghost is_unread = { IsReadRefusal };

    fn read(alloc: Global, image: &[u8], seed: u64) -> Result<CompactSketch, u32> {
        match CompactThetaSketch::deserialize_with_seed(alloc, image, seed) {
            Ok(sketch) => Ok(CompactSketch { sketch }),
            Err(error) => Err(status_of(error.kind())),
        }
    }

    ghost is_whole = { IsWhole };

    ghost not_whole = { IsWholeRefusal };

    ghost is_finding = { IsThetaFinding };

    fn read_whole(alloc: Global, image: &[u8], seed: u64) -> Result<CompactSketch, u32> {
        match CompactThetaSketch::read_with_seed(alloc, image, seed) {
            Ok((sketch, length)) => {
                if length == image.len() as u64 {
                    Ok(CompactSketch { sketch })
                } else {
                    Err(INVALID_DATA)
                }
            }
            Err(reason) => Err(status_of(Error::from(reason).kind())),
        }
    }

    fn finding(image: &[u8], seed: u64) -> Finding {
        theta_finding(image, seed)
    }
}

impl HasState for CompactSketch {
    ghost shown = { compact_state };

    fn state(&self) -> State {
        State::of(
            self.sketch.num_retained(),
            self.sketch.theta64(),
            self.sketch.is_empty(),
        )
    }
}

impl HasImage for CompactSketch {
    ghost is_image = { IsCompactImage };

    ghost no_image = { λ _. IsMemoryRefusal };

    fn image(&self) -> Result<Vec<u8>, u32> {
        match self.sketch.serialize() {
            Ok(image) => Ok(image),
            Err(_) => Err(OUT_OF_MEMORY),
        }
    }
}

impl CanCopy for CompactSketch {
    ghost is_copy = { IsCopy };

    fn copy(&self) -> Result<CompactSketch, u32> {
        match self.sketch.clone() {
            Ok(sketch) => Ok(CompactSketch { sketch }),
            Err(_) => Err(OUT_OF_MEMORY),
        }
    }
}

impl HasDifference for CompactSketch {
    type Difference = CompactSketch;

    ghost is_difference = { IsDifferenceIn };

    ghost are_of_seed = { AreOfSeed };

    ghost no_difference = { IsDifferenceRefusal };

    fn difference(
        &self,
        alloc: Global,
        seed: u64,
        other: &CompactSketch,
        ordered: bool,
    ) -> Result<CompactSketch, u32> {
        let difference = match ThetaANotB::with_seed(seed) {
            Ok(difference) => difference,
            Err(error) => return Err(status_of(error.kind())),
        };
        match difference.compute(
            alloc,
            self.sketch.as_view(),
            other.sketch.as_view(),
            ordered,
        ) {
            Ok(sketch) => Ok(CompactSketch { sketch }),
            Err(error) => Err(status_of(error.kind())),
        }
    }
}

/// Copies the hashes of a sketch, in its order, to the front of an array, and writes how many they are. The status is
/// `OK`, or `TOO_SMALL` if the array has no room for them.
pub fn put_hashes_of(sketch: &CompactSketch, out: &mut [u64], count: &mut u64) -> u32
    ensures { IsPut sketch.now.sketch.entries out.old result out.new count.new }
{
    let number = sketch.sketch.num_retained();
    put_hashes(sketch.sketch.iter(), number, out, count)
}

impl HasForm for CompactSketch {
    ghost seed_hash_of = { λ s. s.sketch.seed_hash };

    ghost is_in_order = { λ s. s.sketch.ordered };

    fn seed_hash(&self) -> u16 {
        self.sketch.seed_hash()
    }

    fn is_ordered(&self) -> bool {
        self.sketch.is_ordered()
    }
}

impl HasSize for CompactSketch {
    fn estimated_size(&self) -> u64 {
        self.sketch.estimated_size() as u64
    }
}
