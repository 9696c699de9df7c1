//! Batches: theta sketches that are merged into a union together.
ghost use Rattle.std.specs.Prelude.{◌≡◌, []};
ghost use Rattle.c_objects.specs.Batch.{IsNewBatch, AddsSketch, AddsCompact, AddsImage, EmptiesBatch};

use crate::compact::CompactSketch;
use crate::objects::{Accepts, AcceptsImages, CanReset, FromImage, HasCompact};
use crate::status::{OK, OUT_OF_MEMORY};
use crate::theta::SeededSketch;
use std::alloc::Global;
use theta_sketches::CompactThetaSketch;

/// Compact sketches, and the seed under which images are read.
#[derive(Drop)]
pub struct SeededBatch {
    pub(crate) sketches: Vec<CompactThetaSketch>,
    pub(crate) seed: u64,
}

/// A batch without sketches. It allocates nothing.
pub fn new_batch(alloc: Global, seed: u64) -> SeededBatch
    ensures { IsNewBatch seed result }
{
    SeededBatch {
        sketches: Vec::new(alloc),
        seed,
    }
}

/// Copies of sketches that take updates, as their ordered compact forms.
impl Accepts<SeededSketch> for SeededBatch {
    ghost adds = { AddsSketch };

    fn add(&mut self, sketch: &SeededSketch) -> u32 {
        match sketch.sketch.compact(true) {
            Ok(compact) => match self.sketches.push(compact) {
                Ok(()) => OK,
                Err(_) => OUT_OF_MEMORY,
            },
            Err(_) => OUT_OF_MEMORY,
        }
    }
}

/// Copies of compact sketches.
impl Accepts<CompactSketch> for SeededBatch {
    ghost adds = { AddsCompact };

    fn add(&mut self, sketch: &CompactSketch) -> u32 {
        match sketch.sketch.clone() {
            Ok(copy) => match self.sketches.push(copy) {
                Ok(()) => OK,
                Err(_) => OUT_OF_MEMORY,
            },
            Err(_) => OUT_OF_MEMORY,
        }
    }
}

impl AcceptsImages for SeededBatch {
    ghost adds_image = { AddsImage };

    fn add_image(&mut self, alloc: Global, image: &[u8]) -> u32 {
        match CompactSketch::read(alloc, image, self.seed) {
            Ok(read) => {
                let CompactSketch { sketch } = read;
                match self.sketches.push(sketch) {
                    Ok(()) => OK,
                    Err(_) => OUT_OF_MEMORY,
                }
            }
            Err(status) => status,
        }
    }
}

impl CanReset for SeededBatch {
    ghost resets = { EmptiesBatch };

    fn reset(&mut self) -> u32 {
        self.sketches.clear();
        OK
    }
}
