//! Intersections of theta sketches.
ghost use Rattle.std.specs.Prelude.{true, None, IfOk};
ghost use Rattle.core_laws.specs.Refusal.{Refuses};
ghost use Rattle.core_operators.specs.Intersection.{seed_refusal};
ghost use Rattle.theta_sketches.specs.View.{view_shows, view_sequence};
ghost use Rattle.c_objects.specs.Intersection.{IsNewIntersection, MeetsShown, MeetsUpdatable, IsNoResult};
ghost use Rattle.c_objects.specs.Orders.{IsIntersectionResultIn};
ghost use Rattle.c_objects.specs.Thetas.{OfCompact, OfImage};
ghost use Rattle.c_objects.specs.declared.intersection.SeededIntersection.{SeededIntersection};

use crate::compact::CompactSketch;
use crate::objects::{Accepts, AcceptsImages, FromImage, HasCompact, HasSize};
use crate::status::{INVALID_ARGUMENT, OK, OUT_OF_MEMORY, status_of};
use crate::theta::SeededSketch;
use sketch_base::Error;
use std::alloc::Global;
use theta_sketches::{ThetaIntersection, ThetaSketchView};

/// An intersection, and the seed of its sketches.
#[derive(Drop)]
pub struct SeededIntersection {
    intersection: ThetaIntersection,
    seed: u64,
}

/// A new intersection, without a value. Refused with `InvalidArgument` if the hash of the seed is 0, and with
/// `OutOfMemory`.
pub fn build(alloc: Global, seed: u64) -> Result<SeededIntersection, Error>
    ensures made { IfOk result (λ i. IsNewIntersection seed i) }
    ensures refused { Refuses result (seed_refusal seed) true }
{
    let intersection = ThetaIntersection::with_seed(alloc, seed)?;
    Ok(SeededIntersection { intersection, seed })
}

fn add(object: &mut SeededIntersection, view: ThetaSketchView<'_, Global>) -> u32
    ensures { MeetsShown (view_shows view.entry) (view_sequence view.entry) object.old result object.new }
{
    match object.intersection.update(view) {
        Ok(()) => OK,
        Err(error) => status_of(error.kind()),
    }
}

impl Accepts<SeededSketch> for SeededIntersection {
    ghost adds = { MeetsUpdatable };

    fn add(&mut self, sketch: &SeededSketch) -> u32 {
        add(self, sketch.sketch.as_view())
    }
}

impl Accepts<CompactSketch> for SeededIntersection {
    ghost adds = { OfCompact MeetsShown };

    fn add(&mut self, sketch: &CompactSketch) -> u32 {
        add(self, sketch.sketch.as_view())
    }
}

impl AcceptsImages for SeededIntersection {
    ghost adds_image = { OfImage MeetsShown (λ i. i.seed) };

    fn add_image(&mut self, alloc: Global, image: &[u8]) -> u32 {
        match CompactSketch::read(alloc, image, self.seed) {
            Ok(sketch) => add(self, sketch.sketch.as_view()),
            Err(status) => status,
        }
    }
}

impl HasCompact for SeededIntersection {
    type Compact = CompactSketch;

    ghost is_compact = { IsIntersectionResultIn };

    ghost no_compact = { IsNoResult };

    fn compact(&self, ordered: bool) -> Result<CompactSketch, u32> {
        match self.intersection.to_sketch(ordered) {
            Ok(Some(sketch)) => Ok(CompactSketch { sketch }),
            Ok(None) => Err(INVALID_ARGUMENT),
            Err(_) => Err(OUT_OF_MEMORY),
        }
    }
}

impl HasSize for SeededIntersection {
    fn estimated_size(&self) -> u64 {
        self.intersection.estimated_size() as u64
    }
}
