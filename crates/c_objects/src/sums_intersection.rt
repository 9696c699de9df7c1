//! Intersections of tuple sketches of sums, or of least or greatest numbers.
ghost use Rattle.std.specs.Prelude.{true, None, IfOk};
ghost use Rattle.core_laws.specs.Refusal.{Refuses};
ghost use Rattle.core_operators.specs.Intersection.{seed_refusal};
ghost use Rattle.core_slots.specs.Entry.{tuple_key};
ghost use Rattle.core_state.specs.View.{shows, sequence};
ghost use Rattle.c_objects.specs.CompactSums.{OfCompactSums, OfSumsImage};
ghost use Rattle.c_objects.specs.Orders.{IsSumsIntersectionResultIn};
ghost use Rattle.c_objects.specs.Settings.{mode_refusal};
ghost use Rattle.c_objects.specs.SumsIntersection.{IsNewSumsIntersection, IsNewSumsIntersectionByMode};
ghost use Rattle.c_objects.specs.SumsIntersection.{MeetsShownSums, MeetsUpdatableSums, IsNoSumsResult};
ghost use Rattle.c_objects.specs.declared.sums_intersection.SeededSumsIntersection.{SeededSumsIntersection};

use crate::compact_sums::CompactSums;
use crate::objects::{Accepts, AcceptsImages, FromImage, HasCompact, HasSize};
use crate::settings::mode_of;
use crate::status::{INVALID_ARGUMENT, OK, OUT_OF_MEMORY, status_of};
use crate::sums::SeededSums;
use sketch_base::{Error, ErrorKind};
use std::alloc::Global;
use tuple_sketches::{NumberPolicy, SummaryMode, TupleIntersection, TupleSketchView};

/// An intersection of sketches of numbers under the policy of a mode, and the seed of its sketches. The numbers of one
/// hash are combined as in a union.
#[derive(Drop)]
pub struct SeededSumsIntersection {
    intersection: TupleIntersection<NumberPolicy>,
    seed: u64,
}

/// A new intersection of a mode, without a value. Refused with `InvalidArgument` if the hash of the seed is 0, and with
/// `OutOfMemory`.
pub fn build(alloc: Global, seed: u64, mode: SummaryMode) -> Result<SeededSumsIntersection, Error>
    ensures made { IfOk result (λ i. IsNewSumsIntersection mode seed i) }
    ensures refused { Refuses result (seed_refusal seed) true }
{
    let policy = NumberPolicy::new(mode);
    let intersection = TupleIntersection::with_seed(alloc, policy, seed)?;
    Ok(SeededSumsIntersection { intersection, seed })
}

/// A new intersection of the mode of a number: 0 for sums, 1 for least numbers, 2 for greatest numbers. Refused as
/// `build` is, and with `InvalidArgument` for any other number.
pub fn build_by_mode(alloc: Global, seed: u64, mode: u32) -> Result<SeededSumsIntersection, Error>
    ensures made { IfOk result (λ i. IsNewSumsIntersectionByMode mode seed i) }
    ensures refused { Refuses result (mode_refusal mode (seed_refusal seed)) true }
{
    match mode_of(mode) {
        Some(valid) => build(alloc, seed, valid),
        None => Err(Error::new(ErrorKind::InvalidArgument)),
    }
}

#[tactic(auto, unfolding(crate::specs::SumsIntersection::MeetsShownSums))]
fn add(object: &mut SeededSumsIntersection, view: TupleSketchView<'_, u64>) -> u32
    ensures { MeetsShownSums (shows tuple_key view.entry) (sequence view.entry) object.old result object.new }
{
    match object.intersection.update(view) {
        Ok(()) => OK,
        Err(error) => status_of(error.kind()),
    }
}

impl Accepts<SeededSums> for SeededSumsIntersection {
    ghost adds = { MeetsUpdatableSums };

    fn add(&mut self, sketch: &SeededSums) -> u32 {
        add(self, sketch.sketch.as_view())
    }
}

impl Accepts<CompactSums> for SeededSumsIntersection {
    ghost adds = { OfCompactSums MeetsShownSums };

    fn add(&mut self, sketch: &CompactSums) -> u32 {
        add(self, sketch.sketch.as_view())
    }
}

impl AcceptsImages for SeededSumsIntersection {
    ghost adds_image = { OfSumsImage MeetsShownSums (λ i. i.seed) };

    fn add_image(&mut self, alloc: Global, image: &[u8]) -> u32 {
        match CompactSums::read(alloc, image, self.seed) {
            Ok(sketch) => add(self, sketch.sketch.as_view()),
            Err(status) => status,
        }
    }
}

impl HasCompact for SeededSumsIntersection {
    type Compact = CompactSums;

    ghost is_compact = { IsSumsIntersectionResultIn };

    ghost no_compact = { IsNoSumsResult };

    fn compact(&self, ordered: bool) -> Result<CompactSums, u32> {
        match self.intersection.to_sketch(ordered) {
            Ok(Some(sketch)) => Ok(CompactSums { sketch }),
            Ok(None) => Err(INVALID_ARGUMENT),
            Err(_) => Err(OUT_OF_MEMORY),
        }
    }
}

impl HasSize for SeededSumsIntersection {
    fn estimated_size(&self) -> u64 {
        self.intersection.estimated_size() as u64
    }
}
