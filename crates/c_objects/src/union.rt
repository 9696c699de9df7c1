//! Unions of theta sketches.
ghost use Rattle.std.specs.Prelude.{true, IfOk};
ghost use Rattle.core_laws.specs.Refusal.{Refuses};
ghost use Rattle.core_laws.specs.Settings.{settings_refusal};
ghost use Rattle.theta_sketches.specs.View.{view_shows, view_sequence};
ghost use Rattle.c_objects.specs.Orders.{IsUnionResultIn};
ghost use Rattle.c_objects.specs.Thetas.{OfCompact, OfImage};
ghost use Rattle.c_objects.specs.Union.{IsNewUnion, AddsShown, AddsUpdatable, AddsAll, AddsBatch};
ghost use Rattle.c_objects.specs.Union.{IsUnionImage, IsResultRefusal, LowersUnion, ResetsUnion};
ghost use Rattle.c_objects.specs.declared.union.SeededUnion.{SeededUnion};

use crate::batch::SeededBatch;
use crate::compact::CompactSketch;
use crate::objects::{Accepts, AcceptsImages, CanReset, FromImage, HasCompact, HasImage, HasSize};
use crate::settings::bounded_lg_k;
use crate::status::{OK, OUT_OF_MEMORY, status_of};
use crate::theta::SeededSketch;
use core_laws::MAX_LG_K;
use keys_sketches::views_of;
use sketch_base::{Error, ErrorKind};
use std::alloc::Global;
use theta_sketches::{
    CompactThetaSketch, ResizeFactor, ThetaSketchView, ThetaUnion, ThetaUnionBuilder,
};

/// A union, and the seed of its sketches.
#[derive(Drop)]
pub struct SeededUnion {
    union: ThetaUnion,
    seed: u64,
}

/// A new union of 2^`lg_k` nominal entries, `lg_k` from 4 to 26, whose slots grow by a resize factor and which begins
/// at a theta from 1 to `MAX_THETA`. Refused with `InvalidArgument` if a setting is out of range or the hash of the
/// seed is 0, and with `OutOfMemory`.
pub fn build(
    alloc: Global,
    lg_k: u32,
    factor: ResizeFactor,
    start: u64,
    seed: u64,
) -> Result<SeededUnion, Error>
    ensures made { IfOk result (λ u. IsNewUnion lg_k start seed u) }
    ensures refused { Refuses result (settings_refusal lg_k start seed) true }
{
    if lg_k > MAX_LG_K as u32 {
        return Err(Error::new(ErrorKind::InvalidArgument));
    }
    let union = ThetaUnionBuilder::default()
        .lg_k(lg_k as u8)
        .resize_factor(factor)
        .starting_theta(start)
        .seed(seed)
        .build(alloc)?;
    Ok(SeededUnion { union, seed })
}

/// Lowers a union to 2^`lg_k` nominal entries. The status is `OK`; or `FAILED` if it has failed, `INVALID_ARGUMENT`
/// unless `lg_k` is from 4 to its own, or `OUT_OF_MEMORY`, and then nothing has changed.
pub fn lower(union: &mut SeededUnion, lg_k: u32) -> u32
    ensures { LowersUnion lg_k union.old result union.new }
{
    match union.union.lower_lg_k(bounded_lg_k(lg_k)) {
        Ok(()) => OK,
        Err(error) => status_of(error.kind()),
    }
}

fn add(union: &mut SeededUnion, view: ThetaSketchView<'_, Global>) -> u32
    ensures { AddsShown (view_shows view.entry) (view_sequence view.entry) union.old result union.new }
{
    match union.union.update(view) {
        Ok(()) => OK,
        Err(error) => status_of(error.kind()),
    }
}

impl Accepts<SeededSketch> for SeededUnion {
    ghost adds = { AddsUpdatable };

    fn add(&mut self, sketch: &SeededSketch) -> u32 {
        add(self, sketch.sketch.as_view())
    }
}

impl Accepts<CompactSketch> for SeededUnion {
    ghost adds = { OfCompact AddsShown };

    fn add(&mut self, sketch: &CompactSketch) -> u32 {
        add(self, sketch.sketch.as_view())
    }
}

impl AcceptsImages for SeededUnion {
    ghost adds_image = { OfImage AddsShown (λ u. u.seed) };

    fn add_image(&mut self, alloc: Global, image: &[u8]) -> u32 {
        match CompactSketch::read(alloc, image, self.seed) {
            Ok(sketch) => add(self, sketch.sketch.as_view()),
            Err(status) => status,
        }
    }
}

/// Merges sketches into a union at once. The status is `OK`; or that of the refusal, `OUT_OF_MEMORY` also if memory
/// for their views is refused, and then nothing has changed.
fn add_all(union: &mut SeededUnion, alloc: Global, sketches: &[CompactThetaSketch]) -> u32
    ensures { AddsAll sketches.now union.old result union.new }
{
    let views = match views_of(alloc, sketches) {
        Ok(views) => views,
        Err(_) => return OUT_OF_MEMORY,
    };
    match union.union.update_all(views.as_slice()) {
        Ok(()) => OK,
        Err(error) => status_of(error.kind()),
    }
}

/// All sketches of a batch, at once.
impl Accepts<SeededBatch> for SeededUnion {
    ghost adds = { AddsBatch };

    fn add(&mut self, batch: &SeededBatch) -> u32 {
        add_all(self, *batch.sketches.allocator(), batch.sketches.as_slice())
    }
}

impl HasCompact for SeededUnion {
    type Compact = CompactSketch;

    ghost is_compact = { IsUnionResultIn };

    ghost no_compact = { IsResultRefusal };

    fn compact(&self, ordered: bool) -> Result<CompactSketch, u32> {
        match self.union.to_sketch(ordered) {
            Ok(sketch) => Ok(CompactSketch { sketch }),
            Err(error) => Err(status_of(error.kind())),
        }
    }
}

impl HasImage for SeededUnion {
    ghost is_image = { IsUnionImage };

    ghost no_image = { IsResultRefusal };

    fn image(&self) -> Result<Vec<u8>, u32> {
        match self.union.to_sketch(true) {
            Ok(sketch) => CompactSketch { sketch }.image(),
            Err(error) => Err(status_of(error.kind())),
        }
    }
}

impl CanReset for SeededUnion {
    ghost resets = { ResetsUnion };

    fn reset(&mut self) -> u32 {
        self.union.reset();
        OK
    }
}

impl HasSize for SeededUnion {
    fn estimated_size(&self) -> u64 {
        self.union.estimated_size() as u64
    }
}
