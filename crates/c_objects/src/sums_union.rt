//! Unions of tuple sketches of sums, or of least or greatest numbers.
ghost use Rattle.std.specs.Prelude.{true, IfOk};
ghost use Rattle.core_laws.specs.Refusal.{Refuses};
ghost use Rattle.core_laws.specs.Settings.{settings_refusal};
ghost use Rattle.core_slots.specs.Entry.{tuple_key};
ghost use Rattle.core_state.specs.View.{shows, sequence};
ghost use Rattle.c_objects.specs.CompactSums.{OfCompactSums, OfSumsImage};
ghost use Rattle.c_objects.specs.Orders.{IsSumsUnionResultIn};
ghost use Rattle.c_objects.specs.Settings.{mode_refusal};
ghost use Rattle.c_objects.specs.SumsUnion.{IsNewSumsUnion, IsNewSumsUnionByMode};
ghost use Rattle.c_objects.specs.SumsUnion.{AddsShownSums, AddsUpdatableSums, IsSumsUnionImage};
ghost use Rattle.c_objects.specs.SumsUnion.{IsSumsResultRefusal, LowersSumsUnion, ResetsSumsUnion};
ghost use Rattle.c_objects.specs.declared.sums_union.SeededSumsUnion.{SeededSumsUnion};

use crate::compact_sums::CompactSums;
use crate::objects::{Accepts, AcceptsImages, CanReset, FromImage, HasCompact, HasImage, HasSize};
use crate::settings::{bounded_lg_k, mode_of};
use crate::status::{OK, status_of};
use crate::sums::SeededSums;
use core_laws::MAX_LG_K;
use sketch_base::{Error, ErrorKind};
use std::alloc::Global;
use tuple_sketches::{
    NumberPolicy, ResizeFactor, SummaryMode, TupleSketchView, TupleUnion, TupleUnionBuilder,
};

/// A union of sketches of numbers under the policy of a mode, and the seed of its sketches.
#[derive(Drop)]
pub struct SeededSumsUnion {
    union: TupleUnion<NumberPolicy>,
    seed: u64,
}

/// A new union of a mode, of 2^`lg_k` nominal entries, `lg_k` from 4 to 26, whose slots grow by a resize factor and
/// which begins at a theta from 1 to `MAX_THETA`. Refused with `InvalidArgument` if a setting is out of range or the hash of the
/// seed is 0, and with `OutOfMemory`.
pub fn build(
    alloc: Global,
    lg_k: u32,
    factor: ResizeFactor,
    start: u64,
    seed: u64,
    mode: SummaryMode,
) -> Result<SeededSumsUnion, Error>
    ensures made { IfOk result (λ u. IsNewSumsUnion mode lg_k start seed u) }
    ensures refused { Refuses result (settings_refusal lg_k start seed) true }
{
    if lg_k > MAX_LG_K as u32 {
        return Err(Error::new(ErrorKind::InvalidArgument));
    }
    let union = TupleUnionBuilder::new(NumberPolicy::new(mode))
        .lg_k(lg_k as u8)
        .resize_factor(factor)
        .starting_theta(start)
        .seed(seed)
        .build(alloc)?;
    Ok(SeededSumsUnion { union, seed })
}

/// A new union of the mode of a number: 0 for sums, 1 for least numbers, 2 for greatest numbers. Refused as `build`
/// is, and with `InvalidArgument` for any other number.
pub fn build_by_mode(
    alloc: Global,
    lg_k: u32,
    factor: ResizeFactor,
    start: u64,
    seed: u64,
    mode: u32,
) -> Result<SeededSumsUnion, Error>
    ensures made { IfOk result (λ u. IsNewSumsUnionByMode mode lg_k start seed u) }
    ensures refused { Refuses result (mode_refusal mode (settings_refusal lg_k start seed)) true }
{
    match mode_of(mode) {
        Some(valid) => build(alloc, lg_k, factor, start, seed, valid),
        None => Err(Error::new(ErrorKind::InvalidArgument)),
    }
}

/// Lowers a union to 2^`lg_k` nominal entries, as `union::lower` does.
pub fn lower(union: &mut SeededSumsUnion, lg_k: u32) -> u32
    ensures { LowersSumsUnion lg_k union.old result union.new }
{
    match union.union.lower_lg_k(bounded_lg_k(lg_k)) {
        Ok(()) => OK,
        Err(error) => status_of(error.kind()),
    }
}

#[tactic(auto, unfolding(crate::specs::SumsUnion::AddsShownSums))]
fn add(union: &mut SeededSumsUnion, view: TupleSketchView<'_, u64>) -> u32
    ensures { AddsShownSums (shows tuple_key view.entry) (sequence view.entry) union.old result union.new }
{
    match union.union.update(view) {
        Ok(()) => OK,
        Err(error) => status_of(error.kind()),
    }
}

impl Accepts<SeededSums> for SeededSumsUnion {
    ghost adds = { AddsUpdatableSums };

    fn add(&mut self, sketch: &SeededSums) -> u32 {
        add(self, sketch.sketch.as_view())
    }
}

impl Accepts<CompactSums> for SeededSumsUnion {
    ghost adds = { OfCompactSums AddsShownSums };

    fn add(&mut self, sketch: &CompactSums) -> u32 {
        add(self, sketch.sketch.as_view())
    }
}

impl AcceptsImages for SeededSumsUnion {
    ghost adds_image = { OfSumsImage AddsShownSums (λ u. u.seed) };

    fn add_image(&mut self, alloc: Global, image: &[u8]) -> u32 {
        match CompactSums::read(alloc, image, self.seed) {
            Ok(sketch) => add(self, sketch.sketch.as_view()),
            Err(status) => status,
        }
    }
}

impl HasCompact for SeededSumsUnion {
    type Compact = CompactSums;

    ghost is_compact = { IsSumsUnionResultIn };

    ghost no_compact = { IsSumsResultRefusal };

    fn compact(&self, ordered: bool) -> Result<CompactSums, u32> {
        match self.union.to_sketch(ordered) {
            Ok(sketch) => Ok(CompactSums { sketch }),
            Err(error) => Err(status_of(error.kind())),
        }
    }
}

impl HasImage for SeededSumsUnion {
    ghost is_image = { IsSumsUnionImage };

    ghost no_image = { IsSumsResultRefusal };

    fn image(&self) -> Result<Vec<u8>, u32> {
        match self.union.to_sketch(true) {
            Ok(sketch) => CompactSums { sketch }.image(),
            Err(error) => Err(status_of(error.kind())),
        }
    }
}

impl CanReset for SeededSumsUnion {
    ghost resets = { ResetsSumsUnion };

    fn reset(&mut self) -> u32 {
        self.union.reset();
        OK
    }
}

impl HasSize for SeededSumsUnion {
    fn estimated_size(&self) -> u64 {
        self.union.estimated_size() as u64
    }
}
