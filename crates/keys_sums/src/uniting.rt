//! Unions of images of sums, by any mode, and which lines they are the images of.
ghost use Rattle.std.specs.Prelude.{◌≡◌, ℕ, List, [], Some, map, true, None, IfOk, IfErr, OnOk, IfSome, length};
ghost use Rattle.sketch_base.specs.Seed.{seed_hash};
ghost use Rattle.core_compact.specs.CompactState.{shown_of};
ghost use Rattle.core_laws.specs.Folds.{unmarked_value};
ghost use Rattle.core_laws.specs.Refusal.{Refuses};
ghost use Rattle.core_laws.specs.Settings.{settings_refusal};
ghost use Rattle.core_laws.specs.Shown.{shown_value};
ghost use Rattle.core_laws.specs.declared.TheConstants.{MAX_THETA};
ghost use Rattle.core_operators.specs.Union.{empty_union};
ghost use Rattle.core_slots.specs.Entry.{tuple_key};
ghost use Rattle.core_state.specs.View.{shows, sequence};
ghost use Rattle.keys_sketches.specs.Batches.{HasRead, IsReadyFor};
ghost use Rattle.keys_sketches.specs.Refusals.{FailsIf, IsMergeError};
ghost use Rattle.keys_sums.specs.Images.{ReadsSumsUnder};
ghost use Rattle.keys_sums.specs.Unions.{HasUnitedSums, IsUnitedSums, IsUnitedSumsImage, AreSumsOfTexts};
ghost use Rattle.keys_sums.specs.Unions.{UnitesSumsOfTexts, IsReadyToUnite};
ghost use Rattle.keys_sums.specs.Unions.{IsUniteSumsRefusal, folds_of_sketches, merge_refusal};
ghost use Rattle.tuple_sketches.specs.declared.numbers.SummaryMode.{SummaryMode};

use crate::bins::greatest_sum;
use crate::images::{read_sums, sums_image};
use keys_sketches::{Batch, ReadError, SketchUnion, Sources, United, add_images};
use sketch_base::Error;
use std::alloc::{AllocError, Allocator, Global};
use tuple_sketches::laws::one_reading;
use tuple_sketches::{
    CompactTupleSketch, NumberPolicy, SummaryMode, TupleSketchView, TupleUnion, TupleUnionBuilder,
};

/// A union of sketches of sums.
#[derive(Drop)]
struct SumsUnion<A: Allocator> {
    union: TupleUnion<NumberPolicy, A>,
    /// The mode of its policy.
    mode: SummaryMode,
}

/// A new union of this mode and of 2^`lg_k` nominal entries, of sketches of this seed.
fn new_union<A: Allocator + Drop>(
    alloc: A,
    mode: SummaryMode,
    seed: u64,
    lg_k: u8,
) -> Result<SumsUnion<A>, Error>
    ensures made { IfOk result (λ u. u.union.state ≡ empty_union lg_k MAX_THETA (seed_hash seed) u.union.state.policy) }
    ensures mode { IfOk result (λ u. u.union.state.policy.mode ≡ mode) }
    ensures refused { Refuses result (settings_refusal lg_k MAX_THETA seed) true }
{
    let union = TupleUnionBuilder::new(NumberPolicy::new(mode))
        .lg_k(lg_k)
        .seed(seed)
        .build(alloc)?;
    Ok(SumsUnion { union, mode })
}

/// Views of sketches.
fn views_of<'a, A: Allocator + Clone + Drop>(
    alloc: A,
    sketches: &'a [CompactTupleSketch<u64, A>],
) -> Result<Vec<TupleSketchView<'a, u64, A>, A>, AllocError>
    ensures shown { IfOk result (λ v.
        map (λ view. shows tuple_key view) v.items ≡ map (shown_of tuple_key) sketches.now) }
    ensures values { IfOk result (λ v.
        map (λ view. unmarked_value (shown_value tuple_key (shows tuple_key view) (sequence view))) v.items
        ≡ folds_of_sketches sketches.now) }
{
    let mut views = Vec::with_capacity(alloc, sketches.len())?;
    for sketch in sketches {
        views.push(sketch.as_view())?;
    }
    Ok(views)
}

impl<A: Allocator + Clone + Drop> SketchUnion<A> for SumsUnion<A> {
    type Sketch = CompactTupleSketch<u64, A>;

    ghost use Rattle.keys_sums.specs.Images.{ReadsSumsUnder};
    ghost use Rattle.keys_sums.specs.Unions.{HasUnitedSums, AreNoSums, UnionSettings, IsReadyToUnite};
    ghost use Rattle.keys_sums.specs.Unions.{merge_refusal};

    ghost Settings = { UnionSettings };

    ghost has_united = { λ seed settings images u.
        HasUnitedSums settings.mode seed settings.lg_k images u.union.state };

    ghost is_ready = { λ seed settings u. IsReadyToUnite settings.mode seed u.union.state };

    ghost reads = { ReadsSumsUnder };

    ghost is_no_image = { AreNoSums };

    ghost merge_refusal = { λ settings. merge_refusal settings.mode };

    fn read(alloc: A, seed: u64, image: &[u8]) -> Result<CompactTupleSketch<u64, A>, Error> {
        read_sums(alloc, seed, image)
    }

    fn retained(sketch: &CompactTupleSketch<u64, A>) -> usize {
        sketch.num_retained()
    }

    fn greatest(&self, sketch: &CompactTupleSketch<u64, A>) -> u64 {
        match self.mode {
            SummaryMode::Sum => greatest_sum(sketch),
            _ => 0,
        }
    }

    fn merge(&mut self, alloc: A, sketches: &[CompactTupleSketch<u64, A>]) -> Result<(), Error> {
        let views = views_of(alloc, sketches)?;
        self.union.update_all(views.as_slice())?;
        Ok(())
    }
}

/// The result of a union, ordered. If the union has not failed, it is refused only with `OutOfMemory`.
fn united_sketch<A: Allocator + Clone + Drop>(
    union: &SumsUnion<A>,
) -> Result<CompactTupleSketch<u64, A>, Error>
    ensures sketch { (mode : SummaryMode) (seed lg_k : ℕ) (images : List (List ℕ))
        → HasUnitedSums mode seed lg_k images union.now.union.state
        → IfOk result (IsUnitedSums mode seed lg_k images) }
    ensures refused { (mode : SummaryMode) (seed : ℕ)
        → IsReadyToUnite mode seed union.now.union.state
        → Refuses result None true }
{
    union.union.to_sketch(true)
}

/// A batch for a new union of this mode and of 2^`lg_k` nominal entries, of sketches of this seed.
fn new_batch<A: Allocator + Clone + Drop>(
    alloc: A,
    mode: SummaryMode,
    seed: u64,
    lg_k: u8,
) -> Result<Batch<SumsUnion<A>, A>, Error>
    ensures united { IfOk result (λ b.
        HasRead (λ images u. HasUnitedSums mode seed lg_k images u.union.state) (ReadsSumsUnder seed) []
        b.union b.waiting.items) }
    ensures ready { IfOk result (λ b.
        IsReadyFor (λ u. IsReadyToUnite mode seed u.union.state) (ReadsSumsUnder seed) b.union b.waiting.items) }
    ensures refused { Refuses result (settings_refusal lg_k MAX_THETA seed) true }
{
    let own = alloc.clone()?;
    let union = new_union(alloc, mode, seed, lg_k)?;
    Ok(Batch::new(union, own))
}

/// The result of a union, ordered, once the sketches that wait are merged. If the union has not failed, it is refused
/// only with `OutOfMemory`, and in the mode `Sum` with `Policy`.
fn sketch_of_batch<A: Allocator + Clone + Drop>(
    batch: Batch<SumsUnion<A>, A>,
) -> Result<CompactTupleSketch<u64, A>, Error>
    ensures sketch { (mode : SummaryMode) (seed lg_k : ℕ) (images : List (List ℕ))
        → HasRead (λ images u. HasUnitedSums mode seed lg_k images u.union.state) (ReadsSumsUnder seed) images
        batch.union batch.waiting.items
        → IfOk result (IsUnitedSums mode seed lg_k images) }
    ensures refused { (mode : SummaryMode) (seed : ℕ)
        → IsReadyFor (λ u. IsReadyToUnite mode seed u.union.state) (ReadsSumsUnder seed) batch.union batch.waiting.items
        → IfErr result (IsMergeError (merge_refusal mode)) }
{
    let union = batch.into_union()?;
    united_sketch(&union)
}

/// The sketch of a union of images of sums, ordered, and how many images were united.
#[derive(Drop)]
pub struct UnionOfSums<A: Allocator + Drop = Global> {
    pub sketch: CompactTupleSketch<u64, A>,
    /// From 0 to 2^64 - 2.
    pub count: u64,
}

/// The sketch of the union of images of sums of this seed, each with its own reader, and the number of these images.
/// The sums of a key that images share are combined by a mode: added, or the least or the greatest is kept.
///
/// If the images are those of the sums of texts that were sketched apart, by one key, one amount and this mode, with
/// this seed and at least this `lg_k`, it is the sketch of the sums of all their lines. An image doesn't show the key,
/// the amount, the mode and the `lg_k` that it was made with.
///
/// Each image is read and checked before the next source is opened. Its sketch waits until 64 sketches wait, or they
/// have more than 2^17 entries together, and is then merged with them. In the mode `Sum`, if the greatest sums of all
/// sketches are 2^64 or more together, it is merged before the next source is opened: so if a merge is refused with
/// `Policy`, no sum is too large without the image that was read last. In memory beside the union are at most one image, its sketch and 2
/// MB of other sketches.
///
/// Refused with `InvalidArgument` only for an `lg_k` that isn't from 4 to 26 or a seed whose seed hash is 0; with
/// `InvalidData` only if some source is no image of sums of this seed; with `Policy` only in the mode `Sum`, if the
/// sums of a key below every theta so far are 2^64 or more together, which no clause says; and with `OutOfMemory`. If a source fails, or can't
/// be opened, its error is returned: only if sources may fail, so never for images in memory. For a wrong `lg_k` or
/// seed nothing is read; no clause says so.
pub fn union_of_sums<A: Allocator + Clone + Drop, S: Sources>(
    alloc: A,
    mode: SummaryMode,
    seed: u64,
    lg_k: u8,
    images: &mut S,
) -> Result<UnionOfSums<A>, ReadError>
    ensures united { IfSome (S.texts images.old) (λ all. IfOk result (λ u. IsUnitedSums mode seed lg_k all u.sketch)) }
    ensures counted { IfSome (S.texts images.old) (λ all. IfOk result (λ u. u.count ≡ length all)) }
    ensures apart { IfSome (S.texts images.old) (λ all. IfOk result (λ u. AreSumsOfTexts mode seed lg_k all u.sketch)) }
    ensures accepted { OnOk result (settings_refusal lg_k MAX_THETA seed ≡ None) }
    ensures refused { IfErr result
        (IsUniteSumsRefusal mode seed (settings_refusal lg_k MAX_THETA seed) (S.texts images.old)) }
    ensures fallible { IfErr result (FailsIf S.may_fail) }
{
    one_reading::<u64, A>();
    let mut batch = new_batch(alloc.clone()?, mode, seed, lg_k)?;
    let count = add_images(&mut batch, alloc, seed, images)?;
    let sketch = sketch_of_batch(batch)?;
    Ok(UnionOfSums { sketch, count })
}

/// The image of the union of images of sums of this seed, as `union_of_sums` unites them, and the number of these
/// images. For images of texts that were sketched apart it is the image of the sums of all their lines, byte for
/// byte. Refused as `union_of_sums`.
pub fn unite_sums<A: Allocator + Clone + Drop, S: Sources>(
    alloc: A,
    mode: SummaryMode,
    seed: u64,
    lg_k: u8,
    images: &mut S,
) -> Result<United<A>, ReadError>
    ensures united { IfSome (S.texts images.old) (λ all.
        IfOk result (λ u. IsUnitedSumsImage mode seed lg_k all u.image.items)) }
    ensures counted { IfSome (S.texts images.old) (λ all. IfOk result (λ u. u.count ≡ length all)) }
    ensures apart { IfSome (S.texts images.old) (λ all.
        IfOk result (λ u. UnitesSumsOfTexts mode seed lg_k all u.image.items)) }
    ensures accepted { OnOk result (settings_refusal lg_k MAX_THETA seed ≡ None) }
    ensures refused { IfErr result
        (IsUniteSumsRefusal mode seed (settings_refusal lg_k MAX_THETA seed) (S.texts images.old)) }
    ensures fallible { IfErr result (FailsIf S.may_fail) }
{
    let united = union_of_sums(alloc, mode, seed, lg_k, images)?;
    let image = sums_image(&united.sketch)?;
    Ok(United {
        image,
        count: united.count,
    })
}
